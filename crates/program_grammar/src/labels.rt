ghost use Rattle.std.specs.Prelude.{◌≡◌, ◌+◌, ◌≤◌, ◌++◌, length, map, OnErr, OnOk};
ghost use Rattle.condition_grammar.specs.calls.Reading.{AreNew};
ghost use Rattle.program_grammar.specs.calls.Answers.{AddsFirst};
ghost use Rattle.line_fields.specs.meaning.Names.{most_names};

use graph_types::NoMemory;
use line_fields::{NameFault, Names};
use std::alloc::Global;

/// Puts labels that are all new after the names. Where memory runs out, those before stay there.
pub(crate) fn intern_all(alloc: Global, names: &mut Names, labels: &[&[u8]]) -> Result<(), NoMemory>
    requires new { AreNew names.old (map (λ l. l.now) labels.now) }
    requires room { length names.old + length labels.now ≤ most_names }
    ensures all { OnOk result (names.new ≡ names.old ++ map (λ l. l.now) labels.now) }
    ensures some { OnErr result (AddsFirst (map (λ l. l.now) labels.now) names.old names.new) }
{
    for label in labels {
        match names.intern(alloc, label) {
            Ok(_) => {}
            Err(NameFault::NoMemory) => return Err(NoMemory),
            Err(NameFault::TooManyLabels) => unreachable!(),
        }
    }
    Ok(())
}
