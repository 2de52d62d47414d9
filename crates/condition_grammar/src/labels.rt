ghost use Rattle.std.specs.Prelude.{◌≡◌, ◌+◌, ◌≤◌, ◌<◌, ◌++◌, length, map, position, IfOk, IsTrue, MatchOption};
ghost use Rattle.std.specs.Str.{bytes_eq};
ghost use Rattle.conditions.specs.meaning.Written.{most_tokens};
ghost use Rattle.line_fields.specs.meaning.Fields.{is_label_word};
ghost use Rattle.condition_grammar.specs.meaning.Grammar.{label_number};
ghost use Rattle.condition_grammar.specs.calls.Reading.{AreNew};

use graph_types::{LabelId, NoMemory};
use line_fields::Names;

/// The number of a label after the names and the labels that they lack. A label that is new is put there.
pub(crate) fn number_of<'t>(
    names: &Names,
    labels: &mut Vec<&'t [u8]>,
    label: &'t [u8],
) -> Result<LabelId, NoMemory>
    requires few { length labels.old.items < most_tokens }
    requires form { IsTrue (is_label_word label.now) }
    ensures numbered { IfOk result (λ l.
        (l, names.now ++ map (λ l. l.now) labels.new.items) ≡ label_number (names.now ++ map (λ l. l.now) labels.old.items) label.now) }
    ensures new { AreNew names.now (map (λ l. l.now) labels.old.items) → AreNew names.now (map (λ l. l.now) labels.new.items) }
    ensures few { length labels.new.items ≤ length labels.old.items + 1 }
{
    if let Some(known) = names.number(label) {
        return Ok(known);
    }
    let held = names.count();
    if let Some(place) = place_of(labels.as_slice(), label) {
        return Ok(LabelId((held + place) as u32));
    }
    let place = labels.len();
    labels.push(label)?;
    Ok(LabelId((held + place) as u32))
}

// The place of a label among others.
fn place_of(labels: &[&[u8]], label: &[u8]) -> Option<usize>
    ensures place { result ≡ position (λ l. bytes_eq label.now l.now) labels.now }
    ensures within { MatchOption result (Unit {0}) (λ i. i < length labels.now) }
{
    labels.iter().position(|l| label == *l)
}
