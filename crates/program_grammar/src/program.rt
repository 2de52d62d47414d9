ghost use Rattle.std.specs.Prelude.{◌⊎◌, map, IfOk, IsTrue};
ghost use Rattle.program_grammar.specs.meaning.Programs.{LinesFit, ReadsProgram, RoomFor};
ghost use Rattle.condition_grammar.specs.meaning.Text.{knows_labels};

use crate::fault::{ProgramFault, ProgramKind};
use crate::header::{HeaderReader, HeaderStep};
use filter_polarity::Program;
use job_io::LineList;
use line_fields::Names;
use std::alloc::Global;

/// Reads the program that lines say, up to its `begin`. Labels that the names lack are put after them in the
/// order in which they stand, at most 1,024. A refusal leaves there those of the lines before. The first line
/// that [`HeaderReader::take`] refuses is told, by its number from 1; where the lines end before `begin`, it is
/// told how many there were, and the word that is `Missing`. Takes the time and the memory of those calls.
pub fn read_program(
    alloc: Global,
    lines: &LineList,
    names: &mut Names,
) -> Result<Program, ProgramFault>
    requires { RoomFor HeaderReader.Mode names.old ⊎ LinesFit HeaderReader.Mode lines.now names.old }
    ensures reads { ReadsProgram lines.now names.old result names.new }
    ensures known { IfOk result (λ p. IsTrue (knows_labels names.new p.filter) × IsTrue (knows_labels names.new p.matching)) }
{
    let mut header = HeaderReader::new();
    for (i, line) in lines.as_slice().iter().enumerate() {
        match header.take(alloc, line.as_slice(), i as u64 + 1, names)? {
            HeaderStep::More(next) => header = next,
            HeaderStep::Ready(program) => return Ok(program),
        }
    }
    Err(ProgramFault::Refused {
        line: lines.len() as u64,
        kind: ProgramKind::Missing(header.missing()),
    })
}
