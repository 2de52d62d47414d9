ghost use Rattle.std.specs.Prelude.{◌≡◌};
ghost use Rattle.line_fields.specs.meaning.Names.{first_names};

use filter_polarity::Program;
use graph_types::NoMemory;
use job_io::{ByteList, LineList};
use line_fields::Names;
use program_grammar::{ProgramFault, read_program};
use std::alloc::Global;

/// The program that a text says, in which `;` parts lines. What stands after its `begin` is not read. The names, which
/// have no label yet, get those of the program.
pub fn read(
    alloc: Global,
    text: &str,
    names: &mut Names,
) -> Result<Result<Program, ProgramFault>, NoMemory>
    requires { names.old ≡ first_names }
{
    let mut lines = LineList::new(alloc);
    for line in text.split(';') {
        lines.push(bytes(alloc, line)?)?;
    }
    Ok(read_program(alloc, &lines, names))
}

fn bytes(alloc: Global, text: &str) -> Result<ByteList, NoMemory> {
    let mut bytes = ByteList::new(alloc);
    for byte in text.as_bytes() {
        bytes.push(*byte)?;
    }
    Ok(bytes)
}
