ghost use Rattle.std.specs.Prelude.{◌≡◌, ◌++◌, codes, decimal, IfOk, IsTrue, Ok};
ghost use Rattle.condition_grammar.specs.meaning.Text.{cond_text, knows_labels};
ghost use Rattle.program_grammar.specs.meaning.Programs.{LinesFit, program_said};
ghost use Rattle.program_grammar.specs.meaning.Text.{mode_text, program_text};

use crate::header::HeaderReader;
use condition_grammar::{put, put_cond, put_number};
use conditions::Cond;
use filter_polarity::Program;
use graph_types::{Mode, NoMemory};
use job_io::{ByteList, LineList};
use line_fields::Names;
use std::alloc::Global;

/// The five lines of a program, with no more parentheses than are needed and one blank between tokens, but none
/// in a use of a term and none right inside of parentheses. Read with these names they give the program back, and add
/// no name. Takes time linear in the lines.
pub fn write_program(alloc: Global, p: &Program, names: &Names) -> Result<LineList, NoMemory>
    requires filter_known { IsTrue (knows_labels names.now p.now.filter) }
    requires matching_known { IsTrue (knows_labels names.now p.now.matching) }
    ensures written { IfOk result (λ lines. lines ≡ program_text names.now p.now) }
    ensures fits { IfOk result (λ lines. LinesFit HeaderReader.Mode lines names.now) }
    ensures read_back { IfOk result (λ lines. program_said lines names.now ≡ (Ok p.now, names.now)) }
{
    // By this call the names tell that they are labels, each once.
    let _ = names.count();
    let mut lines = LineList::new(alloc);
    lines.push(mode_line(alloc, p.mode())?)?;
    lines.push(size_line(alloc, p.size())?)?;
    lines.push(cond_line(alloc, b"filter ", p.filter().cond(), names)?)?;
    lines.push(cond_line(alloc, b"match ", p.matching(), names)?)?;
    lines.push(word_line(alloc, b"begin")?)?;
    Ok(lines)
}

fn word_line(alloc: Global, word: &[u8]) -> Result<ByteList, NoMemory>
    ensures { IfOk result (λ line. line ≡ word.now) }
{
    let mut line = ByteList::new(alloc);
    put(&mut line, word)?;
    Ok(line)
}

fn mode_line(alloc: Global, mode: Mode) -> Result<ByteList, NoMemory>
    ensures { IfOk result (λ line. line ≡ codes "mode " ++ mode_text mode) }
{
    match mode {
        Mode::Vertex => word_line(alloc, b"mode vertex"),
        Mode::Edge => word_line(alloc, b"mode edge"),
    }
}

fn size_line(alloc: Global, size: u8) -> Result<ByteList, NoMemory>
    ensures { IfOk result (λ line. line ≡ codes "size " ++ decimal size) }
{
    let mut line = word_line(alloc, b"size ")?;
    put_number(&mut line, u32::from(size))?;
    Ok(line)
}

fn cond_line(alloc: Global, word: &[u8], cond: &Cond, names: &Names) -> Result<ByteList, NoMemory>
    requires { IsTrue (knows_labels names.now cond.now) }
    ensures { IfOk result (λ line. line ≡ word.now ++ cond_text names.now cond.now) }
{
    let mut line = word_line(alloc, word)?;
    put_cond(&mut line, cond, names)?;
    Ok(line)
}
