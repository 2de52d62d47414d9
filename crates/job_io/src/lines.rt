ghost use Rattle.std.specs.Prelude.{◌≡◌, ℕ, Bool, List, length};
ghost use Rattle.job_io.specs.meaning.Lines.{without_cr as without_cr_of};

use crate::memory::ByteList;
use graph_types::List;

/// Lines, each without its LF.
pub type LineList = List<ByteList>;

// A line without the one CR that may stand at its end.
pub(crate) fn without_cr(line: &[u8]) -> &[u8]
    ensures { result.now ≡ without_cr_of line.now }
{
    let Some((last, rest)) = line.split_last() else {
        return line;
    };
    if *last == b'\r' { rest } else { line }
}
