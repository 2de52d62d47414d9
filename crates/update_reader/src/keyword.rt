ghost use Rattle.std.specs.Prelude.{◌≡◌};
ghost use Rattle.update_reader.specs.meaning.Grammar.{keyword_of};

/// The first word of a line that says an update, or where a window or a batch begins or ends.
#[derive(Clone, Copy, Debug, PartialEq, Eq)]
pub enum Keyword {
    AddVertex,
    RemoveVertex,
    LabelVertex,
    AddEdge,
    RemoveEdge,
    LabelEdge,
    Commit,
    Batch,
    End,
}

/// The keyword that the word is.
pub fn read_keyword(word: &[u8]) -> Option<Keyword>
    ensures { result ≡ keyword_of word.now }
{
    if word == b"+v".as_slice() {
        Some(Keyword::AddVertex)
    } else if word == b"-v".as_slice() {
        Some(Keyword::RemoveVertex)
    } else if word == b"~v".as_slice() {
        Some(Keyword::LabelVertex)
    } else if word == b"+e".as_slice() {
        Some(Keyword::AddEdge)
    } else if word == b"-e".as_slice() {
        Some(Keyword::RemoveEdge)
    } else if word == b"~e".as_slice() {
        Some(Keyword::LabelEdge)
    } else if word == b"commit".as_slice() {
        Some(Keyword::Commit)
    } else if word == b"batch".as_slice() {
        Some(Keyword::Batch)
    } else if word == b"end".as_slice() {
        Some(Keyword::End)
    } else {
        None
    }
}
