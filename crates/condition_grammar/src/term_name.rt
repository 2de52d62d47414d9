ghost use Rattle.std.specs.Prelude.{◌≡◌};
ghost use Rattle.condition_grammar.specs.meaning.Grammar.{term_name};

/// The word with which a term begins.
#[derive(Clone, Copy, Debug, PartialEq, Eq)]
pub(crate) enum TermName {
    Vertices,
    Edges,
    Joins,
    Kinds,
    Degree,
    Missing,
    Least,
}

/// The name that a word is.
pub(crate) fn read_term_name(word: &[u8]) -> Option<TermName>
    ensures { result ≡ term_name word.now }
{
    if word == b"vertices".as_slice() {
        Some(TermName::Vertices)
    } else if word == b"edges".as_slice() {
        Some(TermName::Edges)
    } else if word == b"joins".as_slice() {
        Some(TermName::Joins)
    } else if word == b"kinds".as_slice() {
        Some(TermName::Kinds)
    } else if word == b"degree".as_slice() {
        Some(TermName::Degree)
    } else if word == b"missing".as_slice() {
        Some(TermName::Missing)
    } else if word == b"least".as_slice() {
        Some(TermName::Least)
    } else {
        None
    }
}
