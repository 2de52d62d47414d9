ghost use Rattle.std.specs.Prelude.{◌≡◌, ◌∷◌, [], IsTrue, MatchOption, MatchResult, Some, SomeIff, position};
ghost use Rattle.std.specs.List.{slice_split};
ghost use Rattle.graph_types.specs.meaning.Piece.{CanJoin, with_joined, member_lt, mode_of};
ghost use Rattle.line_fields.specs.meaning.Fields.{words_of, is_blank, is_dash};
ghost use Rattle.record_text.specs.meaning.Grammar.{count_said, edge_said, head_said, member_of, piece_said, record_of, record_said, stamped_said};

use graph_types::{Edge, Member, Mode, Piece, Stamp};
use line_fields::{is_nothing, read_id, read_number, trim_start};
use thiserror::Error;

/// What a line of a text of records says.
#[derive(Clone, Copy, Debug, PartialEq, Eq)]
pub enum RecordLine {
    /// The line is blank or a comment.
    Nothing,
    /// The text is in format 2.
    Head,
    /// The piece went at this timestamp.
    Rem { stamp: Stamp, piece: Piece },
    /// The piece came at this timestamp.
    Add { stamp: Stamp, piece: Piece },
    /// The records of this timestamp are complete. In format 2 the line says how many pieces are there.
    Done { stamp: Stamp, count: Option<u64> },
}

/// The line is in none of the forms of a record.
#[derive(Clone, Copy, Debug, PartialEq, Eq, Error)]
#[error("the line is no record")]
pub struct BadRecord;

/// The most digits of a timestamp or a count.
const STAMP_DIGITS: usize = 20;

/// Reads a line whose CR was dropped, in time linear in its bytes. Takes no memory.
pub fn read_record(line: &[u8]) -> Result<RecordLine, BadRecord>
    ensures { MatchResult result
        (λ said. record_of line.now ≡ Some said)
        (λ _. record_of line.now ≡ None) }
{
    if is_nothing(line) {
        return Ok(RecordLine::Nothing);
    }
    read_words(line).ok_or(BadRecord)
}

/// Reads a line that has a word and is no comment.
fn read_words(line: &[u8]) -> Option<RecordLine>
    ensures { result ≡ record_said (words_of line.now) }
{
    let (kind, behind) = split_word(line)?;
    let (number, rest) = split_word(behind)?;
    if kind == b"records".as_slice() {
        return read_head(number, rest);
    }
    let stamp = Stamp(read_number(number, STAMP_DIGITS)?);
    read_stamped(kind, stamp, rest)
}

/// Reads what stands after `records`.
fn read_head(number: &[u8], rest: &[u8]) -> Option<RecordLine>
    ensures { result ≡ head_said number.now (words_of rest.now) }
{
    match split_word(rest) {
        None if number == b"2".as_slice() => Some(RecordLine::Head),
        _ => None,
    }
}

/// Reads what stands after a word and a timestamp.
fn read_stamped(kind: &[u8], stamp: Stamp, rest: &[u8]) -> Option<RecordLine>
    ensures { result ≡ stamped_said kind.now stamp (words_of rest.now) }
{
    if kind == b"DONE".as_slice() {
        let count = read_count(rest)?;
        return Some(RecordLine::Done { stamp, count });
    }
    if kind == b"REM".as_slice() {
        let piece = read_piece(rest)?;
        return Some(RecordLine::Rem { stamp, piece });
    }
    if kind == b"NEW".as_slice() {
        let piece = read_piece(rest)?;
        return Some(RecordLine::Add { stamp, piece });
    }
    None
}

/// Reads the count that may end a line.
fn read_count(line: &[u8]) -> Option<Option<u64>>
    ensures { result ≡ count_said (words_of line.now) }
{
    let Some((number, rest)) = split_word(line) else {
        return Some(None);
    };
    match split_word(rest) {
        None => read_number(number, STAMP_DIGITS).map(Some),
        Some(_) => None,
    }
}

/// Reads members that make a piece. It stops at the first word that belongs to none.
fn read_piece(line: &[u8]) -> Option<Piece>
    ensures { result ≡ piece_said (words_of line.now) }
{
    let (first, mut behind) = split_word(line)?;
    let mut last = read_member(first)?;
    let mut piece = piece_of(last)?;
    while let Some((word, rest)) = split_word(behind) {
        let member = read_member(word)?;
        piece = with_next(&piece, &last, &member)?;
        last = member;
        behind = rest;
    }
    Some(piece)
}

/// The piece of one member.
fn piece_of(member: Member) -> Option<Piece>
    ensures { result ≡ Some (record { mode = mode_of member; members = member ∷ [] }) }
{
    let mode = match member {
        Member::Vertex(_) => Mode::Vertex,
        Member::Edge(_) => Mode::Edge,
    };
    Piece::empty(mode).with(member)
}

/// The piece with a member above its last one.
fn with_next(piece: &Piece, last: &Member, member: &Member) -> Option<Piece>
    ensures { SomeIff result (IsTrue (member_lt last.now member.now) × CanJoin piece.now member.now)
        (with_joined piece.now member.now) }
{
    if *last < *member {
        piece.with(*member)
    } else {
        None
    }
}

/// Reads `ID`, or `ID-ID` with the first below the second.
fn read_member(word: &[u8]) -> Option<Member>
    ensures { result ≡ member_of word.now }
{
    if let Some(id) = read_id(word) {
        return Some(Member::Vertex(id));
    }
    let (low, high) = split_at_dash(word)?;
    read_edge(low, high)
}

/// The edge whose ends these words say, the lower one first.
fn read_edge(low: &[u8], high: &[u8]) -> Option<Member>
    ensures { result ≡ edge_said low.now high.now }
{
    let low = read_id(low)?;
    let high = read_id(high)?;
    if low < high {
        Edge::of(low, high).map(Member::Edge)
    } else {
        None
    }
}

/// What stands before the first dash of a word, and after it.
fn split_at_dash(word: &[u8]) -> Option<(&[u8], &[u8])>
    ensures { MatchOption result
        (slice_split is_dash word.now ≡ word.now ∷ [])
        (λ parts. slice_split is_dash word.now ≡ parts.0.now ∷ slice_split is_dash parts.1.now) }
{
    let dash = dash_place(word)?;
    Some((&word[..dash], &word[dash + 1..]))
}

fn dash_place(word: &[u8]) -> Option<usize>
    ensures { result ≡ position is_dash word.now }
{
    word.iter().position(|b| *b == b'-')
}

/// The first word of a line, and what stands after it.
fn split_word(line: &[u8]) -> Option<(&[u8], &[u8])>
    ensures { MatchOption result
        (words_of line.now ≡ [])
        (λ parts. words_of line.now ≡ parts.0.now ∷ words_of parts.1.now) }
{
    let line = trim_start(line);
    if line.is_empty() {
        return None;
    }
    match blank_place(line) {
        None => Some((line, &[])),
        Some(blank) => Some((&line[..blank], &line[blank + 1..])),
    }
}

fn blank_place(line: &[u8]) -> Option<usize>
    ensures { result ≡ position is_blank line.now }
{
    line.iter().position(|b| *b == b' ' || *b == b'\t')
}
