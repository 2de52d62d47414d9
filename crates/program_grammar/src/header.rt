ghost use Rattle.std.specs.Prelude.{◌≡◌, codes, map, IfOk, MatchResult};
ghost use Rattle.std.specs.Option.{option_copied};
ghost use Rattle.conditions.specs.meaning.Written.{IsWithinLimits};
ghost use Rattle.line_fields.specs.meaning.Fields.{words_of};
ghost use Rattle.program_grammar.specs.meaning.Header.{awaited_word, condition_after_word, filter_of, header_said, is_first as is_first_of, is_pair as is_pair_of, is_word as is_word_of, mode_said, size_of, value_of};
ghost use Rattle.condition_grammar.specs.calls.Reading.{Parses};
ghost use Rattle.program_grammar.specs.calls.Answers.{AnswersReading, AnswersLine, HasRoom, RefusesAs};

use crate::fault::{ProgramFault, ProgramKind, ReadError};
use crate::labels::intern_all;
use crate::limited::{Filter, Matching, Size};
use condition_grammar::read_condition;
use conditions::Cond;
use filter_polarity::{Program, falling};
use graph_types::Mode;
use line_fields::{Names, is_nothing, read_number, rest, word, words};
use std::alloc::Global;
use std::fmt;

/// The word with which a line of the header begins.
#[derive(Clone, Copy, Debug, PartialEq, Eq)]
pub enum Word {
    /// `mode`
    Mode,
    /// `size`
    Size,
    /// `filter`
    Filter,
    /// `match`
    Match,
    /// `begin`
    Begin,
}

impl fmt::Display for Word {
    fn fmt<W: fmt::Write>(&self, f: &mut fmt::Formatter<W>) -> fmt::Result {
        f.write_str(match self {
            Word::Mode => "mode",
            Word::Size => "size",
            Word::Filter => "filter",
            Word::Match => "match",
            Word::Begin => "begin",
        })
    }
}

/// A header that is being read: which line comes next, and what the lines before it said.
#[derive(Debug, Drop)]
pub enum HeaderReader {
    /// No line was read.
    Mode,
    /// The size comes next.
    Size {
        mode: Mode,
    },
    /// The filter comes next.
    Filter {
        mode: Mode,
        size: Size,
    },
    /// The match condition comes next. The filter keeps the mode.
    Match {
        size: Size,
        filter: Filter,
    },
    /// `begin` comes next.
    Begin {
        size: Size,
        filter: Filter,
        matching: Matching,
    },
}

/// What a line of the header leads to.
#[derive(Debug, Drop)]
pub enum HeaderStep {
    /// The line was accepted, or says nothing, and the header goes on.
    More(HeaderReader),
    /// The line was the last.
    Ready(Program),
}

impl HeaderReader {
    /// A header of which no line was read.
    pub fn new() -> HeaderReader
        ensures { result ≡ HeaderReader.Mode }
    {
        HeaderReader::Mode
    }

    /// The first word that no line has begun with yet.
    pub fn missing(&self) -> Word
        ensures { result ≡ awaited_word self.now }
    {
        match self {
            HeaderReader::Mode => Word::Mode,
            HeaderReader::Size { .. } => Word::Size,
            HeaderReader::Filter { .. } => Word::Filter,
            HeaderReader::Match { .. } => Word::Match,
            HeaderReader::Begin { .. } => Word::Begin,
        }
    }

    /// Takes line `number`, whose LF and CR were dropped. Labels of its condition that the names lack, at
    /// most 512, are put after them in the order in which they stand. A refusal leaves the names as they
    /// were; where memory runs out, the first of the labels may have been put there. Takes time linear in
    /// the line, but for comparisons among its new labels; allocates the condition and those labels.
    ///
    /// The first that holds is told: the form of the line is wrong, or a byte begins no token (`BadLine`);
    /// the size is out of range; there are too many tokens; the first token that offends makes the
    /// condition too deep, or is one after which no condition can be completed (`BadLine`), as the end of
    /// one that ends early; the filter is not falling. It is never `Missing`.
    #[tactic(auto, using(crate::proofs::OfLines::refused_of_line))]
    pub fn take(
        self,
        alloc: Global,
        line: &[u8],
        number: u64,
        names: &mut Names,
    ) -> Result<HeaderStep, ProgramFault>
        requires { HasRoom names.old (header_said self line.now names.old) }
        ensures { AnswersLine number names.old (header_said self line.now names.old) result names.new }
    {
        match self.step(alloc, line, names) {
            Ok(step) => Ok(step),
            Err(ReadError::Refused(kind)) => Err(ProgramFault::Refused { line: number, kind }),
            Err(ReadError::NoMemory) => Err(ProgramFault::NoMemory),
        }
    }

    #[tactic(auto, unfolding(crate::specs::meaning::Header::header_said, crate::specs::meaning::Header::awaited_line_said))]
    fn step(self, alloc: Global, line: &[u8], names: &mut Names) -> Result<HeaderStep, ReadError>
        requires { HasRoom names.old (header_said self line.now names.old) }
        ensures { AnswersReading names.old (header_said self line.now names.old) result names.new }
    {
        if is_nothing(line) {
            return Ok(HeaderStep::More(self));
        }
        match self {
            HeaderReader::Mode => {
                let mode = read_mode(line)?;
                Ok(HeaderStep::More(HeaderReader::Size { mode }))
            }
            HeaderReader::Size { mode } => {
                let size = read_size(line)?;
                Ok(HeaderStep::More(HeaderReader::Filter { mode, size }))
            }
            HeaderReader::Filter { mode, size } => {
                let filter = read_filter(alloc, line, mode, names)?;
                Ok(HeaderStep::More(HeaderReader::Match { size, filter }))
            }
            HeaderReader::Match { size, filter } => {
                let matching = read_matching(alloc, line, names)?;
                Ok(HeaderStep::More(HeaderReader::Begin {
                    size,
                    filter,
                    matching,
                }))
            }
            HeaderReader::Begin {
                size,
                filter,
                matching,
            } => {
                if !is_word(line, b"begin") {
                    return Err(ReadError::Refused(ProgramKind::BadLine));
                }
                Ok(HeaderStep::Ready(program(size, filter, matching)))
            }
        }
    }
}

fn program(size: Size, filter: Filter, matching: Matching) -> Program
    ensures { result ≡ record {
      mode = filter.mode;
      size = size;
      filter = filter.cond;
      matching = matching;
    } }
{
    Program::new(size.members(), filter.into_falling(), matching.into_cond())
}

/// `mode vertex` or `mode edge`.
#[tactic(auto, unfolding(crate::specs::meaning::Header::mode_said))]
fn read_mode(line: &[u8]) -> Result<Mode, ProgramKind>
    ensures { result ≡ mode_said (words_of line.now) }
{
    if is_pair(line, b"mode", b"vertex") {
        Ok(Mode::Vertex)
    } else if is_pair(line, b"mode", b"edge") {
        Ok(Mode::Edge)
    } else {
        Err(ProgramKind::BadLine)
    }
}

/// `size` and a number.
#[tactic(auto, unfolding(crate::specs::meaning::Header::size_of))]
fn read_size(line: &[u8]) -> Result<Size, ProgramKind>
    ensures { result ≡ size_of (words_of line.now) }
{
    let Some(digits) = value(line, b"size") else {
        return Err(ProgramKind::BadLine);
    };
    let Some(number) = read_number(digits, 10) else {
        return Err(ProgramKind::BadLine);
    };
    match Size::of_number(number) {
        Some(size) => Ok(size),
        None => Err(ProgramKind::SizeRange),
    }
}

// The second of two words, of which the first is this one.
fn value<'t>(line: &'t [u8], first: &[u8]) -> Option<&'t [u8]>
    ensures { option_copied result ≡ value_of first.now (words_of line.now) }
{
    if words(line) != 2 || word(line, 0)? != first {
        return None;
    }
    word(line, 1)
}

fn read_filter(
    alloc: Global,
    line: &[u8],
    mode: Mode,
    names: &mut Names,
) -> Result<Filter, ReadError>
    requires { HasRoom names.old (filter_of mode line.now names.old) }
    ensures { AnswersReading names.old (filter_of mode line.now names.old) result names.new }
{
    let (cond, labels) = parse_behind(alloc, b"filter", line, names)?;
    let filter = match falling(cond, mode) {
        Ok(filter) => filter,
        Err(_) => return Err(ReadError::Refused(ProgramKind::NotFalling)),
    };
    intern_all(alloc, names, labels.as_slice())?;
    Ok(Filter::new(filter))
}

fn read_matching(alloc: Global, line: &[u8], names: &mut Names) -> Result<Matching, ReadError>
    requires { HasRoom names.old (condition_after_word (codes "match") line.now names.old) }
    ensures { AnswersReading names.old (condition_after_word (codes "match") line.now names.old) result names.new }
{
    let (cond, labels) = parse_behind(alloc, b"match", line, names)?;
    intern_all(alloc, names, labels.as_slice())?;
    Ok(Matching::new(cond))
}

// The condition after the first word, which has to be this one, and the labels in it that the names lack.
#[tactic(auto, unfolding(crate::specs::meaning::Header::condition_after_word))]
fn parse_behind<'t>(
    alloc: Global,
    first: &[u8],
    line: &'t [u8],
    names: &Names,
) -> Result<(Cond, Vec<&'t [u8]>), ReadError>
    ensures parses { MatchResult result
        (λ p. Parses names.now (condition_after_word first.now line.now names.now) p.0 (map (λ l. l.now) p.1.items))
        (λ e. RefusesAs e (condition_after_word first.now line.now names.now)) }
    ensures within { IfOk result (λ p. IsWithinLimits p.0) }
{
    if !is_first(line, first) {
        return Err(ReadError::Refused(ProgramKind::BadLine));
    }
    let read = read_condition(alloc, rest(line, 1), names)?;
    Ok(read)
}

fn is_first(line: &[u8], text: &[u8]) -> bool
    ensures { result ≡ is_first_of text.now (words_of line.now) }
{
    word(line, 0) == Some(text)
}

fn is_word(line: &[u8], text: &[u8]) -> bool
    ensures { result ≡ is_word_of text.now (words_of line.now) }
{
    words(line) == 1 && word(line, 0) == Some(text)
}

fn is_pair(line: &[u8], first: &[u8], second: &[u8]) -> bool
    ensures { result ≡ is_pair_of first.now second.now (words_of line.now) }
{
    words(line) == 2 && word(line, 0) == Some(first) && word(line, 1) == Some(second)
}
