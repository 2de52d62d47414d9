//! Update lines: what each says.
#![tactic(auto)]

ghost use Rattle.std.specs.Prelude.{◌≡◌, ◌<◌, ℕ, List, [], ◌∷◌, Some, length, slice_get};
ghost use Rattle.line_fields.specs.meaning.Fields.{words_of};
ghost use Rattle.update_reader.specs.meaning.Grammar.{form_with, ids_of};
ghost use Rattle.update_reader.specs.calls.Reading.{ReadsLine, ReadsForm, ReadsLabel, ReadsVertex, ReadsEdge};

mod keyword;

use graph_types::{LabelId, Update, VertexId};
use keyword::{Keyword, read_keyword};
use line_fields::{NO_NAME, is_label, is_nothing, read_id, word, words};
pub use line_fields::{NameFault, Names};
use std::alloc::Global;
use thiserror::Error;

/// What a line says.
#[derive(Clone, Copy, Debug, PartialEq, Eq)]
pub enum Item {
    /// The line is blank or a comment.
    Nothing,
    Update(Update),
    /// The updates so far are to be mined together.
    Commit,
    /// The updates from here on share a timestamp,
    BatchBegin,
    /// until here.
    BatchEnd,
}

/// Why a line says nothing that counts.
#[derive(Clone, Copy, Debug, PartialEq, Eq, Error)]
pub enum UpdateFault {
    /// The line is in none of the forms.
    #[error("the line is no update")]
    BadLine,
    /// The label of the update is new, and there is no room for its name.
    #[error("there are as many labels as are allowed")]
    TooManyLabels,
    /// An allocation was refused.
    #[error("out of memory")]
    NoMemory,
}

/// Reads a line whose CR was dropped, in at most seven passes over its bytes. The label of an update gets
/// its number once the whole line is found to be in form, and takes memory only where its name is new. A
/// refused line leaves the names as they were.
pub fn read_line(alloc: Global, line: &[u8], names: &mut Names) -> Result<Item, UpdateFault>
    ensures { ReadsLine names.old line.now result names.new }
{
    if is_nothing(line) {
        return Ok(Item::Nothing);
    }
    let Some(first) = word(line, 0) else {
        return Err(UpdateFault::BadLine);
    };
    let Some(keyword) = read_keyword(first) else {
        return Err(UpdateFault::BadLine);
    };
    match words(line) {
        1 => read_alone(keyword),
        2 => read_two(alloc, keyword, word_at(line, 1), names),
        3 => read_three(alloc, keyword, word_at(line, 1), word_at(line, 2), names),
        4 => read_four(
            alloc,
            keyword,
            word_at(line, 1),
            word_at(line, 2),
            word_at(line, 3),
            names,
        ),
        _ => Err(UpdateFault::BadLine),
    }
}

fn word_at(line: &[u8], i: usize) -> &[u8]
    requires { i < length (words_of line.now) }
    ensures { slice_get (words_of line.now) i ≡ Some result.now }
{
    word(line, i).unwrap()
}

// `commit`, `batch`, `end`
fn read_alone(keyword: Keyword) -> Result<Item, UpdateFault>
    ensures { (names : List (List ℕ)) → ReadsForm names (form_with keyword []) result names }
{
    match keyword {
        Keyword::Commit => Ok(Item::Commit),
        Keyword::Batch => Ok(Item::BatchBegin),
        Keyword::End => Ok(Item::BatchEnd),
        _ => Err(UpdateFault::BadLine),
    }
}

// `+v ID`, `-v ID`
fn read_two(
    alloc: Global,
    keyword: Keyword,
    id: &[u8],
    names: &mut Names,
) -> Result<Item, UpdateFault>
    ensures { ReadsForm names.old (form_with keyword (id.now ∷ [])) result names.new }
{
    match keyword {
        Keyword::AddVertex => {
            let (id, label) = read_vertex(alloc, id, NO_NAME, names)?;
            Ok(Item::Update(Update::AddVertex { id, label }))
        }
        Keyword::RemoveVertex => {
            let id = read_id(id).ok_or(UpdateFault::BadLine)?;
            Ok(Item::Update(Update::RemoveVertex { id }))
        }
        _ => Err(UpdateFault::BadLine),
    }
}

// `+v ID LABEL`, `~v ID LABEL`, `+e ID ID`, `-e ID ID`
fn read_three(
    alloc: Global,
    keyword: Keyword,
    first: &[u8],
    second: &[u8],
    names: &mut Names,
) -> Result<Item, UpdateFault>
    ensures { ReadsForm names.old (form_with keyword (first.now ∷ second.now ∷ [])) result names.new }
{
    match keyword {
        Keyword::AddVertex => {
            let (id, label) = read_vertex(alloc, first, second, names)?;
            Ok(Item::Update(Update::AddVertex { id, label }))
        }
        Keyword::LabelVertex => {
            let (id, label) = read_vertex(alloc, first, second, names)?;
            Ok(Item::Update(Update::LabelVertex { id, label }))
        }
        Keyword::AddEdge => {
            let (from, to, label) = read_edge(alloc, first, second, NO_NAME, names)?;
            Ok(Item::Update(Update::AddEdge { from, to, label }))
        }
        Keyword::RemoveEdge => {
            let (from, to) = read_ids(first, second).ok_or(UpdateFault::BadLine)?;
            Ok(Item::Update(Update::RemoveEdge { from, to }))
        }
        _ => Err(UpdateFault::BadLine),
    }
}

// `+e ID ID LABEL`, `~e ID ID LABEL`
fn read_four(
    alloc: Global,
    keyword: Keyword,
    from: &[u8],
    to: &[u8],
    label: &[u8],
    names: &mut Names,
) -> Result<Item, UpdateFault>
    ensures { ReadsForm names.old (form_with keyword (from.now ∷ to.now ∷ label.now ∷ [])) result names.new }
{
    match keyword {
        Keyword::AddEdge => {
            let (from, to, label) = read_edge(alloc, from, to, label, names)?;
            Ok(Item::Update(Update::AddEdge { from, to, label }))
        }
        Keyword::LabelEdge => {
            let (from, to, label) = read_edge(alloc, from, to, label, names)?;
            Ok(Item::Update(Update::LabelEdge { from, to, label }))
        }
        _ => Err(UpdateFault::BadLine),
    }
}

fn read_vertex(
    alloc: Global,
    id: &[u8],
    label: &[u8],
    names: &mut Names,
) -> Result<(VertexId, LabelId), UpdateFault>
    ensures { ReadsVertex names.old id.now label.now result names.new }
{
    let id = read_id(id).ok_or(UpdateFault::BadLine)?;
    let label = read_label(alloc, label, names)?;
    Ok((id, label))
}

fn read_edge(
    alloc: Global,
    from: &[u8],
    to: &[u8],
    label: &[u8],
    names: &mut Names,
) -> Result<(VertexId, VertexId, LabelId), UpdateFault>
    ensures { ReadsEdge names.old from.now to.now label.now result names.new }
{
    let (from, to) = read_ids(from, to).ok_or(UpdateFault::BadLine)?;
    let label = read_label(alloc, label, names)?;
    Ok((from, to, label))
}

fn read_ids(from: &[u8], to: &[u8]) -> Option<(VertexId, VertexId)>
    ensures { result ≡ ids_of from.now to.now }
{
    let from = read_id(from)?;
    let to = read_id(to)?;
    Some((from, to))
}

// The number of a label. That of `_`, which most updates have, is not looked up.
fn read_label(alloc: Global, label: &[u8], names: &mut Names) -> Result<LabelId, UpdateFault>
    ensures { ReadsLabel names.old label.now result names.new }
{
    if label == NO_NAME {
        return Ok(names.no_label());
    }
    if !is_label(label) {
        return Err(UpdateFault::BadLine);
    }
    match names.intern(alloc, label) {
        Ok(label) => Ok(label),
        Err(NameFault::TooManyLabels) => Err(UpdateFault::TooManyLabels),
        Err(NameFault::NoMemory) => Err(UpdateFault::NoMemory),
    }
}
