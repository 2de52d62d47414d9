ghost use Rattle.std.specs.Prelude.{◌≡◌, ◌≤◌, ℕ, List, [], ◌∷◌, ◌++◌, Some, false, IsTrue, IfOk, IfSome, OnOk, OnErr, length, map, slice_get};
ghost use Rattle.std.specs.List.{list_any};
ghost use Rattle.std.specs.Option.{option_copied};
ghost use Rattle.std.specs.Str.{bytes_eq};
ghost use Rattle.line_fields.specs.meaning.Fields.{is_label_word};
ghost use Rattle.line_fields.specs.meaning.Names.{AreNames, first_names, number_in};
ghost use Rattle.line_fields.specs.calls.Interning.{Interns};

use graph_types::{LabelId, NoMemory};
use indexmap::IndexSet;
use std::alloc::Global;
use std::marker::Model;
use thiserror::Error;

/// How many names there can be, `_` among them.
pub const MOST_NAMES: usize = 4_096;

/// The label of what is added without one. It has the number 0.
pub const NO_NAME: &[u8] = b"_";

/// Why a name gets no number.
#[derive(Clone, Copy, Debug, PartialEq, Eq, Error)]
pub enum NameFault {
    /// The name is new, and there is no room for one more.
    #[error("there are as many labels as are allowed")]
    TooManyLabels,
    /// An allocation was refused.
    #[error("out of memory")]
    NoMemory,
}

impl From<NoMemory> for NameFault {
    ghost use Rattle.std.specs.Prelude.{◌≡◌};
    ghost use Rattle.line_fields.specs.declared.names.NameFault.TheVariants as fault;

    ghost from_gives = { λ _ e. e ≡ fault.NoMemory };

    fn from(_error: NoMemory) -> NameFault {
        NameFault::NoMemory
    }
}

/// The names of labels that were seen so far, of which `_` is the first. Contracts see the names in the
/// order in which they came; a name's place among them is its number.
#[derive(Drop)]
pub struct Names {
    names: IndexSet<Vec<u8>>,
}

impl Model for Names {
    ghost use Rattle.std.specs.Prelude.{ℕ, List, map};

    ghost Value = { List (List ℕ) };

    ghost use Rattle.line_fields.specs.meaning.Names.{AreNames};

    ghost view = { λ n. map (λ name. name.items) n.names.keys };

    ghost invariant = { λ n. AreNames (map (λ name. name.items) n.names.keys) };
}

impl Names {
    /// The name `_` alone.
    pub fn new(alloc: Global) -> Result<Names, NoMemory>
        ensures { IfOk result (λ names. names ≡ first_names) }
    {
        let mut names = IndexSet::new(alloc);
        add(&mut names, alloc, NO_NAME)?;
        Ok(Names { names })
    }

    /// The number of a name, in constant time on average: its own where it is known, and else the next one.
    /// Only a new name takes memory. A refusal changes nothing.
    pub fn intern(&mut self, alloc: Global, name: &[u8]) -> Result<LabelId, NameFault>
        requires { IsTrue (is_label_word name.now) }
        ensures interns { Interns self.old name.now result self.new }
        ensures named { IfOk result (λ l. slice_get self.new l ≡ Some name.now) }
    {
        if let Some(place) = self.names.get_index_of(name) {
            return Ok(LabelId(place as u32));
        }
        let place = self.names.len();
        if place >= MOST_NAMES {
            return Err(NameFault::TooManyLabels);
        }
        add(&mut self.names, alloc, name)?;
        Ok(LabelId(place as u32))
    }

    /// The name that has this number, in constant time.
    pub fn name(&self, l: LabelId) -> Option<&[u8]>
        ensures place { option_copied result ≡ slice_get self.now l }
        ensures numbered { IfSome result (λ name. number_in self.now name.now ≡ Some l) }
        ensures in_form { IfSome result (λ name. IsTrue (is_label_word name.now)) }
    {
        let name = self.names.get_index(l.0 as usize)?;
        Some(name.as_slice())
    }

    /// The number of a name that is known, in constant time on average.
    pub fn number(&self, name: &[u8]) -> Option<LabelId>
        ensures { result ≡ number_in self.now name.now }
    {
        let place = self.names.get_index_of(name)?;
        Some(LabelId(place as u32))
    }

    /// How many names there are.
    pub fn count(&self) -> usize
        ensures count { result ≡ length self.now }
        ensures few { result ≤ MOST_NAMES }
        ensures names { AreNames self.now }
    {
        self.names.len()
    }

    /// The number of `_`.
    pub fn no_label(&self) -> LabelId
        ensures { number_in self.now NO_NAME.now ≡ Some result }
    {
        let _names = &self.names;
        LabelId(0)
    }
}

// Puts a new name at the end.
fn add(names: &mut IndexSet<Vec<u8>>, alloc: Global, name: &[u8]) -> Result<(), NoMemory>
    requires { list_any (λ known. bytes_eq name.now known.items) names.old.keys ≡ false }
    ensures added { OnOk result (map (λ known. known.items) names.new.keys ≡ map (λ known. known.items) names.old.keys ++ name.now ∷ []) }
    ensures unchanged { OnErr result (names.new.keys ≡ names.old.keys) }
{
    let name = Vec::from_slice(alloc, name)?;
    names.insert(name)?;
    Ok(())
}
