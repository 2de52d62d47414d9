ghost use Rattle.std.specs.Prelude.{◌≡◌, OnOk, OnErr};
ghost use Rattle.std.specs.FinMap as map;
ghost use Rattle.std.specs.Map.Iter.{ShowsInOrder};

use crate::near::{self, BOUND};
use crate::walk::Walk;
use std::alloc::{AllocError, Global};
use std::collections::BTreeMap;
use std::marker::Model;

/// The place of each id: of low ids in a table, which nothing searches, and of others in an ordered map.
#[derive(Debug, Drop)]
pub(crate) struct Places {
    near: Vec<u32>,
    far: BTreeMap<u32, u32>,
}

impl Model for Places {
    ghost use Rattle.std.specs.Prelude.{ℕ};
    ghost use Rattle.std.specs.Coded.{coded_ℕ};
    ghost use Rattle.std.specs.FinMap as map;
    ghost use Rattle.std.specs.Ordering.{nat_cmp};
    ghost use Rattle.id_map.specs.storage.Places.{IsSplit, all_places};

    ghost Value = { map.FinMap nat_cmp ℕ };

    ghost coded = { map.code coded_ℕ coded_ℕ };

    ghost view = { λ p. all_places p.near.items p.far.entries };

    ghost invariant = { λ p. IsSplit p.near.items p.far.entries };
}

impl Places {
    pub fn new(alloc: Global) -> Places
        ensures { result ≡ map.empty }
    {
        Places {
            near: Vec::new(alloc),
            far: BTreeMap::new(alloc),
        }
    }

    /// The place of an id.
    pub fn get(&self, id: u32) -> Option<usize>
        ensures { result ≡ map.get self.now id }
    {
        let at = id as usize;
        if at < self.near.len() {
            near::told(self.near[at])
        } else {
            let place = self.far.get(&id)?;
            Some(*place as usize)
        }
    }

    /// Gives an id a place, which has to be below 2³² - 1: a higher one counts as out of memory.
    pub fn put(&mut self, id: u32, place: usize) -> Result<(), AllocError>
        ensures ok { OnOk result (self.new ≡ map.insert self.old id place) }
        ensures err { OnErr result (self.new ≡ self.old) }
    {
        if place >= u32::MAX as usize {
            return Err(AllocError);
        }
        let place = place as u32;
        if (id as usize) < BOUND {
            near::put(&mut self.near, id as usize, place + 1)?;
        } else {
            self.far.insert(id, place)?;
        }
        Ok(())
    }

    /// Takes the place of an id out.
    pub fn take(&mut self, id: u32) -> Option<usize>
        ensures taken { result ≡ map.get self.old id }
        ensures rest { self.new ≡ map.remove self.old id }
    {
        let at = id as usize;
        if at < self.near.len() {
            let entry = self.near[at];
            self.near[at] = 0;
            near::told(entry)
        } else {
            let place = self.far.remove(&id)?;
            Some(place as usize)
        }
    }

    /// The ids, ascending, each with its place.
    pub fn iter(&self) -> Walk<'_>
        ensures { result ≡ map.entries self.now }
    {
        Walk::of(&self.near, &self.far)
    }
}
