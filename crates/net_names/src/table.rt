//! A table from names to the places where they stand first.

ghost use Rattle.std.specs.Prelude.{◌≡◌, OnErr, OnOk, option_copied};
ghost use Rattle.std.specs.Map.{lookup};
ghost use Rattle.rec_bits.specs.Faults.{same_name};
ghost use Rattle.net_names.specs.Places.{Enters, item_at};

use indexmap::IndexMap;
use rec_bits::{Name, NoMemory};
use std::alloc::Global;
use std::marker::Model;

/// Names with their places. Contracts see it as the list of the pairs.
#[derive(Drop)]
pub struct SymbolTable<'a> {
    first: IndexMap<&'a [u8], usize>,
}

impl<'a> Model for SymbolTable<'a> {
    ghost use Rattle.std.specs.Prelude.{ℕ, List};
    ghost use Rattle.net_names.specs.Places.{name_pairs};

    ghost Value = { List (List ℕ × ℕ) };

    ghost view = { λ table. name_pairs table.first.entries };
}

impl<'a> SymbolTable<'a> {
    ghost use Rattle.std.specs.Prelude.{[]};

    /// The table without names.
    pub fn new(alloc: Global) -> SymbolTable<'a>
        ensures { result ≡ [] }
    {
        SymbolTable {
            first: IndexMap::new(alloc),
        }
    }

    /// The place of a name, if it has one.
    pub fn place(&self, name: &Name) -> Option<usize>
        ensures { result ≡ lookup (same_name name.now) self.now }
    {
        self.first.get(name.as_slice()).copied()
    }

    /// Gives a name a place, if it has none yet. Where memory runs out the table stays as it was.
    pub fn enter(&mut self, name: &'a Name, place: usize) -> Result<(), NoMemory>
        ensures entered { OnOk result (Enters self.old self.new name.now place) }
        ensures refused { OnErr result (self.new ≡ self.old) }
    {
        if self.place(name).is_none() {
            self.first.insert(name.as_slice(), place)?;
        }
        Ok(())
    }
}

/// The item at a place, if there is a place and it is within the list.
pub(crate) fn item_at<T>(items: &[T], place: Option<usize>) -> Option<&T>
    ensures { option_copied result ≡ item_at items.now place }
{
    match place {
        Some(place) => items.get(place),
        None => None,
    }
}
