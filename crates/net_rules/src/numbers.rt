//! Numbers that are all different.

ghost use Rattle.std.specs.Prelude.{◌≡◌, ◌++◌, IfOk, OnOk, [], length, nat_eq, not, true};
ghost use Rattle.std.specs.List.{list_any};
ghost use Rattle.indexmap.specs.IndexSet.{insert_key};
ghost use Rattle.net_model.specs.DriverRules.{are_new};

use indexmap::IndexSet;
use rec_bits::NoMemory;
use std::alloc::Global;
use std::marker::Model;

/// Numbers, each of which is there once. Contracts see the list of them in the order of coming.
#[derive(Drop)]
pub(crate) struct Numbers {
    seen: IndexSet<u64>,
}

impl Model for Numbers {
    ghost use Rattle.std.specs.Prelude.{ℕ, List};

    ghost Value = { List ℕ };

    ghost view = { λ numbers. numbers.seen.keys };
}

impl Numbers {
    /// No number.
    pub(crate) fn new(alloc: Global) -> Numbers
        ensures { result ≡ [] }
    {
        Numbers {
            seen: IndexSet::new(alloc),
        }
    }

    /// How many numbers there are.
    pub(crate) fn len(&self) -> usize
        ensures { result ≡ length self.now }
    {
        self.seen.len()
    }

    /// Adds a number, and says whether it is new.
    fn add(&mut self, n: u64) -> Result<bool, NoMemory>
        ensures new { IfOk result (λ new. new ≡ not (list_any (nat_eq n) self.old)) }
        ensures all { OnOk result (self.new ≡ insert_key nat_eq self.old n) }
    {
        Ok(self.seen.insert(n)?)
    }
}

/// Adds numbers until one is there already, and says whether all are new.
pub(crate) fn add_all(seen: &mut Numbers, numbers: &[u64]) -> Result<bool, NoMemory>
    ensures new { IfOk result (λ new. new ≡ are_new seen.old numbers.now) }
    ensures all { IfOk result (λ new. new ≡ true → seen.new ≡ seen.old ++ numbers.now) }
{
    for n in numbers {
        if !seen.add(*n)? {
            return Ok(false);
        }
    }
    Ok(true)
}
