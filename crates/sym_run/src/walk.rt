//! Words from one mark to the next.

ghost use Rattle.std.specs.Prelude.{◌≡◌, length, option_copied, slice_get, IfOk, IfSome};
ghost use Rattle.sym_run.specs.Walks.{AreAllWithin, Arrives, Crosses, IfArrives, IsNextAddress, Turns, is_mark};
ghost use Rattle.tree_laws.specs.Classes.{Grows};

use crate::eval::Step;
use crate::known::Known;
use crate::moves::{Move, held};
use class_values::{Fact, number_of};
use rec_bits::{Items, NoMemory};
use std::alloc::Global;
use sym_expr::Pool;
use tree_laws::Classes;

/// An instruction word, with what it does to each storage.
#[derive(Drop)]
pub struct Coded {
    pub word: u64,
    pub moves: Items<Move>,
}

/// A marked address, with what is known of the state there, and how many of the clocks that the
/// words could take are left.
#[derive(Drop)]
pub struct Arrival {
    pub address: u64,
    pub known: Known,
    pub left: u64,
}

/// Where words lead.
#[derive(Drop)]
pub enum Walked {
    Arrives(Arrival),
    /// What the word at this address does isn't known, or which word comes behind it.
    Lost(u64),
    /// To no mark within the clocks.
    Late,
}

/// The words of an image with their marked addresses, and the facts that hold in a segment. The
/// program counter, the memory and the register file are the storages of these numbers.
#[derive(Clone, Copy)]
pub struct Image<'a> {
    pub pool: &'a Pool,
    pub facts: &'a [Fact],
    pub code: &'a [Coded],
    pub marks: &'a [u64],
    pub counter: u64,
    pub memory: u64,
    pub file: u64,
}

impl Image<'_> {
    // Whether an address is marked.
    fn is_marked(&self, address: u64) -> bool
        ensures { result ≡ is_mark self.now.marks.now address }
    {
        self.marks.contains(&address)
    }

    // The address of the word that comes next.
    fn address(&self, table: &Classes, known: &Known) -> Option<u64>
        ensures { IfSome result (IsNextAddress table.now self.now.facts.now known.now self.now.counter) }
    {
        let class = held(known, self.counter)?;
        number_of(table, self.facts, class)
    }

    // The word at an address.
    fn coded(&self, address: u64) -> Option<&Coded>
        ensures { option_copied result ≡ slice_get self.now.code.now address }
    {
        self.code.get(address as usize)
    }

    // What is known behind the word at an address, which comes next.
    fn turn(
        &self,
        alloc: Global,
        table: &mut Classes,
        known: &Known,
        address: u64,
    ) -> Result<Option<Known>, NoMemory>
        requires code { AreAllWithin (length self.now.pool.now) self.now.code.now }
        requires here { IsNextAddress table.old self.now.facts.now known.now self.now.counter address }
        ensures grows { Grows table.old table.new }
        ensures turns { IfOk result (λ found. IfSome found (Turns table.old table.new self.now known.now)) }
    {
        let Some(coded) = self.coded(address) else {
            return Ok(None);
        };
        let step = Step {
            pool: self.pool,
            facts: self.facts,
            known,
            word: coded.word,
        };
        step.next(alloc, table, coded.moves.as_slice(), self.memory, self.file)
    }

    /// Follows words to a marked address, which may be the first one: at most so many, behind the word
    /// at an address.
    pub fn walk(
        &self,
        alloc: Global,
        table: &mut Classes,
        known: Known,
        clocks: u64,
        behind: u64,
    ) -> Result<Walked, NoMemory>
        requires { AreAllWithin (length self.now.pool.now) self.now.code.now }
        ensures grows { Grows table.old table.new }
        ensures arrives { IfOk result (λ found. IfArrives found (Arrives table.old table.new self.now known clocks)) }
    {
        let Some(address) = self.address(table, &known) else {
            return Ok(Walked::Lost(behind));
        };
        if self.is_marked(address) {
            return Ok(Walked::Arrives(Arrival {
                address,
                known,
                left: clocks,
            }));
        }
        if clocks == 0 {
            return Ok(Walked::Late);
        }
        let Some(next) = self.turn(alloc, table, &known, address)? else {
            return Ok(Walked::Lost(address));
        };
        self.walk(alloc, table, next, clocks - 1, address)
    }

    /// Follows the word at the mark of an address, and then at most so many to the next marked address.
    pub fn cross(
        &self,
        alloc: Global,
        table: &mut Classes,
        known: &Known,
        clocks: u64,
        from: u64,
    ) -> Result<Walked, NoMemory>
        requires { AreAllWithin (length self.now.pool.now) self.now.code.now }
        ensures grows { Grows table.old table.new }
        ensures crosses { IfOk result (λ found. IfArrives found (Crosses table.old table.new self.now known.now clocks)) }
    {
        let Some(address) = self.address(table, known) else {
            return Ok(Walked::Lost(from));
        };
        let Some(next) = self.turn(alloc, table, known, address)? else {
            return Ok(Walked::Lost(address));
        };
        self.walk(alloc, table, next, clocks, address)
    }
}
