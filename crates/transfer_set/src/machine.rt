//! A netlist with its patterns.

ghost use Rattle.std.specs.Prelude.{IfOk};
ghost use Rattle.transfer_set.specs.Machines.{IsReadyFor, machine_netlist, machine_patterns};
ghost use Rattle.transfer_set.specs.PatternsText.{IsPatternsText};

use crate::patterns::Patterns;
use crate::print::text;
use bit_bdd::Book;
use net_model::Checked;
use rec_bits::NoMemory;
use std::alloc::Global;
use sym_expr::Pool;

/// A netlist that code is made for, with its patterns, whose expressions are of the pool. Their
/// sets are those of a book beside it, which grows.
#[derive(Clone, Copy)]
pub struct Machine<'a> {
    pub checked: &'a Checked,
    pub pool: &'a Pool,
    pub patterns: &'a Patterns,
}

impl Machine<'_> {
    /// The text of the patterns: how many there are, and for each a line with its number, its
    /// transfer, and the least word that gives it. Want of memory is the only refusal.
    pub fn print(&self, alloc: Global, book: &Book) -> Result<Vec<u8>, NoMemory>
        requires { IsReadyFor self.now book.now }
        ensures { IfOk result (λ text.
            IsPatternsText (machine_netlist self.now) (machine_patterns self.now) text.items) }
    {
        text(alloc, self.checked, book, self.patterns.rows())
    }
}
