//! The bits of each net that control needs, one net after the other in their order.

ghost use Rattle.std.specs.Prelude.{◌≡◌, ℕ, ◌<◌, ◌∷◌, [], replicate, true, length, IfOk};
ghost use Rattle.net_model.specs.CheckedRules.{is_control};
ghost use Rattle.net_model.specs.Nets.{word_width};
ghost use Rattle.bit_bdd.specs.Diagrams.{Extends};
ghost use Rattle.net_model.specs.Flags.{flag_at};
ghost use Rattle.ctl_bdd.specs.Inner.Flags.{IsClosed};
ghost use Rattle.ctl_bdd.specs.Tables.{AreBits, IsBitTable, sets_at};

use crate::gates::gate_bits;
use bit_bdd::{Book, SetId};
use net_model::{Checked, is_set};
use rec_bits::{Items, NoMemory};
use std::alloc::Global;

// No sets yet for each of so many nets.
fn new_table(alloc: Global, nets: usize) -> Result<Items<Items<SetId>>, NoMemory>
    ensures { IfOk result (λ table. table ≡ replicate nets []) }
{
    let mut table = Items::new(alloc);
    for _ in 0..nets {
        table.push(Items::new(alloc))?;
    }
    Ok(table)
}

// The bits of each net that has its flag set.
pub(crate) fn table_of(
    alloc: Global,
    checked: &Checked,
    needed: &[bool],
    book: &mut Book,
) -> Result<Items<Items<SetId>>, NoMemory>
    requires closed { IsClosed checked.now.netlist needed.now }
    requires word { book.old.bits ≡ word_width checked.now.netlist }
    ensures grows { Extends book.old book.new }
    ensures table { IfOk result (IsBitTable book.new) }
    ensures bits { IfOk result (λ table. (n : ℕ) → n < length checked.now.netlist.nets → flag_at needed.now n ≡ true →
        AreBits checked.now.netlist book.new n (sets_at table n)) }
{
    let netlist = checked.netlist();
    let nets = netlist.nets.as_slice();
    let mut table = new_table(alloc, nets.len())?;
    for id in checked.order().as_slice() {
        if !is_set(needed, *id) {
            continue;
        }
        let at = *id as usize;
        let bits = gate_bits(alloc, netlist, book, table.as_slice(), &nets[at])?;
        table.set(at, bits);
    }
    Ok(table)
}
