//! The bits of static nets in control places, and the words without clash.

ghost use Rattle.std.specs.Prelude.{◌≡◌, ◌↔◌, ℕ, ◌<◌, ◌^◌, true, List, length, filter, map, IfOk, MatchResult};
ghost use Rattle.std.specs.List.{AllByRecursion};
ghost use Rattle.net_model.specs.Symbolic.{is_static};
ghost use Rattle.net_model.specs.Control.{control_places};
ghost use Rattle.net_model.specs.Nets.{word_width};
ghost use Rattle.net_model.specs.Transfers.{IsClean};
ghost use Rattle.bit_bdd.specs.Diagrams.{Extends, has_word};
ghost use Rattle.ctl_bdd.specs.Controls.{HasControlCause, IsControl};
ghost use Rattle.ctl_bdd.specs.Places.{static_controls};
ghost use Rattle.ctl_bdd.specs.Tables.{HasControls, sets_at};

use crate::gates::sets_of;
use crate::legal::legal_set;
use crate::places::{flags_at, needed_flags, places_with_flag};
use crate::table::table_of;
use crate::{ControlBits, CtlFault};
use bit_bdd::{Book, SetId};
use net_model::{Checked, Netlist, is_set};
use rec_bits::{Items, NoMemory};
use std::alloc::Global;

// The static nets that stand in control places, place by place.
fn static_places(alloc: Global, checked: &Checked) -> Result<Items<u32>, NoMemory>
    ensures { IfOk result (λ places.
        places ≡ filter (is_static checked.now.netlist) (control_places checked.now.netlist)) }
{
    let statics = checked.static_flags(alloc)?;
    let places = places_with_flag(alloc, checked.netlist(), statics.as_slice())?;
    Ok(places)
}

// A table that has the bits of each of these nets.
fn control_table(
    alloc: Global,
    checked: &Checked,
    places: &[u32],
    book: &mut Book,
) -> Result<Items<Items<SetId>>, NoMemory>
    requires places { places.now ≡ filter (is_static checked.now.netlist) (control_places checked.now.netlist) }
    requires word { book.old.bits ≡ word_width checked.now.netlist }
    ensures grows { Extends book.old book.new }
    ensures table { IfOk result (HasControls checked.now.netlist book.new) }
{
    // what the checked netlist keeps is read here, and below
    let _ = checked.netlist();
    let needed = needed_flags(alloc, checked, places)?;
    let table = table_of(alloc, checked, needed.as_slice(), book)?;
    Ok(table)
}

// The words under which no bus clashes.
fn legal_words(
    alloc: Global,
    checked: &Checked,
    table: &[Items<SetId>],
    book: &mut Book,
) -> Result<SetId, NoMemory>
    requires controls { HasControls checked.now.netlist book.old table.now }
    requires width { book.old.bits ≡ word_width checked.now.netlist }
    ensures grows { Extends book.old book.new }
    ensures within { IfOk result (λ id. id < length book.new.nodes) }
    ensures legal { IfOk result (λ id. (word : ℕ) → word < 2 ^ book.new.bits →
        (has_word book.new id word ≡ true) ↔ IsClean checked.now.netlist word) }
{
    let nets = checked.netlist().nets.as_slice();
    let legal = legal_set(alloc, book, table, nets)?;
    Ok(legal)
}

// The nets in ascending order, each with its sets.
fn listed_bits(
    alloc: Global,
    netlist: &Netlist,
    places: &[u32],
    table: &[Items<SetId>],
) -> Result<Items<(u32, Items<SetId>)>, NoMemory>
    requires few { length netlist.now.nets < 2 ^ 32 }
    requires inside { AllByRecursion (λ n. n < length netlist.now.nets) places.now }
    requires places { places.now ≡ filter (is_static netlist.now) (control_places netlist.now) }
    ensures { IfOk result (λ bits. bits ≡ map (λ (n : ℕ). (n, sets_at table.now n)) (static_controls netlist.now)) }
{
    let flags = flags_at(alloc, netlist.nets.len(), places)?;
    let mut bits = Items::new(alloc);
    for at in 0..netlist.nets.len() {
        let net = at as u32;
        if !is_set(flags.as_slice(), net) {
            continue;
        }
        let sets = Items::from_slice(alloc, sets_of(table, net))?;
        bits.push((net, sets))?;
    }
    Ok(bits)
}

/// The bits of the static nets that stand in control places, as sets of instruction words, and the
/// words under which no bus clashes. The book has as many bits as the code, and is at most
/// extended.
///
/// `AlwaysClash` comes exactly where under each word a bus clashes, and `Memory` is want of memory.
/// No step goes over the words.
pub fn controls(alloc: Global, checked: &Checked, book: &mut Book) -> Result<ControlBits, CtlFault>
    requires { book.old.bits ≡ word_width checked.now.netlist }
    ensures grows { Extends book.old book.new }
    ensures control { MatchResult result (IsControl checked.now.netlist book.new)
        (HasControlCause checked.now.netlist) }
{
    let netlist = checked.netlist();
    let places = static_places(alloc, checked)?;
    let table = control_table(alloc, checked, places.as_slice(), book)?;
    let legal = legal_words(alloc, checked, table.as_slice(), book)?;
    match book.least(legal) {
        None => Err(CtlFault::AlwaysClash),
        Some(_) => {
            let bits = listed_bits(alloc, netlist, places.as_slice(), table.as_slice())?;
            Ok(ControlBits { bits, legal })
        }
    }
}
