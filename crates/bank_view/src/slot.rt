//! What the nets of a view are there for, in their places.

ghost use Rattle.std.specs.Prelude.{◌≡◌, ◌<◌, ◌^◌, IfOk, length};
ghost use Rattle.bank_view.specs.Views.{insert_slot, kept_from, slot_at, slots_of};

use crate::ports::{bank_port, memory_port};
use net_model::{Net, Netlist};
use rec_bits::{Items, NoMemory};
use std::alloc::Global;

/// What nets of a view are there for.
#[derive(Clone, Copy)]
pub(crate) enum Slot {
    /// The net of this number, made for the name at this offset.
    Kept(u32, u64),
    /// The write of the memory.
    MemoryWrite,
    /// The write of the bank.
    BankWrite,
}

// The offset of the item's name.
fn offset(netlist: &Netlist, slot: Slot) -> u64
    ensures { result ≡ slot_at netlist.now slot }
{
    match slot {
        Slot::Kept(_, name_at) => name_at,
        Slot::MemoryWrite => memory_port(netlist).name_at,
        Slot::BankWrite => bank_port(netlist).name_at,
    }
}

// The nets of the netlist in their order.
fn kept(alloc: Global, nets: &[Net]) -> Result<Items<Slot>, NoMemory>
    requires { length nets.now < 2 ^ 32 }
    ensures { IfOk result (λ slots. slots ≡ kept_from 0 nets.now) }
{
    let mut slots = Items::new(alloc);
    let mut number = 0;
    for net in nets {
        slots.push(Slot::Kept(number, net.name_at))?;
        number += 1;
    }
    Ok(slots)
}

// The slots with one more, behind those of its own item and of those before it.
fn inserted(
    alloc: Global,
    netlist: &Netlist,
    slot: Slot,
    slots: &[Slot],
) -> Result<Items<Slot>, NoMemory>
    ensures { IfOk result (λ more. more ≡ insert_slot netlist.now slot slots.now) }
{
    let at = offset(netlist, slot);
    let mut more = Items::new(alloc);
    let mut waits = true;
    for other in slots {
        if waits && at < offset(netlist, *other) {
            more.push(slot)?;
            waits = false;
        }
        more.push(*other)?;
    }
    if waits {
        more.push(slot)?;
    }
    Ok(more)
}

/// What the nets of the view are there for, one after the other.
pub(crate) fn slots(alloc: Global, netlist: &Netlist) -> Result<Items<Slot>, NoMemory>
    requires { length netlist.now.nets < 2 ^ 32 }
    ensures { IfOk result (λ slots. slots ≡ slots_of netlist.now) }
{
    let kept = kept(alloc, netlist.nets.as_slice())?;
    let with_bank = inserted(alloc, netlist, Slot::BankWrite, kept.as_slice())?;
    let slots = inserted(alloc, netlist, Slot::MemoryWrite, with_bank.as_slice())?;
    Ok(slots)
}
