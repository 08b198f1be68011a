//! What feeds the storages of a netlist.

ghost use Rattle.std.specs.Prelude.{◌≡◌, ℕ, ◌^◌, ◌==◌, ◌<◌, ◌&&◌, ◌++◌, length, Contains, IfOk, OnOk};
ghost use Rattle.std.specs.List.{AllByRecursion};
ghost use Rattle.bit_bdd.specs.Diagrams.{Extends, has_word};
ghost use Rattle.net_model.specs.Patterns.{IsPattern, Pattern};
ghost use Rattle.net_model.specs.Transfers.{transfer_at};
ghost use Rattle.net_model.specs.Nets.{word_width};
ghost use Rattle.transfer_set.specs.Routes.{routes_at};
ghost use Rattle.transfer_set.specs.Inner.Entries.{HaveWords, AreKnown, AreWhole, list_if, transfers_under, patterns_of};
ghost use Rattle.transfer_set.specs.Inner.Sources.{HasSet, IsArrayAt, IsSource, changes, when_set as set_of_when};

use crate::entries::{Entry, Sink, add_memory, add_register};
use crate::route::{Route, Routes};
use bit_bdd::{Book, SetId};
use ctl_bdd::ControlBits;
use net_model::{Cells, Checked, Storage};
use rec_bits::{Items, NoMemory};
use std::alloc::Global;
use sym_expr::Pool;

// The routes of a net, of which there are none past the last.
fn routes_of(routes: &Routes, net: u32) -> &[Route]
    ensures { result.now ≡ routes_at routes.now.of net }
{
    match routes.of.get(net as usize) {
        Some(list) => list.as_slice(),
        None => &[],
    }
}

// The words under which a storage is on.
fn when_set(controls: &ControlBits, when: Option<u32>) -> SetId
    requires { HasSet controls.now.bits when }
    ensures { result ≡ set_of_when controls.now.bits when }
{
    match when {
        // the set of all words
        None => 1,
        Some(net) => match controls.bits_of(net) {
            Some(sets) => sets[0],
            None => 0,
        },
    }
}

// What transfers are collected from: a netlist with its control bits, and the routes of its nets,
// whose expressions are of the pool.
#[derive(Clone, Copy)]
pub(crate) struct Source<'a> {
    pub(crate) checked: &'a Checked,
    pub(crate) pool: &'a Pool,
    pub(crate) controls: &'a ControlBits,
    pub(crate) routes: &'a Routes,
}

// The transfers of a memory or a file, each with all words that give it.
fn add_array(
    alloc: Global,
    source: &Source<'_>,
    book: &mut Book,
    out: &mut Items<Entry>,
    id: u32,
    cells: &Cells,
) -> Result<(), NoMemory>
    requires at { IsArrayAt source.now.checked.now.netlist id cells.now }
    requires source { IsSource source.now book.old }
    requires words { HaveWords book.old out.old }
    ensures grows { Extends book.old book.new }
    ensures words { OnOk result (HaveWords book.new out.new) }
    ensures moves { OnOk result ((n word : ℕ) → word < 2 ^ book.old.bits →
        transfers_under book.new source.now.pool.now out.new n word
        ≡ transfers_under book.old source.now.pool.now out.old n word
        ++ list_if ((id == n) && has_word book.old source.now.controls.now.legal word)
        (changes (transfer_at source.now.checked.now.netlist word id))) }
    ensures whole { OnOk result (AreWhole source.now.checked.now.netlist source.now.pool.now book.old out.old →
        AreWhole source.now.checked.now.netlist source.now.pool.now book.new out.new) }
    ensures known { OnOk result (AreKnown (length source.now.pool.now) out.old → AreKnown (length source.now.pool.now) out.new) }
{
    let _ids = source.pool.len();
    let _netlist = source.checked.netlist();
    let sink = Sink {
        storage: id,
        on: when_set(source.controls, cells.when),
    };
    let addrs = routes_of(source.routes, cells.addr);
    let values = routes_of(source.routes, cells.value);
    add_memory(alloc, book, out, sink, addrs, values)
}

// Adds the transfers of a storage.
fn add_storage(
    alloc: Global,
    source: &Source<'_>,
    book: &mut Book,
    out: &mut Items<Entry>,
    id: u32,
) -> Result<(), NoMemory>
    requires id { id < length source.now.checked.now.netlist.storages }
    requires source { IsSource source.now book.old }
    requires words { HaveWords book.old out.old }
    ensures grows { Extends book.old book.new }
    ensures words { OnOk result (HaveWords book.new out.new) }
    ensures moves { OnOk result ((n word : ℕ) → word < 2 ^ book.old.bits →
        transfers_under book.new source.now.pool.now out.new n word
        ≡ transfers_under book.old source.now.pool.now out.old n word
        ++ list_if ((id == n) && has_word book.old source.now.controls.now.legal word)
        (changes (transfer_at source.now.checked.now.netlist word id))) }
    ensures whole { OnOk result (AreWhole source.now.checked.now.netlist source.now.pool.now book.old out.old →
        AreWhole source.now.checked.now.netlist source.now.pool.now book.new out.new) }
    ensures known { OnOk result (AreKnown (length source.now.pool.now) out.old → AreKnown (length source.now.pool.now) out.new) }
{
    let _ids = source.pool.len();
    let storages = source.checked.netlist().storages.as_slice();
    match &storages[id as usize] {
        Storage::Register { input, when, .. } => {
            let sink = Sink {
                storage: id,
                on: when_set(source.controls, *when),
            };
            let inputs = routes_of(source.routes, *input);
            add_register(alloc, book, source.pool, out, sink, inputs)
        }
        Storage::Memory(cells) => add_array(alloc, source, book, out, id, cells),
        Storage::File(cells) => add_array(alloc, source, book, out, id, cells),
    }
}

// The transfers of all storages, each with all words that give it.
pub(crate) fn collect_entries(
    alloc: Global,
    source: &Source<'_>,
    book: &mut Book,
) -> Result<Items<Entry>, NoMemory>
    requires source { IsSource source.now book.old }
    requires bits { book.old.bits ≡ word_width source.now.checked.now.netlist }
    ensures grows { Extends book.old book.new }
    ensures words { IfOk result (HaveWords book.new) }
    ensures moves { IfOk result (λ out. (n word : ℕ) → word < 2 ^ book.old.bits →
        transfers_under book.new source.now.pool.now out n word ≡
        list_if (has_word book.old source.now.controls.now.legal word) (changes (transfer_at source.now.checked.now.netlist word n))) }
    ensures whole { IfOk result (AreWhole source.now.checked.now.netlist source.now.pool.now book.new) }
    ensures known { IfOk result (AreKnown (length source.now.pool.now)) }
    ensures each { IfOk result (λ out. AllByRecursion (IsPattern source.now.checked.now.netlist) (patterns_of source.now.pool.now out)) }
    ensures every { IfOk result (λ out. (pattern : Pattern) → IsPattern source.now.checked.now.netlist pattern →
        Contains (patterns_of source.now.pool.now out) pattern) }
{
    let mut out = Items::new(alloc);
    let count = source.checked.netlist().storages.len() as u32;
    for id in 0..count {
        add_storage(alloc, source, book, &mut out, id)?;
    }
    Ok(out)
}
