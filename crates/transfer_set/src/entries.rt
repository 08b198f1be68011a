//! Transfers with the words that give them, as they are collected from the routes of what feeds a
//! storage.

ghost use Rattle.std.specs.Prelude.{◌≡◌, ℕ, ◌^◌, ◌==◌, ◌<◌, ◌≤◌, ◌&&◌, [], ◌∷◌, ◌++◌, map, length, IfOk, OnOk, List, Some, None, false, slice_get};
ghost use Rattle.bit_bdd.specs.Diagrams.{Extends, has_word};
ghost use Rattle.net_model.specs.declared.hardware.Netlist.{Netlist};
ghost use Rattle.net_model.specs.Exprs.{ExprModel, write};
ghost use Rattle.net_model.specs.Transfers.{same_reg};
ghost use Rattle.sym_expr.specs.declared.pool.Node.{Node as TheNode};
ghost use Rattle.sym_expr.specs.Pools.{expr_of_id};
ghost use Rattle.transfer_set.specs.Routes.{AllExprs, AllSets, models_under};
ghost use Rattle.transfer_set.specs.Entries.{IsAddrKnown, IsWordsOf};
ghost use Rattle.transfer_set.specs.Inner.Entries.{HaveWords, AreKnown, AreWhole, ArePairs, AreValues, AreWrites, each, entry_transfer, list_if, memory_transfers, transfers_under, register_transfers};

use crate::route::Route;
use bit_bdd::{Book, SetId};
use rec_bits::{Items, NoMemory};
use std::alloc::Global;
use sym_expr::{ExprId, Node, Pool};

// A transfer of a storage, with an address where the storage is a memory or a file, and the words
// that give it.
#[derive(Clone, Copy, PartialEq, Eq)]
pub(crate) struct Entry {
    pub(crate) storage: u32,
    pub(crate) addr: Option<ExprId>,
    pub(crate) value: ExprId,
    pub(crate) set: SetId,
}

// A storage, and the words under which it takes what feeds it.
#[derive(Clone, Copy)]
pub(crate) struct Sink {
    pub(crate) storage: u32,
    pub(crate) on: SetId,
}

// Adds a transfer for those of its words that a set holds too, unless there is none.
fn add_entry(
    alloc: Global,
    book: &mut Book,
    out: &mut Items<Entry>,
    on: SetId,
    entry: Entry,
) -> Result<(), NoMemory>
    requires on { on < length book.old.nodes }
    requires set { entry.set < length book.old.nodes }
    requires words { HaveWords book.old out.old }
    ensures grows { Extends book.old book.new }
    ensures words { OnOk result (HaveWords book.new out.new) }
    ensures moves { OnOk result ((pool : List TheNode) (id word : ℕ) →
        transfers_under book.new pool out.new id word
        ≡ transfers_under book.old pool out.old id word
        ++ list_if ((entry.storage == id) && (has_word book.old on word && has_word book.old entry.set word))
        (entry_transfer pool entry ∷ [])) }
    ensures whole { OnOk result ((netlist : Netlist) (pool : List TheNode) →
        AreWhole netlist pool book.old out.old →
        IsWordsOf netlist book.old.bits entry.storage (entry_transfer pool entry)
        (λ word. has_word book.old on word && has_word book.old entry.set word) →
        AreWhole netlist pool book.new out.new) }
    ensures known { OnOk result ((size : ℕ) → AreKnown size out.old → IsAddrKnown size entry.addr →
        entry.value < size → AreKnown size out.new) }
{
    let set = book.and(alloc, on, entry.set)?;
    match book.least(set) {
        None => Ok(()),
        Some(_) => {
            out.push(Entry { set, ..entry })?;
            Ok(())
        }
    }
}

// Whether an expression is a register as it stands.
fn is_own(pool: &Pool, expr: ExprId, storage: u32) -> bool
    requires { expr < length pool.now }
    ensures { result ≡ same_reg (expr_of_id pool.now expr) storage }
{
    match pool.node(expr) {
        Node::Reg(id, _) => id == storage,
        _ => false,
    }
}

// Adds the transfer of a register that takes, under the words of a set, what a route gives, unless
// that is the register itself.
fn add_write(
    alloc: Global,
    book: &mut Book,
    pool: &Pool,
    out: &mut Items<Entry>,
    sink: Sink,
    route: Route,
) -> Result<(), NoMemory>
    requires on { sink.on < length book.old.nodes }
    requires set { route.set < length book.old.nodes }
    requires expr { route.expr < length pool.now }
    requires words { HaveWords book.old out.old }
    ensures grows { Extends book.old book.new }
    ensures words { OnOk result (HaveWords book.new out.new) }
    ensures moves { OnOk result ((id word : ℕ) →
        transfers_under book.new pool.now out.new id word
        ≡ transfers_under book.old pool.now out.old id word
        ++ list_if
        ((sink.storage == id) && (has_word book.old sink.on word && has_word book.old route.set word))
        (register_transfers sink.storage (expr_of_id pool.now route.expr))) }
    ensures whole { OnOk result ((netlist : Netlist) → AreWhole netlist pool.now book.old out.old →
        (same_reg (expr_of_id pool.now route.expr) sink.storage ≡ false →
        IsWordsOf netlist book.old.bits sink.storage (write (expr_of_id pool.now route.expr))
        (λ word. has_word book.old sink.on word && has_word book.old route.set word)) →
        AreWhole netlist pool.now book.new out.new) }
    ensures known { OnOk result (AreKnown (length pool.now) out.old → AreKnown (length pool.now) out.new) }
{
    if is_own(pool, route.expr, sink.storage) {
        return Ok(());
    }
    let entry = Entry {
        storage: sink.storage,
        addr: None,
        value: route.expr,
        set: route.set,
    };
    add_entry(alloc, book, out, sink.on, entry)
}

// Adds the transfers of a register that takes, under the words of a set, what some routes give.
pub(crate) fn add_register(
    alloc: Global,
    book: &mut Book,
    pool: &Pool,
    out: &mut Items<Entry>,
    sink: Sink,
    routes: &[Route],
) -> Result<(), NoMemory>
    requires on { sink.on < length book.old.nodes }
    requires sets { AllSets book.old routes.now }
    requires exprs { AllExprs (length pool.now) routes.now }
    requires words { HaveWords book.old out.old }
    ensures grows { Extends book.old book.new }
    ensures words { OnOk result (HaveWords book.new out.new) }
    ensures moves { OnOk result ((id word : ℕ) →
        transfers_under book.new pool.now out.new id word
        ≡ transfers_under book.old pool.now out.old id word
        ++ list_if ((sink.storage == id) && has_word book.old sink.on word)
        (each (register_transfers sink.storage) (models_under book.old pool.now routes.now word))) }
    ensures whole { OnOk result ((netlist : Netlist) →
        AreWhole netlist pool.now book.old out.old →
        AreWrites netlist pool.now book.old sink.storage sink.on routes.now →
        AreWhole netlist pool.now book.new out.new) }
    ensures known { OnOk result (AreKnown (length pool.now) out.old → AreKnown (length pool.now) out.new) }
{
    for route in routes {
        add_write(alloc, book, pool, out, sink, *route)?;
    }
    Ok(())
}

// Adds the transfers of a memory or a file that takes at one address, under the words of a set,
// what some routes give.
fn add_values(
    alloc: Global,
    book: &mut Book,
    out: &mut Items<Entry>,
    sink: Sink,
    addr: ExprId,
    values: &[Route],
) -> Result<(), NoMemory>
    requires on { sink.on < length book.old.nodes }
    requires values { AllSets book.old values.now }
    requires words { HaveWords book.old out.old }
    ensures grows { Extends book.old book.new }
    ensures words { OnOk result (HaveWords book.new out.new) }
    ensures moves { OnOk result ((pool : List TheNode) (id word : ℕ) →
        transfers_under book.new pool out.new id word
        ≡ transfers_under book.old pool out.old id word
        ++ list_if ((sink.storage == id) && has_word book.old sink.on word)
        (each (memory_transfers (expr_of_id pool addr)) (models_under book.old pool values.now word))) }
    ensures whole { OnOk result ((netlist : Netlist) (pool : List TheNode) →
        AreWhole netlist pool book.old out.old →
        AreValues netlist pool book.old sink.storage addr sink.on values.now →
        AreWhole netlist pool book.new out.new) }
    ensures known { OnOk result ((size : ℕ) → AreKnown size out.old → addr < size →
        AllExprs size values.now → AreKnown size out.new) }
{
    for route in values {
        let entry = Entry {
            storage: sink.storage,
            addr: Some(addr),
            value: route.expr,
            set: route.set,
        };
        add_entry(alloc, book, out, sink.on, entry)?;
    }
    Ok(())
}

// Adds the transfers of a memory or a file that takes, under the words of a set, what some routes
// give at what others give.
pub(crate) fn add_memory(
    alloc: Global,
    book: &mut Book,
    out: &mut Items<Entry>,
    sink: Sink,
    addrs: &[Route],
    values: &[Route],
) -> Result<(), NoMemory>
    requires on { sink.on < length book.old.nodes }
    requires addrs { AllSets book.old addrs.now }
    requires values { AllSets book.old values.now }
    requires words { HaveWords book.old out.old }
    ensures grows { Extends book.old book.new }
    ensures words { OnOk result (HaveWords book.new out.new) }
    ensures moves { OnOk result ((pool : List TheNode) (id word : ℕ) →
        transfers_under book.new pool out.new id word
        ≡ transfers_under book.old pool out.old id word
        ++ list_if ((sink.storage == id) && has_word book.old sink.on word)
        (each (λ a. each (memory_transfers a) (models_under book.old pool values.now word))
        (models_under book.old pool addrs.now word))) }
    ensures whole { OnOk result ((netlist : Netlist) (pool : List TheNode) →
        AreWhole netlist pool book.old out.old →
        ArePairs netlist pool book.old sink.storage sink.on addrs.now values.now →
        AreWhole netlist pool book.new out.new) }
    ensures known { OnOk result ((size : ℕ) → AreKnown size out.old → AllExprs size addrs.now →
        AllExprs size values.now → AreKnown size out.new) }
{
    for route in addrs {
        let on = book.and(alloc, sink.on, route.set)?;
        add_values(alloc, book, out, Sink { on, ..sink }, route.expr, values)?;
    }
    Ok(())
}
