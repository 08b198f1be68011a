//! The words under which no bus has two enabled drivers.

ghost use Rattle.std.specs.Prelude.{◌≡◌, ℕ, ◌<◌, ◌&&◌, ◌||◌, ◌∷◌, [], not, nat_lt, length, IfOk};
ghost use Rattle.std.specs.List.{AllByRecursion, list_any};
ghost use Rattle.net_model.specs.Clock.{enabled_count, gate_clashes};
ghost use Rattle.bit_bdd.specs.Diagrams.{Extends, has_word};
ghost use Rattle.ctl_bdd.specs.Tables.{IsBitTable, numbers_at, sets_at};
ghost use Rattle.ctl_bdd.specs.Inner.Tables.{HasEnable, HasEnables};

use crate::bits::constant_set;
use crate::gates::sets_of;
use bit_bdd::{Book, SetId};
use net_model::{Gate, Net};
use rec_bits::{Items, NoMemory};
use std::alloc::Global;

// The words under which a net of one bit is 1.
fn set_of(table: &[Items<SetId>], net: u32) -> SetId
    requires { length (sets_at table.now net) ≡ 1 }
    ensures { sets_at table.now net ≡ result ∷ [] }
{
    sets_of(table, net)[0]
}

// One more driver: the words without clash, and those under which a driver is enabled.
fn add_driver(
    alloc: Global,
    book: &mut Book,
    legal: SetId,
    seen: SetId,
    driver: SetId,
) -> Result<(SetId, SetId), NoMemory>
    requires legal { legal < length book.old.nodes }
    requires seen { seen < length book.old.nodes }
    requires driver { driver < length book.old.nodes }
    ensures grows { Extends book.old book.new }
    ensures legal_in { IfOk result (λ both. both.0 < length book.new.nodes) }
    ensures seen_in { IfOk result (λ both. both.1 < length book.new.nodes) }
    ensures legal { IfOk result (λ both. (word : ℕ) →
        has_word book.new both.0 word ≡
        (has_word book.old legal word && not (has_word book.old seen word && has_word book.old driver word))) }
    ensures seen { IfOk result (λ both. (word : ℕ) →
        has_word book.new both.1 word ≡ (has_word book.old seen word || has_word book.old driver word)) }
{
    let both = book.and(alloc, seen, driver)?;
    let apart = book.not(alloc, both)?;
    let more = book.or(alloc, seen, driver)?;
    let left = book.and(alloc, legal, apart)?;
    Ok((left, more))
}

// Those of some words under which a bus with these drivers doesn't clash.
fn bus_legal(
    alloc: Global,
    book: &mut Book,
    legal: SetId,
    table: &[Items<SetId>],
    drivers: &[(u32, u32)],
) -> Result<SetId, NoMemory>
    requires legal { legal < length book.old.nodes }
    requires table { IsBitTable book.old table.now }
    requires enables { AllByRecursion (HasEnable table.now) drivers.now }
    ensures grows { Extends book.old book.new }
    ensures within { IfOk result (λ id. id < length book.new.nodes) }
    ensures words { IfOk result (λ id. (word : ℕ) →
        has_word book.new id word
        ≡ (has_word book.old legal word
        && not (nat_lt 1 (enabled_count (numbers_at book.old table.now word) drivers.now)))) }
{
    let mut left = legal;
    let mut seen = constant_set(book, false);
    for driver in drivers {
        let enable = set_of(table, driver.1);
        (left, seen) = add_driver(alloc, book, left, seen, enable)?;
    }
    Ok(left)
}

// Those of some words under which a gate doesn't clash.
fn gate_legal(
    alloc: Global,
    book: &mut Book,
    legal: SetId,
    table: &[Items<SetId>],
    gate: &Gate,
) -> Result<SetId, NoMemory>
    requires legal { legal < length book.old.nodes }
    requires table { IsBitTable book.old table.now }
    requires enables { HasEnables table.now gate.now }
    ensures grows { Extends book.old book.new }
    ensures within { IfOk result (λ id. id < length book.new.nodes) }
    ensures words { IfOk result (λ id. (word : ℕ) →
        has_word book.new id word ≡
        (has_word book.old legal word && not (gate_clashes (numbers_at book.old table.now word) gate.now))) }
{
    match gate {
        Gate::Bus(drivers) => {
            let id = bus_legal(alloc, book, legal, table, drivers.as_slice())?;
            Ok(id)
        }
        _ => Ok(legal),
    }
}

// The words under which none of the nets clashes.
pub(crate) fn legal_set(
    alloc: Global,
    book: &mut Book,
    table: &[Items<SetId>],
    nets: &[Net],
) -> Result<SetId, NoMemory>
    requires table { IsBitTable book.old table.now }
    requires enables { AllByRecursion (λ net. HasEnables table.now net.gate) nets.now }
    ensures grows { Extends book.old book.new }
    ensures within { IfOk result (λ id. id < length book.new.nodes) }
    ensures words { IfOk result (λ id. (word : ℕ) →
        has_word book.new id word ≡
        not (list_any (λ net. gate_clashes (numbers_at book.old table.now word) net.gate) nets.now)) }
{
    let mut legal = constant_set(book, true);
    for net in nets {
        legal = gate_legal(alloc, book, legal, table, &net.gate)?;
    }
    Ok(legal)
}
