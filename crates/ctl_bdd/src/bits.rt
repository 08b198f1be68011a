//! Numbers whose bits are sets of words, the lowest bit first.

ghost use Rattle.std.specs.Prelude.{◌≡◌, ℕ, ◌+◌, ◌-◌, ◌%◌, ◌^◌, ◌<◌, ◌≤◌, ◌==◌, ◌&&◌, ◌++◌, not, if◌then◌else◌, map, length, replicate, IfOk};
ghost use Rattle.bit_bdd.specs.Diagrams.{Extends, has_word};
ghost use Rattle.ctl_bdd.specs.Bits.{AreSets, bools, number_at};
ghost use Rattle.ctl_bdd.specs.Inner.Bits.{alike, all_alike, choice_of, pair_of, pairs_of};

use bit_bdd::{Book, SetId};
use rec_bits::{Items, NoMemory};
use std::alloc::Global;

// An operator that takes each bit by itself.
#[derive(Clone, Copy)]
pub(crate) enum Pairing {
    And,
    Or,
    Xor,
}

// All words, or none.
pub(crate) fn constant_set(book: &Book, value: bool) -> SetId
    ensures within { result < length book.now.nodes }
    ensures words { (word : ℕ) → has_word book.now result word ≡ value }
{
    // the size tells what the first two ids mean
    let _ = book.size();
    SetId::from(value)
}

// The bits of a constant, of which those from the width on are dropped.
pub(crate) fn constant_bits(
    alloc: Global,
    book: &Book,
    value: u64,
    width: u8,
) -> Result<Items<SetId>, NoMemory>
    requires { width ≤ 64 }
    ensures sets { IfOk result (λ out. AreSets book.now out) }
    ensures long { IfOk result (λ out. length out ≡ width) }
    ensures number { IfOk result (λ out. (word : ℕ) → number_at book.now out word ≡ value % 2 ^ width) }
{
    let mut out = Items::new(alloc);
    for bit in 0..width {
        let set = constant_set(book, (value >> bit) & 1 == 1);
        out.push(set)?;
    }
    Ok(out)
}

// The low bits of the word itself.
pub(crate) fn word_bits(alloc: Global, book: &mut Book, width: u8) -> Result<Items<SetId>, NoMemory>
    requires { width ≤ book.old.bits }
    ensures grows { Extends book.old book.new }
    ensures sets { IfOk result (λ out. AreSets book.new out) }
    ensures long { IfOk result (λ out. length out ≡ width) }
    ensures number { IfOk result (λ out. (word : ℕ) → number_at book.new out word ≡ word % 2 ^ width) }
{
    let mut out = Items::new(alloc);
    for bit in 0..width {
        let set = book.bit(alloc, bit)?;
        out.push(set)?;
    }
    Ok(out)
}

// Each bit turned.
pub(crate) fn not_bits(
    alloc: Global,
    book: &mut Book,
    sets: &[SetId],
) -> Result<Items<SetId>, NoMemory>
    requires { AreSets book.old sets.now }
    ensures grows { Extends book.old book.new }
    ensures sets { IfOk result (λ out. AreSets book.new out) }
    ensures long { IfOk result (λ out. length out ≡ length sets.now) }
    ensures words { IfOk result (λ out. (word : ℕ) → bools book.new out word ≡ map not (bools book.old sets.now word)) }
{
    let mut out = Items::new(alloc);
    for set in sets {
        let turned = book.not(alloc, *set)?;
        out.push(turned)?;
    }
    Ok(out)
}

// One bit of an operator.
fn pair_set(
    alloc: Global,
    book: &mut Book,
    pairing: Pairing,
    a: SetId,
    b: SetId,
) -> Result<SetId, NoMemory>
    requires a { a < length book.old.nodes }
    requires b { b < length book.old.nodes }
    ensures grows { Extends book.old book.new }
    ensures within { IfOk result (λ id. id < length book.new.nodes) }
    ensures words { IfOk result (λ id. (word : ℕ) →
        has_word book.new id word ≡ pair_of pairing (has_word book.old a word) (has_word book.old b word)) }
{
    match pairing {
        Pairing::And => book.and(alloc, a, b),
        Pairing::Or => book.or(alloc, a, b),
        Pairing::Xor => {
            let other = book.not(alloc, b)?;
            let id = book.ite(alloc, a, other, b)?;
            Ok(id)
        }
    }
}

// An operator bit by bit.
pub(crate) fn pair_bits(
    alloc: Global,
    book: &mut Book,
    pairing: Pairing,
    a: &[SetId],
    b: &[SetId],
) -> Result<Items<SetId>, NoMemory>
    requires a { AreSets book.old a.now }
    requires b { AreSets book.old b.now }
    requires long { length a.now ≡ length b.now }
    ensures grows { Extends book.old book.new }
    ensures sets { IfOk result (λ out. AreSets book.new out) }
    ensures long { IfOk result (λ out. length out ≡ length a.now) }
    ensures words { IfOk result (λ out. (word : ℕ) →
        bools book.new out word ≡ pairs_of pairing (bools book.old a.now word) (bools book.old b.now word)) }
{
    let mut out = Items::new(alloc);
    for i in 0..a.len() {
        let set = pair_set(alloc, book, pairing, a[i], b[i])?;
        out.push(set)?;
    }
    Ok(out)
}

// The bits of one number for the words of a set, and those of another for all others.
pub(crate) fn choice_bits(
    alloc: Global,
    book: &mut Book,
    test: SetId,
    on: &[SetId],
    off: &[SetId],
) -> Result<Items<SetId>, NoMemory>
    requires test { test < length book.old.nodes }
    requires on { AreSets book.old on.now }
    requires off { AreSets book.old off.now }
    requires long { length on.now ≡ length off.now }
    ensures grows { Extends book.old book.new }
    ensures sets { IfOk result (λ out. AreSets book.new out) }
    ensures long { IfOk result (λ out. length out ≡ length on.now) }
    ensures words { IfOk result (λ out. (word : ℕ) →
        bools book.new out word ≡
        choice_of (has_word book.old test word) (bools book.old on.now word) (bools book.old off.now word)) }
{
    let mut out = Items::new(alloc);
    for i in 0..on.len() {
        let set = book.ite(alloc, test, on[i], off[i])?;
        out.push(set)?;
    }
    Ok(out)
}

// One more bit that has to be alike.
fn alike_set(
    alloc: Global,
    book: &mut Book,
    before: SetId,
    a: SetId,
    b: SetId,
) -> Result<SetId, NoMemory>
    requires before { before < length book.old.nodes }
    requires a { a < length book.old.nodes }
    requires b { b < length book.old.nodes }
    ensures grows { Extends book.old book.new }
    ensures within { IfOk result (λ id. id < length book.new.nodes) }
    ensures words { IfOk result (λ id. (word : ℕ) →
        has_word book.new id word ≡
        (has_word book.old before word && alike (has_word book.old a word) (has_word book.old b word))) }
{
    let other = book.not(alloc, b)?;
    let same = book.ite(alloc, a, b, other)?;
    let all = book.and(alloc, before, same)?;
    Ok(all)
}

// The words at which two numbers of one width are equal.
pub(crate) fn equal_set(
    alloc: Global,
    book: &mut Book,
    a: &[SetId],
    b: &[SetId],
) -> Result<SetId, NoMemory>
    requires a { AreSets book.old a.now }
    requires b { AreSets book.old b.now }
    requires long { length a.now ≡ length b.now }
    ensures grows { Extends book.old book.new }
    ensures within { IfOk result (λ id. id < length book.new.nodes) }
    ensures words { IfOk result (λ id. (word : ℕ) →
        has_word book.new id word ≡ all_alike (bools book.old a.now word) (bools book.old b.now word)) }
{
    let mut same = constant_set(book, true);
    for i in 0..a.len() {
        same = alike_set(alloc, book, same, a[i], b[i])?;
    }
    Ok(same)
}

/// The words at which the sets of `bits`, the lowest bit first, give the number `key`. There are at
/// most 64 of them, and the key has no more bits. The book grows.
pub fn equals(alloc: Global, book: &mut Book, bits: &[SetId], key: u64) -> Result<SetId, NoMemory>
    requires bits { AreSets book.old bits.now }
    requires few { length bits.now ≤ 64 }
    requires key { key < 2 ^ length bits.now }
    ensures grows { Extends book.old book.new }
    ensures within { IfOk result (λ id. id < length book.new.nodes) }
    ensures words { IfOk result (λ id. (word : ℕ) →
        has_word book.new id word ≡ (number_at book.old bits.now word == key)) }
{
    let wanted = constant_bits(alloc, book, key, bits.len() as u8)?;
    let set = equal_set(alloc, book, bits, wanted.as_slice())?;
    Ok(set)
}

// The bits of one number above those of another.
pub(crate) fn join(alloc: Global, low: &[SetId], high: &[SetId]) -> Result<Items<SetId>, NoMemory>
    ensures { IfOk result (λ out. out ≡ low.now ++ high.now) }
{
    let mut out = Vec::from_slice(alloc, low)?;
    out.extend_from_slice(high)?;
    Ok(Items::from_vec(out))
}

// Copies of a set above the bits of a number, up to a width.
pub(crate) fn extend(
    alloc: Global,
    low: &[SetId],
    fill: SetId,
    width: u8,
) -> Result<Items<SetId>, NoMemory>
    requires { length low.now ≤ width }
    ensures { IfOk result (λ out. out ≡ low.now ++ replicate (width - length low.now) fill) }
{
    let high = vec![in alloc; fill; usize::from(width) - low.len()]?;
    join(alloc, low, high.as_slice())
}
