//! How many words parts have, and their addresses.

ghost use Rattle.std.specs.Prelude.{◌≡◌, ◌+◌, ◌<◌, ◌≤◌, ◌^◌, IfOk, slice_index};
ghost use Rattle.branch_fix.specs.Parts.{branch_words, room, starts, total};

use crate::part::LayoutPart;
use rec_bits::{Items, NoMemory};
use std::alloc::Global;

// The words of a branch.
fn branch_words(next: bool, long: bool) -> u64
    ensures words { result ≡ branch_words next long }
    ensures few { result ≤ 3 }
{
    if long {
        3
    } else if next {
        1
    } else {
        2
    }
}

/// The words of a part.
pub fn room(part: LayoutPart) -> u64
    ensures { result ≡ room part }
{
    match part {
        LayoutPart::Block { words, .. } => u64::from(words),
        LayoutPart::Inner => 0,
        LayoutPart::Test(fork) => u64::from(fork.words) + branch_words(fork.next, fork.long),
        LayoutPart::Jump(_) | LayoutPart::End => 1,
    }
}

/// The number of words of parts.
pub fn total(parts: &[LayoutPart]) -> u64
    requires { total parts.now < 2 ^ 64 }
    ensures { result ≡ total parts.now }
{
    let mut words = 0;
    for part in parts {
        words += room(*part);
    }
    words
}

/// The addresses of parts, and of the end behind them.
pub fn starts(alloc: Global, parts: &[LayoutPart]) -> Result<Items<u64>, NoMemory>
    requires { total parts.now < 2 ^ 64 }
    ensures { IfOk result (λ addresses. addresses ≡ starts parts.now) }
{
    let mut addresses = Items::new(alloc);
    let mut address = 0;
    for part in parts {
        addresses.push(address)?;
        address += room(*part);
    }
    addresses.push(address)?;
    Ok(addresses)
}

/// The address of a place.
pub fn address_at(addresses: &[u64], at: u32) -> u64
    ensures { result ≡ slice_index addresses.now at }
{
    match addresses.get(at as usize) {
        Some(address) => *address,
        None => 0,
    }
}
