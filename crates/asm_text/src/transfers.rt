//! The transfers of a line.

ghost use Rattle.std.specs.Prelude.{◌≡◌, ◌++◌, ◌<◌, List, ℕ, length, IfOk, IfSome, MatchOption};
ghost use Rattle.asm_text.specs.Lines.{AreTransferTexts, IsTransferText};
ghost use Rattle.asm_text.specs.Inner.Reading.{BeginsLine, BeginsTransfer, Breaks, IsTail};

use crate::parts::{after, first_word};
use crate::table::Transfers;
use rec_bits::{Items, NoMemory};
use std::alloc::Global;

// The transfer that a text may begin with, which stands before the third space or the end, and what
// follows it.
fn front(text: &[u8]) -> Option<(&[u8], &[u8])>
    ensures some { IfSome result (λ found. (text.now ≡ found.0.now ++ found.1.now) × Breaks found.1.now) }
    ensures only { (transfer rest : List ℕ) → IsTransferText transfer → Breaks rest → text.now ≡ transfer ++ rest →
        MatchOption result ⊥ (λ found. (found.0.now ≡ transfer) × (found.1.now ≡ rest)) }
{
    let (_, behind) = first_word(text);
    let (_, rest) = first_word(after(behind, b" := ")?);
    Some(text.split_at(text.len() - rest.len()))
}

// The pattern whose transfer a text begins with, and what follows that.
fn transfer_of<'t>(transfers: &Transfers, text: &'t [u8]) -> Option<(u32, &'t [u8])>
    requires { AreTransferTexts transfers.now }
    ensures some { IfSome result (λ found. BeginsTransfer transfers.now text.now found.0 found.1.now) }
    ensures only { (pattern : ℕ) (rest : List ℕ) → BeginsTransfer transfers.now text.now pattern rest →
        MatchOption result ⊥ (λ found. (found.0 ≡ pattern) × (found.1.now ≡ rest)) }
{
    let (transfer, rest) = front(text)?;
    Some((transfers.number(transfer)?, rest))
}

// The patterns whose transfers a text begins with, joined by ` & `, and what follows them.
fn transfers_of<'t>(
    alloc: Global,
    transfers: &Transfers,
    text: &'t [u8],
) -> Result<Option<(Items<u32>, &'t [u8])>, NoMemory>
    requires { AreTransferTexts transfers.now }
    ensures some { IfOk result (λ found. IfSome found (λ got. 0 < length got.0)) }
    ensures read { IfOk result (λ found. IfSome found (λ got. BeginsLine transfers.now text.now got.0 got.1.now)) }
    ensures only { IfOk result (λ found. (patterns : List ℕ) (rest : List ℕ) →
        0 < length patterns → BeginsLine transfers.now text.now patterns rest → IsTail rest →
        MatchOption found ⊥ (λ got. (got.0 ≡ patterns) × (got.1.now ≡ rest))) }
{
    let mut patterns = Items::new(alloc);
    let Some((first, mut rest)) = transfer_of(transfers, text) else {
        return Ok(None);
    };
    patterns.push(first)?;
    while let Some(next) = after(rest, b" & ") {
        let Some((pattern, more)) = transfer_of(transfers, next) else {
            return Ok(None);
        };
        patterns.push(pattern)?;
        rest = more;
    }
    Ok(Some((patterns, rest)))
}

/// The patterns of a line, of which there are none where it begins with `keep`, and what follows.
pub(crate) fn patterns_of<'t>(
    alloc: Global,
    transfers: &Transfers,
    text: &'t [u8],
) -> Result<Option<(Items<u32>, &'t [u8])>, NoMemory>
    requires { AreTransferTexts transfers.now }
    ensures read { IfOk result (λ found. IfSome found (λ got. BeginsLine transfers.now text.now got.0 got.1.now)) }
    ensures only { IfOk result (λ found. (patterns : List ℕ) (rest : List ℕ) →
        BeginsLine transfers.now text.now patterns rest → IsTail rest →
        MatchOption found ⊥ (λ got. (got.0 ≡ patterns) × (got.1.now ≡ rest))) }
{
    if let Some(found) = transfers_of(alloc, transfers, text)? {
        return Ok(Some(found));
    }
    match after(text, b"keep") {
        Some(rest) => Ok(Some((Items::new(alloc), rest))),
        None => Ok(None),
    }
}
