//! Routes that are found by the words that they hold.

ghost use Rattle.std.specs.Prelude.{◌≡◌, ℕ, ◌^◌, ◌<◌, ◌≤◌, ◌&&◌, not, [], length, IfNone, IfOk, IfSome, true, false};
ghost use Rattle.bit_bdd.specs.Diagrams.{Extends, has_word};
ghost use Rattle.transfer_set.specs.Routes.{AllSets, exprs_under};
ghost use Rattle.route_trace.specs.Inner.Lookups.{HoldsAt, is_free};

use crate::first::without;
use bit_bdd::{Book, SetId};
use rec_bits::NoMemory;
use std::alloc::Global;
use transfer_set::Route;

// The first place from `start` on of a route that holds a word.
fn place_from(book: &Book, routes: &[Route], start: usize, word: u64) -> Option<usize>
    requires sets { AllSets book.now routes.now }
    ensures within { IfSome result (λ place. place < length routes.now) }
    ensures some { IfSome result (λ place. HoldsAt book.now routes.now place word) }
    ensures none { IfNone result (start ≡ 0 → exprs_under book.now routes.now word ≡ []) }
{
    for place in start..routes.len() {
        if book.holds(routes[place].set, word) {
            return Some(place);
        }
    }
    None
}

// The place of a route that holds a word. The places from `start` on are tried first, since
// operands with the same cases have them in one order.
pub(crate) fn place_of(book: &Book, routes: &[Route], start: usize, word: u64) -> Option<usize>
    requires sets { AllSets book.now routes.now }
    ensures within { IfSome result (λ place. place < length routes.now) }
    ensures some { IfSome result (λ place. HoldsAt book.now routes.now place word) }
    ensures none { IfNone result (exprs_under book.now routes.now word ≡ []) }
{
    match place_from(book, routes, start, word) {
        Some(place) => Some(place),
        None => place_from(book, routes, 0, word),
    }
}

// The words of a set that no route holds.
fn not_held(alloc: Global, book: &mut Book, set: SetId, routes: &[Route]) -> Result<SetId, NoMemory>
    requires set { set < length book.old.nodes }
    requires sets { AllSets book.old routes.now }
    ensures book { Extends book.old book.new }
    ensures within { IfOk result (λ id. id < length book.new.nodes) }
    ensures words { IfOk result (λ id. (word : ℕ) →
        has_word book.new id word ≡ (has_word book.old set word && is_free (exprs_under book.old routes.now word))) }
{
    let mut left = set;
    for route in routes {
        left = without(alloc, book, left, route.set)?;
    }
    Ok(left)
}

// The words of a set that some route holds.
pub(crate) fn held_words(
    alloc: Global,
    book: &mut Book,
    set: SetId,
    routes: &[Route],
) -> Result<SetId, NoMemory>
    requires set { set < length book.old.nodes }
    requires sets { AllSets book.old routes.now }
    ensures book { Extends book.old book.new }
    ensures within { IfOk result (λ id. id < length book.new.nodes) }
    ensures words { IfOk result (λ id. (word : ℕ) →
        has_word book.new id word
        ≡ (has_word book.old set word && not (is_free (exprs_under book.old routes.now word)))) }
{
    let free = not_held(alloc, book, set, routes)?;
    without(alloc, book, set, free)
}
