//! Operators over two operands that have routes.

ghost use Rattle.std.specs.Prelude.{◌≡◌, ℕ, ◌+◌, ◌^◌, ◌<◌, ◌≤◌, ◌&&◌, not, [], map, length, IfErr, IfOk, OnOk, true, if◌then◌else◌};
ghost use Rattle.bit_bdd.specs.Diagrams.{Extends, has_word};
ghost use Rattle.sym_expr.specs.Pools.{AllBelow, Grows, expr_of_id};
ghost use Rattle.route_trace.specs.Inner.Heads.{binary_head, binary_parts, head_parts, head_expr};
ghost use Rattle.route_trace.specs.Inner.Routing.{AllFit, AllBinaryFit, pairs};
ghost use Rattle.route_trace.specs.Inner.Stops.{IfMany, IsOver};
ghost use Rattle.transfer_set.specs.Routes.{IsRouteTable, exprs_under, models_under};

use crate::first::without;
use crate::heads::{Binary, with_first};
use crate::lookup::{held_words, place_of};
use crate::product::{Operation, add_all};
use crate::stop::TraceStop;
use bit_bdd::{Book, SetId};
use rec_bits::Items;
use std::alloc::Global;
use sym_expr::Pool;
use transfer_set::Route;

// A set of words, of which those that are in another are taken.
#[derive(Clone, Copy)]
struct Cut {
    set: SetId,
    part: SetId,
}

// Adds the words of a set that are in another, with what an operator gives them, and gives the
// other words of the set.
fn add_part(
    alloc: Global,
    book: &mut Book,
    pool: &mut Pool,
    out: &mut Items<Route>,
    cut: Cut,
    operation: &Operation<'_>,
) -> Result<SetId, TraceStop>
    requires set { cut.set < length book.old.nodes }
    requires part { cut.part < length book.old.nodes }
    requires parts { AllBelow (length pool.old) (head_parts operation.now.head) }
    requires source { IsRouteTable book.old pool.old operation.now.routes.now }
    requires one { (word : ℕ) → word < 2 ^ book.old.bits →
        length (exprs_under book.old operation.now.routes.now word) ≤ 1 }
    requires fits { AllFit operation.now.head pool.old operation.now.routes.now }
    requires table { IsRouteTable book.old pool.old out.old }
    requires apart { (word : ℕ) → word < 2 ^ book.old.bits →
        (has_word book.old cut.set word && has_word book.old cut.part word) ≡ true →
        exprs_under book.old out.old word ≡ [] }
    ensures book { Extends book.old book.new }
    ensures pool { Grows pool.old pool.new }
    ensures table { OnOk result (IsRouteTable book.new pool.new out.new) }
    ensures exprs { OnOk result ((word : ℕ) → word < 2 ^ book.old.bits →
        models_under book.new pool.new out.new word
        ≡ (if has_word book.old cut.set word && has_word book.old cut.part word
        then map (head_expr operation.now.head (expr_of_id pool.old))
        (models_under book.old pool.old operation.now.routes.now word)
        else models_under book.old pool.old out.old word)) }
    ensures left_within { IfOk result (λ left. left < length book.new.nodes) }
    ensures left { IfOk result (λ left. (word : ℕ) →
        has_word book.new left word ≡ (has_word book.old cut.set word && not (has_word book.old cut.part word))) }
    ensures many { IfErr result (λ stop. IfMany stop (IsOver book.new pool.new
        (λ word exprs. exprs ≡ (if has_word book.old cut.set word && has_word book.old cut.part word
        then map (head_expr operation.now.head (expr_of_id pool.old))
        (models_under book.old pool.old operation.now.routes.now word)
        else models_under book.old pool.old out.old word)))) }
{
    let left = without(alloc, book, cut.set, cut.part)?;
    let both = book.and(alloc, cut.set, cut.part)?;
    add_all(alloc, book, pool, out, both, operation)?;
    Ok(left)
}

// An operator over the routes of its last two operands.
#[derive(Clone, Copy)]
pub(crate) struct BinaryOperation<'a> {
    pub binary: Binary,
    pub firsts: &'a [Route],
    pub seconds: &'a [Route],
}

// Adds the words of a set, with what an operator gives them. Only pairs of routes with a word of
// the set are looked up, and the second of a pair from the place of the first on.
pub(crate) fn add_pairs(
    alloc: Global,
    book: &mut Book,
    pool: &mut Pool,
    out: &mut Items<Route>,
    set: SetId,
    operation: &BinaryOperation<'_>,
) -> Result<(), TraceStop>
    requires set { set < length book.old.nodes }
    requires parts { AllBelow (length pool.old) (binary_parts operation.now.binary) }
    requires first { IsRouteTable book.old pool.old operation.now.firsts.now }
    requires first_one { (word : ℕ) → word < 2 ^ book.old.bits →
        length (exprs_under book.old operation.now.firsts.now word) ≤ 1 }
    requires second { IsRouteTable book.old pool.old operation.now.seconds.now }
    requires second_one { (word : ℕ) → word < 2 ^ book.old.bits →
        length (exprs_under book.old operation.now.seconds.now word) ≤ 1 }
    requires fits { AllBinaryFit operation.now.binary pool.old operation.now.firsts.now operation.now.seconds.now }
    requires table { IsRouteTable book.old pool.old out.old }
    requires apart { (word : ℕ) → word < 2 ^ book.old.bits → has_word book.old set word ≡ true →
        exprs_under book.old out.old word ≡ [] }
    ensures book { Extends book.old book.new }
    ensures pool { Grows pool.old pool.new }
    ensures table { OnOk result (IsRouteTable book.new pool.new out.new) }
    ensures exprs { OnOk result ((word : ℕ) → word < 2 ^ book.old.bits →
        models_under book.new pool.new out.new word
        ≡ (if has_word book.old set word
        then pairs operation.now.binary (expr_of_id pool.old)
        (models_under book.old pool.old operation.now.firsts.now word)
        (models_under book.old pool.old operation.now.seconds.now word)
        else models_under book.old pool.old out.old word)) }
    ensures many { IfErr result (λ stop. IfMany stop (IsOver book.new pool.new
        (λ word exprs. exprs ≡ (if has_word book.old set word
        then pairs operation.now.binary (expr_of_id pool.old)
        (models_under book.old pool.old operation.now.firsts.now word)
        (models_under book.old pool.old operation.now.seconds.now word)
        else models_under book.old pool.old out.old word)))) }
{
    let mut left = set;
    let mut start = 0;
    while let Some(word) = book.least(left) {
        let Some(place) = place_of(book, operation.firsts, start, word) else {
            left = held_words(alloc, book, left, operation.firsts)?;
            continue;
        };
        let route = operation.firsts[place];
        let head = with_first(operation.binary, route.expr);
        let cut = Cut {
            set: left,
            part: route.set,
        };
        let under_first = Operation {
            head,
            routes: operation.seconds,
            start: place,
        };
        left = add_part(alloc, book, pool, out, cut, &under_first)?;
        start = place;
    }
    Ok(())
}
