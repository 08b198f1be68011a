//! A choice between two operands by a selector of one bit.

ghost use Rattle.std.specs.Prelude.{◌≡◌, ℕ, ◌+◌, ◌^◌, ◌<◌, ◌≤◌, [], length, IfErr, OnOk, true, if◌then◌else◌};
ghost use Rattle.bit_bdd.specs.Diagrams.{Extends, has_word};
ghost use Rattle.sym_expr.specs.Pools.{Grows, expr_of_id};
ghost use Rattle.transfer_set.specs.Routes.{IsRouteTable, exprs_under, models_under};
ghost use Rattle.route_trace.specs.Inner.Selects.{AllSelectFit, selects};
ghost use Rattle.route_trace.specs.Inner.Stops.{IfMany, IsOver};

use crate::heads::Binary;
use crate::pairs::{BinaryOperation, add_pairs};
use crate::stop::TraceStop;
use bit_bdd::{Book, SetId};
use rec_bits::Items;
use std::alloc::Global;
use sym_expr::Pool;
use transfer_set::Route;

// The routes of a selector of one bit, and of the operands between which it chooses.
#[derive(Clone, Copy)]
pub(crate) struct Selection<'a> {
    pub choices: &'a [Route],
    pub firsts: &'a [Route],
    pub seconds: &'a [Route],
}

// Adds the words of a set, with what a choice gives them.
pub(crate) fn add_selects(
    alloc: Global,
    book: &mut Book,
    pool: &mut Pool,
    out: &mut Items<Route>,
    set: SetId,
    selection: &Selection<'_>,
) -> Result<(), TraceStop>
    requires set { set < length book.old.nodes }
    requires choice { IsRouteTable book.old pool.old selection.now.choices.now }
    requires choice_one { (word : ℕ) → word < 2 ^ book.old.bits →
        length (exprs_under book.old selection.now.choices.now word) ≤ 1 }
    requires first { IsRouteTable book.old pool.old selection.now.firsts.now }
    requires first_one { (word : ℕ) → word < 2 ^ book.old.bits →
        length (exprs_under book.old selection.now.firsts.now word) ≤ 1 }
    requires second { IsRouteTable book.old pool.old selection.now.seconds.now }
    requires second_one { (word : ℕ) → word < 2 ^ book.old.bits →
        length (exprs_under book.old selection.now.seconds.now word) ≤ 1 }
    requires fits { AllSelectFit pool.old selection.now.choices.now selection.now.firsts.now selection.now.seconds.now }
    requires table { IsRouteTable book.old pool.old out.old }
    requires apart { (word : ℕ) → word < 2 ^ book.old.bits → has_word book.old set word ≡ true →
        exprs_under book.old out.old word ≡ [] }
    ensures book { Extends book.old book.new }
    ensures pool { Grows pool.old pool.new }
    ensures table { OnOk result (IsRouteTable book.new pool.new out.new) }
    ensures exprs { OnOk result ((word : ℕ) → word < 2 ^ book.old.bits →
        models_under book.new pool.new out.new word
        ≡ (if has_word book.old set word
        then selects (models_under book.old pool.old selection.now.choices.now word)
        (models_under book.old pool.old selection.now.firsts.now word)
        (models_under book.old pool.old selection.now.seconds.now word)
        else models_under book.old pool.old out.old word)) }
    ensures many { IfErr result (λ stop. IfMany stop (IsOver book.new pool.new
        (λ word exprs. exprs ≡ (if has_word book.old set word
        then selects (models_under book.old pool.old selection.now.choices.now word)
        (models_under book.old pool.old selection.now.firsts.now word)
        (models_under book.old pool.old selection.now.seconds.now word)
        else models_under book.old pool.old out.old word)))) }
{
    for route in selection.choices {
        let both = book.and(alloc, set, route.set)?;
        let operation = BinaryOperation {
            binary: Binary::Select(route.expr),
            firsts: selection.firsts,
            seconds: selection.seconds,
        };
        add_pairs(alloc, book, pool, out, both, &operation)?;
    }
    Ok(())
}
