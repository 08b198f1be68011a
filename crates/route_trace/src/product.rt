//! Products of routes: operators over operands that have routes.

ghost use Rattle.std.specs.Prelude.{◌≡◌, ℕ, ◌+◌, ◌^◌, ◌<◌, ◌≤◌, ◌&&◌, not, [], ◌∷◌, map, length, IfErr, IfOk, OnOk, true, if◌then◌else◌};
ghost use Rattle.bit_bdd.specs.Diagrams.{Extends, has_word};
ghost use Rattle.net_model.specs.Exprs.{expr_width};
ghost use Rattle.sym_expr.specs.Pools.{AllBelow, Grows, expr_of_id};
ghost use Rattle.route_trace.specs.Inner.Heads.{LastFits, head_parts, head_expr};
ghost use Rattle.route_trace.specs.Inner.Lookups.{Meet};
ghost use Rattle.route_trace.specs.Inner.Routing.{AllFit};
ghost use Rattle.route_trace.specs.Inner.Stops.{IfMany, IsOver};
ghost use Rattle.transfer_set.specs.Routes.{IsRouteTable, exprs_under, models_under};

use crate::first::without;
use crate::heads::{Head, close};
use crate::lookup::{held_words, place_of};
use crate::merge::add_route;
use crate::stop::TraceStop;
use crate::verdict::MOST_VALUES;
use bit_bdd::{Book, SetId};
use rec_bits::{Items, NoMemory};
use std::alloc::Global;
use sym_expr::Pool;
use transfer_set::Route;

// An operator over one route of its last operand.
#[derive(Clone, Copy)]
struct HeadedRoute {
    head: Head,
    route: Route,
}

// Adds the words of a set that are in a route, with the route's expression under its head, and
// gives the other words of the set. There are such words.
fn add_one(
    alloc: Global,
    book: &mut Book,
    pool: &mut Pool,
    out: &mut Items<Route>,
    set: SetId,
    last: HeadedRoute,
) -> Result<SetId, NoMemory>
    requires set { set < length book.old.nodes }
    requires parts { AllBelow (length pool.old) (head_parts last.head) }
    requires route_set { last.route.set < length book.old.nodes }
    requires route_expr { last.route.expr < length pool.old }
    requires meet { Meet book.old set last.route.set }
    requires fits { LastFits last.head (expr_of_id pool.old) (expr_width (expr_of_id pool.old last.route.expr)) }
    requires table { IsRouteTable book.old pool.old out.old }
    requires apart { (word : ℕ) → word < 2 ^ book.old.bits →
        (has_word book.old set word && has_word book.old last.route.set word) ≡ true →
        exprs_under book.old out.old word ≡ [] }
    ensures book { Extends book.old book.new }
    ensures pool { Grows pool.old pool.new }
    ensures table { OnOk result (IsRouteTable book.new pool.new out.new) }
    ensures exprs { OnOk result ((word : ℕ) → word < 2 ^ book.old.bits →
        models_under book.new pool.new out.new word
        ≡ (if has_word book.old set word && has_word book.old last.route.set word
        then head_expr last.head (expr_of_id pool.old) (expr_of_id pool.old last.route.expr) ∷ []
        else models_under book.old pool.old out.old word)) }
    ensures left_within { IfOk result (λ left. left < length book.new.nodes) }
    ensures left { IfOk result (λ left. (word : ℕ) →
        has_word book.new left word ≡ (has_word book.old set word && not (has_word book.old last.route.set word))) }
{
    let left = without(alloc, book, set, last.route.set)?;
    let both = book.and(alloc, set, last.route.set)?;
    let expr = close(alloc, pool, last.head, last.route.expr)?;
    add_route(alloc, book, out, expr, both)?;
    Ok(left)
}

// An operator over the routes of its last operand, which are looked up from the place `start` on.
#[derive(Clone, Copy)]
pub(crate) struct Operation<'a> {
    pub head: Head,
    pub routes: &'a [Route],
    pub start: usize,
}

// Adds the words of a set, with what an operator gives them, and gives up once there are too many
// routes. Only routes with a word of the set are looked up, by the least word that is left.
pub(crate) fn add_all(
    alloc: Global,
    book: &mut Book,
    pool: &mut Pool,
    out: &mut Items<Route>,
    set: SetId,
    operation: &Operation<'_>,
) -> Result<(), TraceStop>
    requires set { set < length book.old.nodes }
    requires parts { AllBelow (length pool.old) (head_parts operation.now.head) }
    requires source { IsRouteTable book.old pool.old operation.now.routes.now }
    requires one { (word : ℕ) → word < 2 ^ book.old.bits →
        length (exprs_under book.old operation.now.routes.now word) ≤ 1 }
    requires fits { AllFit operation.now.head pool.old operation.now.routes.now }
    requires table { IsRouteTable book.old pool.old out.old }
    requires apart { (word : ℕ) → word < 2 ^ book.old.bits → has_word book.old set word ≡ true →
        exprs_under book.old out.old word ≡ [] }
    ensures book { Extends book.old book.new }
    ensures pool { Grows pool.old pool.new }
    ensures table { OnOk result (IsRouteTable book.new pool.new out.new) }
    ensures exprs { OnOk result ((word : ℕ) → word < 2 ^ book.old.bits →
        models_under book.new pool.new out.new word
        ≡ (if has_word book.old set word
        then map (head_expr operation.now.head (expr_of_id pool.old))
        (models_under book.old pool.old operation.now.routes.now word)
        else models_under book.old pool.old out.old word)) }
    ensures many { IfErr result (λ stop. IfMany stop (IsOver book.new pool.new
        (λ word exprs. exprs ≡ (if has_word book.old set word
        then map (head_expr operation.now.head (expr_of_id pool.old))
        (models_under book.old pool.old operation.now.routes.now word)
        else models_under book.old pool.old out.old word)))) }
{
    let mut left = set;
    let mut start = operation.start;
    while let Some(word) = book.least(left) {
        if out.len() > MOST_VALUES {
            return Err(TraceStop::Many);
        }
        let Some(place) = place_of(book, operation.routes, start, word) else {
            left = held_words(alloc, book, left, operation.routes)?;
            continue;
        };
        let last = HeadedRoute {
            head: operation.head,
            route: operation.routes[place],
        };
        left = add_one(alloc, book, pool, out, left, last)?;
        start = place;
    }
    Ok(())
}
