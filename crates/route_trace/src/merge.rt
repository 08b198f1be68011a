//! A route is added to a list of routes, or merged with that of its expression.

ghost use Rattle.std.specs.Prelude.{◌≡◌, ℕ, ◌^◌, ◌==◌, ◌<◌, ◌≤◌, [], position, ◌∷◌, length, IfOk, OnOk, true, if◌then◌else◌};
ghost use Rattle.bit_bdd.specs.Diagrams.{Extends, has_word};
ghost use Rattle.transfer_set.specs.Routes.{AllExprs, IsRoutes, IsSet, exprs_under};

use bit_bdd::{Book, SetId};
use rec_bits::{Items, NoMemory};
use std::alloc::Global;
use sym_expr::ExprId;
use transfer_set::Route;

// The place of the route with an expression.
fn find(routes: &[Route], expr: ExprId) -> Option<usize>
    ensures { result ≡ position (λ route. route.expr == expr) routes.now }
{
    routes.iter().position(|route| route.expr == expr)
}

// Adds words that give an expression, of which none is in a route.
pub(crate) fn add_route(
    alloc: Global,
    book: &mut Book,
    out: &mut Items<Route>,
    expr: ExprId,
    set: SetId,
) -> Result<(), NoMemory>
    requires set { IsSet book.old set }
    requires routes { IsRoutes book.old out.old }
    requires apart { (word : ℕ) → word < 2 ^ book.old.bits → has_word book.old set word ≡ true →
        exprs_under book.old out.old word ≡ [] }
    ensures grows { Extends book.old book.new }
    ensures routes { OnOk result (IsRoutes book.new out.new) }
    ensures exprs { OnOk result ((size : ℕ) → expr < size → AllExprs size out.old → AllExprs size out.new) }
    ensures by_word { OnOk result ((word : ℕ) → word < 2 ^ book.old.bits →
        exprs_under book.new out.new word
        ≡ (if has_word book.old set word then expr ∷ [] else exprs_under book.old out.old word)) }
{
    match find(out.as_slice(), expr) {
        Some(place) => {
            let old = out.as_slice()[place].set;
            let both = book.or(alloc, old, set)?;
            out.set(place, Route { expr, set: both });
            Ok(())
        }
        None => {
            out.push(Route { expr, set })?;
            Ok(())
        }
    }
}
