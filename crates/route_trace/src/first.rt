//! The routes of the first net whose test holds.

ghost use Rattle.std.specs.Prelude.{◌≡◌, ℕ, ◌+◌, ◌^◌, ◌<◌, ◌≤◌, ◌&&◌, not, [], length, IfErr, IfOk, OnOk, true, if◌then◌else◌};
ghost use Rattle.bit_bdd.specs.Diagrams.{Extends, has_word};
ghost use Rattle.sym_expr.specs.Pools.{Grows};
ghost use Rattle.route_trace.specs.Inner.Routing.{AllTests, AreTables, first_exprs, passes};
ghost use Rattle.route_trace.specs.Inner.Stops.{IfMany, IsOver};
ghost use Rattle.transfer_set.specs.Routes.{IsRouteTable, exprs_under, models_under};

use crate::heads::Head;
use crate::product::{Operation, add_all};
use crate::stop::TraceStop;
use crate::tracer::Tracer;
use bit_bdd::{Book, SetId};
use rec_bits::{Items, NoMemory};
use std::alloc::Global;
use sym_expr::Pool;
use transfer_set::Route;

// The words of a set that are not in another.
pub(crate) fn without(
    alloc: Global,
    book: &mut Book,
    set: SetId,
    other: SetId,
) -> Result<SetId, NoMemory>
    requires set { set < length book.old.nodes }
    requires other { other < length book.old.nodes }
    ensures book { Extends book.old book.new }
    ensures within { IfOk result (λ id. id < length book.new.nodes) }
    ensures words { IfOk result (λ id.
        (word : ℕ) → has_word book.new id word ≡ (has_word book.old set word && not (has_word book.old other word))) }
{
    let outside = book.not(alloc, other)?;
    book.and(alloc, set, outside)
}

impl Tracer<'_> {
    // Adds the words without clash, each with the routes of the first net whose test holds it, and
    // gives the words that no test holds.
    pub(crate) fn add_first(
        &self,
        alloc: Global,
        book: &mut Book,
        pool: &mut Pool,
        out: &mut Items<Route>,
        tests: &[(SetId, u32)],
    ) -> Result<SetId, TraceStop>
        requires legal { self.now.controls.now.legal < length book.old.nodes }
        requires tests { AllTests book.old tests.now }
        requires nets { AreTables book.old pool.old self.now.nets.now }
        requires table { IsRouteTable book.old pool.old out.old }
        requires apart { (word : ℕ) → word < 2 ^ book.old.bits →
            has_word book.old self.now.controls.now.legal word ≡ true →
            exprs_under book.old out.old word ≡ [] }
        ensures book { Extends book.old book.new }
        ensures pool { Grows pool.old pool.new }
        ensures table { OnOk result (IsRouteTable book.new pool.new out.new) }
        ensures exprs { OnOk result ((word : ℕ) → word < 2 ^ book.old.bits →
            models_under book.new pool.new out.new word
            ≡ (if has_word book.old self.now.controls.now.legal word
            then first_exprs book.old pool.old self.now.nets.now word tests.now
            else models_under book.old pool.old out.old word)) }
        ensures left_within { IfOk result (λ left. left < length book.new.nodes) }
        ensures left { IfOk result (λ left. (word : ℕ) → word < 2 ^ book.old.bits →
            has_word book.new left word
            ≡ (has_word book.old self.now.controls.now.legal word && not (passes book.old word tests.now))) }
        ensures many { IfErr result (λ stop. IfMany stop (IsOver book.new pool.new
            (λ word exprs. exprs ≡ (if has_word book.old self.now.controls.now.legal word
            then first_exprs book.old pool.old self.now.nets.now word tests.now
            else models_under book.old pool.old out.old word)))) }
    {
        let mut left = self.controls.legal;
        for test in tests {
            let here = book.and(alloc, left, test.0)?;
            let routes = self.routes_of(test.1);
            let operation = Operation {
                head: Head::Same,
                routes,
                start: 0,
            };
            add_all(alloc, book, pool, out, here, &operation)?;
            left = without(alloc, book, left, test.0)?;
        }
        Ok(left)
    }
}
