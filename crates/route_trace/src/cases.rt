//! The routes of cases and buses.

ghost use Rattle.std.specs.Prelude.{◌≡◌, ℕ, ◌^◌, ◌<◌, ◌≤◌, [], ◌∷◌, Bool, length, IfErr, IfOk, if◌then◌else◌};
ghost use Rattle.std.specs.List.{AllByRecursion};
ghost use Rattle.bit_bdd.specs.Diagrams.{Extends, has_word};
ghost use Rattle.net_model.specs.Exprs.{ExprModel};
ghost use Rattle.net_model.specs.Symbolic.{bus_expr};
ghost use Rattle.net_model.specs.Nets.{driver_nets, row_nets};
ghost use Rattle.sym_expr.specs.Pools.{Grows};
ghost use Rattle.ctl_bdd.specs.Bits.{AreSets};
ghost use Rattle.transfer_set.specs.Routes.{IsRouteTable, exprs_under, models_under, only, routes_at};
ghost use Rattle.route_trace.specs.Inner.Gates.{AllGive, AllWide};
ghost use Rattle.route_trace.specs.Inner.Routing.{AreTables};
ghost use Rattle.route_trace.specs.Inner.Selects.{selects};
ghost use Rattle.route_trace.specs.Inner.Stops.{IfMany, IsOver};
ghost use Rattle.route_trace.specs.Inner.Tests.{AreEnabledAt, AreRowsWide, IsSelectedAt, IsTargetWide, case_term, sets_in, target, target_exprs};

use crate::decide::{driver_tests, row_tests, sets_of};
use crate::gates::{Decision, leaf_routes};
use crate::selects::{Selection, add_selects};
use crate::stop::TraceStop;
use crate::tracer::Tracer;
use bit_bdd::Book;
use rec_bits::{Items, NoMemory};
use std::alloc::Global;
use sym_expr::{Node, Pool};
use transfer_set::Route;

// The net of a case's row with a number, or that of the rest.
fn target_of(rows: &[(u64, u32)], key: u64, rest: Option<u32>) -> Option<u32>
    ensures { result ≡ target rows.now key rest }
{
    for row in rows {
        if row.0 == key {
            return Some(row.1);
        }
    }
    rest
}

// A choice by a selector of one bit between the nets of two rows. A row without one has the
// constant 0.
#[derive(Clone, Copy)]
struct Choice {
    sel: u32,
    one: Option<u32>,
    zero: Option<u32>,
    width: u8,
}

// A case of a width: the net for each number of its selector, and that for the rest.
#[derive(Clone, Copy)]
pub(crate) struct Case<'a> {
    pub sel: u32,
    pub rows: &'a [(u64, u32)],
    pub rest: Option<u32>,
    pub width: u8,
}

impl Tracer<'_> {
    // The routes of the net of a row, or of the constant 0.
    fn row_routes(
        &self,
        alloc: Global,
        book: &mut Book,
        pool: &mut Pool,
        net: Option<u32>,
        width: u8,
    ) -> Result<Items<Route>, NoMemory>
        requires legal { self.now.controls.now.legal < length book.old.nodes }
        requires nets { AreTables book.old pool.old self.now.nets.now }
        requires wide { IsTargetWide pool.old self.now.nets.now width net }
        requires low { 1 ≤ width }
        requires high { width ≤ 64 }
        ensures book { Extends book.old book.new }
        ensures pool { Grows pool.old pool.new }
        ensures table { IfOk result (λ out. IsRouteTable book.new pool.new out) }
        ensures one { IfOk result (λ out.
            (word : ℕ) → word < 2 ^ book.old.bits → length (exprs_under book.new out word) ≤ 1) }
        ensures wide { IfOk result (λ out. AllWide pool.new width out) }
        ensures exprs { IfOk result (λ out. (word : ℕ) → word < 2 ^ book.old.bits →
            models_under book.new pool.new out word
            ≡ target_exprs book.old pool.old self.now.nets.now self.now.controls.now.legal width net word) }
    {
        match net {
            Some(net) => {
                let out = Items::from_slice(alloc, self.routes_of(net))?;
                Ok(out)
            }
            None => {
                let zero = Node::Const { width, value: 0 };
                let out = leaf_routes(alloc, book, pool, self.controls.legal, zero)?;
                Ok(out)
            }
        }
    }

    // The routes of a choice.
    fn select_routes(
        &self,
        alloc: Global,
        book: &mut Book,
        pool: &mut Pool,
        choice: Choice,
    ) -> Result<Items<Route>, TraceStop>
        requires legal { self.now.controls.now.legal < length book.old.nodes }
        requires nets { AreTables book.old pool.old self.now.nets.now }
        requires bit { AllWide pool.old 1 (routes_at self.now.nets.now choice.sel) }
        requires one { IsTargetWide pool.old self.now.nets.now choice.width choice.one }
        requires zero { IsTargetWide pool.old self.now.nets.now choice.width choice.zero }
        requires low { 1 ≤ choice.width }
        requires high { choice.width ≤ 64 }
        ensures book { Extends book.old book.new }
        ensures pool { Grows pool.old pool.new }
        ensures table { IfOk result (λ out. IsRouteTable book.new pool.new out) }
        ensures exprs { IfOk result (λ out. (word : ℕ) → word < 2 ^ book.old.bits →
            models_under book.new pool.new out word
            ≡ (if has_word book.old self.now.controls.now.legal word
            then selects (models_under book.old pool.old (routes_at self.now.nets.now choice.sel) word)
            (target_exprs book.old pool.old self.now.nets.now self.now.controls.now.legal choice.width choice.one word)
            (target_exprs book.old pool.old self.now.nets.now self.now.controls.now.legal choice.width choice.zero word)
            else [])) }
        ensures many { IfErr result (λ stop. IfMany stop (IsOver book.new pool.new
            (λ word exprs. exprs ≡ (if has_word book.old self.now.controls.now.legal word
            then selects (models_under book.old pool.old (routes_at self.now.nets.now choice.sel) word)
            (target_exprs book.old pool.old self.now.nets.now self.now.controls.now.legal choice.width choice.one word)
            (target_exprs book.old pool.old self.now.nets.now self.now.controls.now.legal choice.width choice.zero word)
            else [])))) }
    {
        let ones = self.row_routes(alloc, book, pool, choice.one, choice.width)?;
        let zeros = self.row_routes(alloc, book, pool, choice.zero, choice.width)?;
        let choices = self.routes_of(choice.sel);
        let mut out = Items::new(alloc);
        let selection = Selection {
            choices,
            firsts: ones.as_slice(),
            seconds: zeros.as_slice(),
        };
        add_selects(alloc, book, pool, &mut out, self.controls.legal, &selection)?;
        Ok(out)
    }

    // The routes of a case: by its tests where the selector has sets, and by the selector's
    // expressions otherwise.
    pub(crate) fn case_routes(
        &self,
        alloc: Global,
        book: &mut Book,
        pool: &mut Pool,
        case: &Case<'_>,
    ) -> Result<Items<Route>, TraceStop>
        requires legal { self.now.controls.now.legal < length book.old.nodes }
        requires nets { AreTables book.old pool.old self.now.nets.now }
        requires sets { AreSets book.old (sets_in self.now.controls.now.bits case.now.sel) }
        requires few { length (sets_in self.now.controls.now.bits case.now.sel) ≤ 64 }
        requires keys { 0 < length (sets_in self.now.controls.now.bits case.now.sel) →
            AllByRecursion (λ row. row.0 < 2 ^ length (sets_in self.now.controls.now.bits case.now.sel))
            case.now.rows.now }
        requires bit { sets_in self.now.controls.now.bits case.now.sel ≡ [] →
            AllWide pool.old 1 (routes_at self.now.nets.now case.now.sel) }
        requires wide { AreRowsWide pool.old self.now.nets.now case.now.width case.now.rows.now case.now.rest }
        requires low { 1 ≤ case.now.width }
        requires high { case.now.width ≤ 64 }
        ensures book { Extends book.old book.new }
        ensures pool { Grows pool.old pool.new }
        ensures table { IfOk result (λ out. IsRouteTable book.new pool.new out) }
        ensures exprs { IfOk result (λ out. (t : ℕ → ExprModel) → (u : ℕ → ℕ) → (f : ℕ → Bool) →
            (word : ℕ) → word < 2 ^ book.old.bits →
            AllGive book.old pool.old self.now.nets.now self.now.controls.now.legal t word
            (case.now.sel ∷ row_nets case.now.rows.now case.now.rest) →
            IsSelectedAt book.old (sets_in self.now.controls.now.bits case.now.sel) word u f case.now.sel →
            models_under book.new pool.new out word
            ≡ only book.old self.now.controls.now.legal word
            (case_term t u f case.now.width case.now.sel case.now.rows.now case.now.rest)) }
        ensures many { IfErr result (λ stop. IfMany stop (IsOver book.new pool.new
            (λ word exprs. (t : ℕ → ExprModel) → (u : ℕ → ℕ) → (f : ℕ → Bool) →
            AllGive book.old pool.old self.now.nets.now self.now.controls.now.legal t word
            (case.now.sel ∷ row_nets case.now.rows.now case.now.rest) →
            IsSelectedAt book.old (sets_in self.now.controls.now.bits case.now.sel) word u f case.now.sel →
            exprs ≡ only book.old self.now.controls.now.legal word
            (case_term t u f case.now.width case.now.sel case.now.rows.now case.now.rest)))) }
    {
        let bits = sets_of(self.controls, case.sel);
        if bits.is_empty() {
            let one = target_of(case.rows, 1, case.rest);
            let zero = target_of(case.rows, 0, case.rest);
            let choice = Choice {
                sel: case.sel,
                one,
                zero,
                width: case.width,
            };
            return self.select_routes(alloc, book, pool, choice);
        }
        let tests = row_tests(alloc, book, bits, case.rows)?;
        let decision = Decision {
            tests: tests.as_slice(),
            rest: case.rest,
            width: case.width,
        };
        self.routes_of_first(alloc, book, pool, &decision)
    }

    // The routes of a bus.
    pub(crate) fn bus_routes(
        &self,
        alloc: Global,
        book: &mut Book,
        pool: &mut Pool,
        drivers: &[(u32, u32)],
        width: u8,
    ) -> Result<Items<Route>, TraceStop>
        requires legal { self.now.controls.now.legal < length book.old.nodes }
        requires nets { AreTables book.old pool.old self.now.nets.now }
        requires sets { AllByRecursion
            (λ driver. AreSets book.old (sets_in self.now.controls.now.bits driver.1)) drivers.now }
        requires one { AllByRecursion
            (λ driver. length (sets_in self.now.controls.now.bits driver.1) ≡ 1) drivers.now }
        requires low { 1 ≤ width }
        requires high { width ≤ 64 }
        ensures book { Extends book.old book.new }
        ensures pool { Grows pool.old pool.new }
        ensures table { IfOk result (λ out. IsRouteTable book.new pool.new out) }
        ensures exprs { IfOk result (λ out. (t : ℕ → ExprModel) → (u : ℕ → ℕ) → (word : ℕ) →
            word < 2 ^ book.old.bits →
            AllGive book.old pool.old self.now.nets.now self.now.controls.now.legal t word (driver_nets drivers.now) →
            AreEnabledAt book.old self.now.controls.now.bits word u drivers.now →
            models_under book.new pool.new out word
            ≡ only book.old self.now.controls.now.legal word (bus_expr t u width drivers.now)) }
        ensures many { IfErr result (λ stop. IfMany stop (IsOver book.new pool.new
            (λ word exprs. (t : ℕ → ExprModel) → (u : ℕ → ℕ) →
            AllGive book.old pool.old self.now.nets.now self.now.controls.now.legal t word (driver_nets drivers.now) →
            AreEnabledAt book.old self.now.controls.now.bits word u drivers.now →
            exprs ≡ only book.old self.now.controls.now.legal word (bus_expr t u width drivers.now)))) }
    {
        let tests = driver_tests(alloc, book, self.controls, drivers)?;
        let decision = Decision {
            tests: tests.as_slice(),
            rest: None,
            width,
        };
        self.routes_of_first(alloc, book, pool, &decision)
    }
}
