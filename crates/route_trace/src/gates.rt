//! The routes of a gate.

ghost use Rattle.std.specs.Prelude.{◌≡◌, ℕ, ◌+◌, ◌^◌, ◌<◌, ◌≤◌, ◌&&◌, not, [], ◌∷◌, map, length, IfErr, IfOk, OnOk, true, if◌then◌else◌};
ghost use Rattle.bit_bdd.specs.Diagrams.{Extends, has_word};
ghost use Rattle.sym_expr.specs.Pools.{AllBelow, Grows, HeadFits, node_expr, children_of, expr_of_id};
ghost use Rattle.route_trace.specs.Inner.Heads.{binary_parts, head_parts, head_expr};
ghost use Rattle.route_trace.specs.Inner.Routing.{AllFit, AllTests, AllBinaryFit, AreTables, first_exprs, passes, pairs};
ghost use Rattle.route_trace.specs.Inner.Stops.{IfMany, IsOver};
ghost use Rattle.transfer_set.specs.Routes.{IsRouteTable, exprs_under, models_under, routes_at};
ghost use Rattle.route_trace.specs.Inner.Gates.{rest_exprs};

use crate::heads::{Binary, Head};
use crate::merge::add_route;
use crate::pairs::{BinaryOperation, add_pairs};
use crate::product::{Operation, add_all};
use crate::stop::TraceStop;
use crate::tracer::Tracer;
use bit_bdd::{Book, SetId};
use rec_bits::{Items, NoMemory};
use std::alloc::Global;
use sym_expr::{Node, Pool};
use transfer_set::Route;

// Adds the words of a set, with an expression that has no operands.
fn add_leaf(
    alloc: Global,
    book: &mut Book,
    pool: &mut Pool,
    out: &mut Items<Route>,
    set: SetId,
    node: Node,
) -> Result<(), NoMemory>
    requires set { set < length book.old.nodes }
    requires leaf { children_of node ≡ [] }
    requires fits { HeadFits (node_expr node (expr_of_id pool.old)) }
    requires table { IsRouteTable book.old pool.old out.old }
    requires apart { (word : ℕ) → word < 2 ^ book.old.bits → has_word book.old set word ≡ true →
        exprs_under book.old out.old word ≡ [] }
    ensures book { Extends book.old book.new }
    ensures pool { Grows pool.old pool.new }
    ensures table { OnOk result (IsRouteTable book.new pool.new out.new) }
    ensures exprs { OnOk result ((word : ℕ) → word < 2 ^ book.old.bits →
        models_under book.new pool.new out.new word
        ≡ (if has_word book.old set word then node_expr node (expr_of_id pool.old) ∷ []
        else models_under book.old pool.old out.old word)) }
{
    match book.least(set) {
        None => Ok(()),
        Some(_) => {
            let expr = pool.intern(alloc, node)?;
            add_route(alloc, book, out, expr, set)?;
            Ok(())
        }
    }
}

// The routes of an expression that has no operands.
pub(crate) fn leaf_routes(
    alloc: Global,
    book: &mut Book,
    pool: &mut Pool,
    legal: SetId,
    node: Node,
) -> Result<Items<Route>, NoMemory>
    requires legal { legal < length book.old.nodes }
    requires leaf { children_of node ≡ [] }
    requires fits { HeadFits (node_expr node (expr_of_id pool.old)) }
    ensures book { Extends book.old book.new }
    ensures pool { Grows pool.old pool.new }
    ensures table { IfOk result (λ out. IsRouteTable book.new pool.new out) }
    ensures exprs { IfOk result (λ out. (word : ℕ) → word < 2 ^ book.old.bits →
        models_under book.new pool.new out word
        ≡ (if has_word book.old legal word then node_expr node (expr_of_id pool.old) ∷ [] else [])) }
{
    let mut out = Items::new(alloc);
    add_leaf(alloc, book, pool, &mut out, legal, node)?;
    Ok(out)
}

// An operator over two nets.
#[derive(Clone, Copy)]
pub(crate) struct BinaryGate {
    pub binary: Binary,
    pub a: u32,
    pub b: u32,
}

// What decides between nets.
#[derive(Clone, Copy)]
pub(crate) struct Decision<'a> {
    // Tests, each with the net that is taken where it is the first that holds.
    pub tests: &'a [(SetId, u32)],
    // The net that is taken where none holds; the constant 0 where there is none.
    pub rest: Option<u32>,
    // The width of the nets.
    pub width: u8,
}

impl Tracer<'_> {
    // The routes of an operator over one operand.
    pub(crate) fn routes_under(
        &self,
        alloc: Global,
        book: &mut Book,
        pool: &mut Pool,
        head: Head,
        a: u32,
    ) -> Result<Items<Route>, TraceStop>
        requires legal { self.now.controls.now.legal < length book.old.nodes }
        requires parts { AllBelow (length pool.old) (head_parts head) }
        requires nets { AreTables book.old pool.old self.now.nets.now }
        requires fits { AllFit head pool.old (routes_at self.now.nets.now a) }
        ensures book { Extends book.old book.new }
        ensures pool { Grows pool.old pool.new }
        ensures table { IfOk result (λ out. IsRouteTable book.new pool.new out) }
        ensures exprs { IfOk result (λ out. (word : ℕ) → word < 2 ^ book.old.bits →
            models_under book.new pool.new out word
            ≡ (if has_word book.old self.now.controls.now.legal word
            then map (head_expr head (expr_of_id pool.old))
            (models_under book.old pool.old (routes_at self.now.nets.now a) word)
            else [])) }
        ensures many { IfErr result (λ stop. IfMany stop (IsOver book.new pool.new
            (λ word exprs. exprs ≡ (if has_word book.old self.now.controls.now.legal word
            then map (head_expr head (expr_of_id pool.old))
            (models_under book.old pool.old (routes_at self.now.nets.now a) word)
            else [])))) }
    {
        let mut out = Items::new(alloc);
        let operation = Operation {
            head,
            routes: self.routes_of(a),
            start: 0,
        };
        add_all(alloc, book, pool, &mut out, self.controls.legal, &operation)?;
        Ok(out)
    }

    // The routes of an operator over two operands.
    pub(crate) fn routes_over(
        &self,
        alloc: Global,
        book: &mut Book,
        pool: &mut Pool,
        gate: BinaryGate,
    ) -> Result<Items<Route>, TraceStop>
        requires legal { self.now.controls.now.legal < length book.old.nodes }
        requires parts { AllBelow (length pool.old) (binary_parts gate.binary) }
        requires nets { AreTables book.old pool.old self.now.nets.now }
        requires fits { AllBinaryFit gate.binary pool.old (routes_at self.now.nets.now gate.a)
            (routes_at self.now.nets.now gate.b) }
        ensures book { Extends book.old book.new }
        ensures pool { Grows pool.old pool.new }
        ensures table { IfOk result (λ out. IsRouteTable book.new pool.new out) }
        ensures exprs { IfOk result (λ out. (word : ℕ) → word < 2 ^ book.old.bits →
            models_under book.new pool.new out word
            ≡ (if has_word book.old self.now.controls.now.legal word
            then pairs gate.binary (expr_of_id pool.old)
            (models_under book.old pool.old (routes_at self.now.nets.now gate.a) word)
            (models_under book.old pool.old (routes_at self.now.nets.now gate.b) word)
            else [])) }
        ensures many { IfErr result (λ stop. IfMany stop (IsOver book.new pool.new
            (λ word exprs. exprs ≡ (if has_word book.old self.now.controls.now.legal word
            then pairs gate.binary (expr_of_id pool.old)
            (models_under book.old pool.old (routes_at self.now.nets.now gate.a) word)
            (models_under book.old pool.old (routes_at self.now.nets.now gate.b) word)
            else [])))) }
    {
        let mut out = Items::new(alloc);
        let operation = BinaryOperation {
            binary: gate.binary,
            firsts: self.routes_of(gate.a),
            seconds: self.routes_of(gate.b),
        };
        add_pairs(alloc, book, pool, &mut out, self.controls.legal, &operation)?;
        Ok(out)
    }

    // The routes of the first net whose test holds, and of the rest where none does.
    pub(crate) fn routes_of_first(
        &self,
        alloc: Global,
        book: &mut Book,
        pool: &mut Pool,
        decision: &Decision<'_>,
    ) -> Result<Items<Route>, TraceStop>
        requires legal { self.now.controls.now.legal < length book.old.nodes }
        requires tests { AllTests book.old decision.now.tests.now }
        requires nets { AreTables book.old pool.old self.now.nets.now }
        requires low { 1 ≤ decision.now.width }
        requires high { decision.now.width ≤ 64 }
        ensures book { Extends book.old book.new }
        ensures pool { Grows pool.old pool.new }
        ensures table { IfOk result (λ out. IsRouteTable book.new pool.new out) }
        ensures exprs { IfOk result (λ out. (word : ℕ) → word < 2 ^ book.old.bits →
            models_under book.new pool.new out word
            ≡ (if has_word book.old self.now.controls.now.legal word
            then (if passes book.old word decision.now.tests.now
            then first_exprs book.old pool.old self.now.nets.now word decision.now.tests.now
            else rest_exprs book.old pool.old self.now.nets.now decision.now.width decision.now.rest word)
            else [])) }
        ensures many { IfErr result (λ stop. IfMany stop (IsOver book.new pool.new
            (λ word exprs. exprs ≡ (if has_word book.old self.now.controls.now.legal word
            then (if passes book.old word decision.now.tests.now
            then first_exprs book.old pool.old self.now.nets.now word decision.now.tests.now
            else rest_exprs book.old pool.old self.now.nets.now decision.now.width decision.now.rest word)
            else [])))) }
    {
        let mut out = Items::new(alloc);
        let left = self.add_first(alloc, book, pool, &mut out, decision.tests)?;
        match decision.rest {
            Some(net) => {
                let routes = self.routes_of(net);
                let operation = Operation {
                    head: Head::Same,
                    routes,
                    start: 0,
                };
                add_all(alloc, book, pool, &mut out, left, &operation)?;
                Ok(out)
            }
            None => {
                let width = decision.width;
                let zero = Node::Const { width, value: 0 };
                add_leaf(alloc, book, pool, &mut out, left, zero)?;
                Ok(out)
            }
        }
    }
}
