//! The routes of a net.

ghost use Rattle.std.specs.Prelude.{◌≡◌, ℕ, ◌+◌, ◌^◌, ◌<◌, ◌≤◌, [], ◌∷◌, length, IfErr, IfOk, true, Some, if◌then◌else◌};
ghost use Rattle.bit_bdd.specs.Diagrams.{Extends, has_word};
ghost use Rattle.net_model.specs.Exprs.{ExprModel};
ghost use Rattle.net_model.specs.Widths.{IsTyped, NetFits};
ghost use Rattle.net_model.specs.Value.{value_of};
ghost use Rattle.net_model.specs.Nets.{gate_nets};
ghost use Rattle.net_model.specs.Symbolic.{no_state, gate_expr, is_static};
ghost use Rattle.sym_expr.specs.Pools.{Grows, HeadFits, children_of, node_expr, expr_of_id};
ghost use Rattle.route_trace.specs.declared.stop.TraceStop.TheVariants.{Memory};
ghost use Rattle.transfer_set.specs.Routes.{IsRouteTable, models_under, only};
ghost use Rattle.route_trace.specs.Inner.Gates.{AllGive, HaveWidths};
ghost use Rattle.route_trace.specs.Inner.Routing.{AreTables};
ghost use Rattle.route_trace.specs.Inner.Stops.{IfMany, IsOver};
ghost use Rattle.route_trace.specs.Inner.Tests.{IsDecided};

use crate::cases::Case;
use crate::gates::{BinaryGate, leaf_routes};
use crate::heads::{Binary, Head};
use crate::stop::TraceStop;
use crate::tracer::Tracer;
use bit_bdd::{Book, SetId};
use net_model::{Gate, Net};
use rec_bits::Items;
use std::alloc::Global;
use sym_expr::{Node, Pool};
use transfer_set::Route;

// The routes of an expression that has no operands, of which there aren't too many.
fn routes_of_leaf(
    alloc: Global,
    book: &mut Book,
    pool: &mut Pool,
    legal: SetId,
    node: Node,
) -> Result<Items<Route>, TraceStop>
    requires legal { legal < length book.old.nodes }
    requires leaf { children_of node ≡ [] }
    requires fits { HeadFits (node_expr node (expr_of_id pool.old)) }
    ensures book { Extends book.old book.new }
    ensures pool { Grows pool.old pool.new }
    ensures table { IfOk result (λ out. IsRouteTable book.new pool.new out) }
    ensures exprs { IfOk result (λ out. (word : ℕ) → word < 2 ^ book.old.bits →
        models_under book.new pool.new out word
        ≡ (if has_word book.old legal word then node_expr node (expr_of_id pool.old) ∷ [] else [])) }
    ensures few { IfErr result (λ stop. stop ≡ Memory) }
{
    let routes = leaf_routes(alloc, book, pool, legal, node)?;
    Ok(routes)
}

impl Tracer<'_> {
    // The routes of a net, from those of the nets that its gate names.
    pub(crate) fn net_routes(
        &self,
        alloc: Global,
        book: &mut Book,
        pool: &mut Pool,
        net: &Net,
    ) -> Result<Items<Route>, TraceStop>
        requires legal { self.now.controls.now.legal < length book.old.nodes }
        requires decided { IsDecided self.now.netlist.now book.old self.now.controls.now.bits net.now.gate }
        requires nets { AreTables book.old pool.old self.now.nets.now }
        requires widths { HaveWidths self.now.netlist.now pool.old self.now.nets.now }
        requires typed { IsTyped self.now.netlist.now }
        requires fits { NetFits self.now.netlist.now (Some net.now) }
        ensures book { Extends book.old book.new }
        ensures pool { Grows pool.old pool.new }
        ensures table { IfOk result (λ out. IsRouteTable book.new pool.new out) }
        ensures exprs { IfOk result (λ out. (t : ℕ → ExprModel) → (word : ℕ) → word < 2 ^ book.old.bits →
            AllGive book.old pool.old self.now.nets.now self.now.controls.now.legal t word (gate_nets net.now.gate) →
            models_under book.new pool.new out word
            ≡ only book.old self.now.controls.now.legal word (gate_expr t (value_of self.now.netlist.now no_state word)
            (is_static self.now.netlist.now) self.now.netlist.now net.now.width net.now.gate)) }
        ensures many { IfErr result (λ stop. IfMany stop (IsOver book.new pool.new
            (λ word exprs. (t : ℕ → ExprModel) →
            AllGive book.old pool.old self.now.nets.now self.now.controls.now.legal t word (gate_nets net.now.gate) →
            exprs ≡ only book.old self.now.controls.now.legal word (gate_expr t (value_of self.now.netlist.now no_state word)
            (is_static self.now.netlist.now) self.now.netlist.now net.now.width net.now.gate)))) }
    {
        let legal = self.controls.legal;
        let width = net.width;
        match &net.gate {
            Gate::Word(_) => routes_of_leaf(alloc, book, pool, legal, Node::Word(width)),
            Gate::Reg(id) => routes_of_leaf(alloc, book, pool, legal, Node::Reg(*id, width)),
            Gate::Const(value) => {
                let value = *value;
                routes_of_leaf(alloc, book, pool, legal, Node::Const { width, value })
            }
            Gate::Read { memory, addr } => {
                let space = self.netlist.space(*memory);
                self.routes_under(alloc, book, pool, Head::Read(space, width), *addr)
            }
            Gate::Wire(a) => self.routes_under(alloc, book, pool, Head::Same, *a),
            Gate::Un(op, a) => self.routes_under(alloc, book, pool, Head::Un(*op), *a),
            Gate::Slice { of, hi, lo } => {
                self.routes_under(alloc, book, pool, Head::Slice(*hi, *lo), *of)
            }
            Gate::Zext(a) => self.routes_under(alloc, book, pool, Head::Zext(width), *a),
            Gate::Sext(a) => self.routes_under(alloc, book, pool, Head::Sext(width), *a),
            Gate::Bin(op, a, b) => {
                let gate = BinaryGate {
                    binary: Binary::Bin(*op),
                    a: *a,
                    b: *b,
                };
                self.routes_over(alloc, book, pool, gate)
            }
            Gate::Cat(a, b) => {
                let gate = BinaryGate {
                    binary: Binary::Cat,
                    a: *a,
                    b: *b,
                };
                self.routes_over(alloc, book, pool, gate)
            }
            Gate::Case { sel, rows, rest } => {
                let rows = rows.as_slice();
                let case = Case {
                    sel: *sel,
                    rows,
                    rest: *rest,
                    width,
                };
                self.case_routes(alloc, book, pool, &case)
            }
            Gate::Bus(drivers) => self.bus_routes(alloc, book, pool, drivers.as_slice(), width),
        }
    }
}
