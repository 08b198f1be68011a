//! The routes of all nets.

ghost use Rattle.std.specs.Prelude.{◌≡◌, ℕ, ◌<◌, length, replicate, [], IfErr, IfOk, true};
ghost use Rattle.bit_bdd.specs.Diagrams.{Extends};
ghost use Rattle.net_model.specs.Symbolic.{sym_of};
ghost use Rattle.net_model.specs.Nets.{word_width};
ghost use Rattle.sym_expr.specs.Pools.{Grows};
ghost use Rattle.ctl_bdd.specs.Controls.{IsControl};
ghost use Rattle.transfer_set.specs.Routes.{AreRoutes, GivesExpr, IsRouteTable, routes_at};
ghost use Rattle.route_trace.specs.Limits.{IsRouteFault, KeepsLimits};
ghost use Rattle.route_trace.specs.Inner.Verdicts.{IsFound, kept_at, verdict_at};

use crate::RouteFault;
use crate::stop::TraceStop;
use crate::tracer::Tracer;
use crate::verdict::{Verdict, all_kept, first_refusal, give_up, judge, new_verdicts};
use bit_bdd::Book;
use ctl_bdd::ControlBits;
use net_model::Checked;
use rec_bits::{Items, NoMemory};
use std::alloc::Global;
use sym_expr::Pool;
use transfer_set::{Route, Routes};

// No routes yet for each of so many nets.
fn new_routes(alloc: Global, nets: usize) -> Result<Items<Items<Route>>, NoMemory>
    ensures { IfOk result (λ routes. routes ≡ replicate nets []) }
{
    let mut routes = Items::new(alloc);
    for _ in 0..nets {
        routes.push(Items::new(alloc))?;
    }
    Ok(routes)
}

// The routes of each net that keeps the limits with all that it depends on, and what is found out
// about each net.
fn collect(
    alloc: Global,
    checked: &Checked,
    controls: &ControlBits,
    book: &mut Book,
    pool: &mut Pool,
) -> Result<(Items<Items<Route>>, Items<Verdict>), NoMemory>
    requires controls { IsControl checked.now.netlist book.old controls.now }
    requires word { book.old.bits ≡ word_width checked.now.netlist }
    ensures book { Extends book.old book.new }
    ensures pool { Grows pool.old pool.new }
    ensures long { IfOk result (λ both. length both.0 ≡ length checked.now.netlist.nets) }
    ensures judged { IfOk result (λ both. length both.1 ≡ length checked.now.netlist.nets) }
    ensures tables { IfOk result (λ both. (n : ℕ) → IsRouteTable book.new pool.new (routes_at both.0 n)) }
    ensures found { IfOk result (λ both. (n : ℕ) → n < length checked.now.netlist.nets →
        IsFound checked.now.netlist n (verdict_at both.1 n)) }
    ensures gives { IfOk result (λ both. (n : ℕ) → n < length checked.now.netlist.nets →
        kept_at both.1 n ≡ true →
        GivesExpr book.new pool.new controls.now.legal (λ word. sym_of checked.now.netlist word n)
        (routes_at both.0 n)) }
{
    let netlist = checked.netlist();
    let nets = netlist.nets.as_slice();
    let order = checked.order().as_slice();
    let mut routes = new_routes(alloc, nets.len())?;
    let mut verdicts = new_verdicts(alloc, nets.len())?;
    for id in order {
        let at = *id as usize;
        let net = &nets[at];
        let named = net.gate.named(alloc)?;
        if all_kept(verdicts.as_slice(), named.as_slice()) {
            let tracer = Tracer {
                netlist,
                controls,
                nets: routes.as_slice(),
            };
            match tracer.net_routes(alloc, book, pool, net) {
                Ok(out) => {
                    let verdict = judge(pool, out.as_slice());
                    verdicts.set(at, verdict);
                    routes.set(at, out);
                }
                Err(TraceStop::Many) => verdicts.set(at, give_up(pool)),
                Err(TraceStop::Memory) => return Err(NoMemory),
            }
        } else {
            verdicts.set(at, Verdict::Skipped);
        }
    }
    Ok((routes, verdicts))
}

/// The routes of all nets: those of a net partition the words without clash by the net's symbolic
/// value. The controls are those of the netlist, and the book's words are the code's. Book and pool
/// grow, and what they held means what it meant.
///
/// A net that breaks a limit and depends on no other net that does is refused, the least of them
/// first: with `TooMany` where it has more than 4,096 symbolic values over the words without clash,
/// and otherwise with `PatternLarge`, as one has more than 255 nodes.
pub fn trace(
    alloc: Global,
    checked: &Checked,
    controls: &ControlBits,
    book: &mut Book,
    pool: &mut Pool,
) -> Result<Routes, RouteFault>
    requires controls { IsControl checked.now.netlist book.old controls.now }
    requires word { book.old.bits ≡ word_width checked.now.netlist }
    ensures book { Extends book.old book.new }
    ensures pool { Grows pool.old pool.new }
    ensures routes { IfOk result (λ routes.
        AreRoutes checked.now.netlist book.new pool.new controls.now.legal routes.of) }
    ensures limits { IfOk result (λ _. KeepsLimits checked.now.netlist) }
    ensures refusal { IfErr result (IsRouteFault checked.now.netlist) }
{
    let (of, verdicts) = collect(alloc, checked, controls, book, pool)?;
    let _ = checked.netlist();
    match first_refusal(verdicts.as_slice()) {
        Some(fault) => Err(fault),
        None => Ok(Routes { of }),
    }
}
