//! The patterns of a netlist that keeps N10, N12 and N13, over a book of its words and a pool that
//! are lent.

ghost use Rattle.std.specs.Prelude.{◌≡◌, IfOk, IfErr};
ghost use Rattle.bit_bdd.specs.Diagrams.{Extends};
ghost use Rattle.net_model.specs.Nets.{word_width};
ghost use Rattle.sym_expr.specs.Pools.{Grows};
ghost use Rattle.ctl_bdd.specs.Controls.{IsControl};
ghost use Rattle.transfer_set.specs.Routes.{AreRoutes};
ghost use Rattle.transfer_set.specs.Ready.{IsReady};
ghost use Rattle.isa_extract.specs.Extracts.{IsRouted};
ghost use Rattle.isa_extract.specs.Inner.Modes.{IsClashRefusal, IsLimitRefusal};

use bit_bdd::Book;
use ctl_bdd::{ControlBits, CtlFault, controls};
use net_model::{CheckFault, Checked, NetFault};
use route_trace::{RouteFault, trace};
use std::alloc::Global;
use sym_expr::Pool;
use transfer_set::{Patterns, Routes, collect_patterns};

/// The control bits of the netlist, which has a word without clash; the rule that it may break is
/// N10.
pub(crate) fn controls_of(
    alloc: Global,
    checked: &Checked,
    book: &mut Book,
) -> Result<ControlBits, CheckFault>
    requires { book.old.bits ≡ word_width checked.now.netlist }
    ensures grows { Extends book.old book.new }
    ensures found { IfOk result (IsControl checked.now.netlist book.new) }
    ensures refused { IfErr result (IsClashRefusal checked.now.netlist) }
{
    match controls(alloc, checked, book) {
        Ok(controls) => Ok(controls),
        Err(CtlFault::AlwaysClash) => Err(CheckFault::Fault(NetFault::AlwaysClash)),
        Err(CtlFault::Memory) => Err(CheckFault::Memory),
    }
}

// The routes of the netlist's nets, which keep the limits.
fn routes_of(
    alloc: Global,
    checked: &Checked,
    controls: &ControlBits,
    book: &mut Book,
    pool: &mut Pool,
) -> Result<Routes, CheckFault>
    requires controls { IsControl checked.now.netlist book.old controls.now }
    requires word { book.old.bits ≡ word_width checked.now.netlist }
    ensures book { Extends book.old book.new }
    ensures pool { Grows pool.old pool.new }
    ensures routes { IfOk result (λ routes.
        AreRoutes checked.now.netlist book.new pool.new controls.now.legal routes.of) }
    ensures kept { IfOk result (λ _. IsRouted checked.now.netlist) }
    ensures refused { IfErr result (IsLimitRefusal checked.now.netlist) }
{
    match trace(alloc, checked, controls, book, pool) {
        Ok(routes) => Ok(routes),
        Err(RouteFault::PatternLarge(net)) => {
            let at = checked.netlist().name_at(net);
            Err(CheckFault::Fault(NetFault::PatternLarge(at)))
        }
        Err(RouteFault::TooMany(net)) => {
            let at = checked.netlist().name_at(net);
            Err(CheckFault::Fault(NetFault::TooMany(at)))
        }
        Err(RouteFault::Memory) => Err(CheckFault::Memory),
    }
}

/// The patterns of the netlist, from its control bits; the rules that it may break are N12 and N13.
pub(crate) fn patterns_of(
    alloc: Global,
    checked: &Checked,
    controls: &ControlBits,
    book: &mut Book,
    pool: &mut Pool,
) -> Result<Patterns, CheckFault>
    requires controls { IsControl checked.now.netlist book.old controls.now }
    requires word { book.old.bits ≡ word_width checked.now.netlist }
    ensures grows { Extends book.old book.new }
    ensures ready { IfOk result (IsReady checked.now.netlist book.new pool.new) }
    ensures kept { IfOk result (λ _. IsRouted checked.now.netlist) }
    ensures refused { IfErr result (IsLimitRefusal checked.now.netlist) }
{
    let routes = routes_of(alloc, checked, controls, book, pool)?;
    let patterns = collect_patterns(alloc, checked, controls, &routes, book, pool)?;
    Ok(patterns)
}
