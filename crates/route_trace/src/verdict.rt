//! Whether nets keep the limits on their symbolic values.

ghost use Rattle.std.specs.Prelude.{◌≡◌, ℕ, ◌^◌, ◌<◌, length, replicate, IfOk};
ghost use Rattle.net_model.specs.Symbolic.{all_nets};
ghost use Rattle.sym_expr.specs.Pools.{IsOneEach};
ghost use Rattle.transfer_set.specs.Routes.{AllExprs};
ghost use Rattle.route_trace.specs.Inner.Verdicts.{IsJudged, fault_of, first_fault, is_kept as kept, kept_at};
ghost use Rattle.route_trace.specs.declared.verdict.Verdict.TheVariants.{Many, Skipped};

use crate::RouteFault;
use rec_bits::{Items, NoMemory};
use std::alloc::Global;
use sym_expr::Pool;
use transfer_set::Route;

// The most symbolic values of a net.
pub(crate) const MOST_VALUES: usize = 4096;

// The most nodes of a symbolic value.
const MOST_NODES: u64 = 255;

// What is found out about a net.
#[derive(Clone, Copy, PartialEq, Eq)]
pub(crate) enum Verdict {
    // It keeps the limits, as all nets do that it depends on.
    Kept,
    // It has a value that is too large, and not too many; all that it depends on keep the limits.
    Large,
    // It has too many values; all that it depends on keep the limits.
    Many,
    // It depends on a net that breaks a limit.
    Skipped,
}

// A verdict for each of so many nets before any is looked at.
pub(crate) fn new_verdicts(alloc: Global, nets: usize) -> Result<Items<Verdict>, NoMemory>
    ensures { IfOk result (λ verdicts. verdicts ≡ replicate nets Skipped) }
{
    Ok(Items::from_vec(vec![in alloc; Verdict::Skipped; nets]?))
}

fn is_kept(verdict: Verdict) -> bool
    ensures { result ≡ kept verdict }
{
    match verdict {
        Verdict::Kept => true,
        Verdict::Large => false,
        Verdict::Many => false,
        Verdict::Skipped => false,
    }
}

fn is_net_kept(verdicts: &[Verdict], net: u32) -> bool
    ensures { result ≡ kept_at verdicts.now net }
{
    match verdicts.get(net as usize) {
        Some(verdict) => is_kept(*verdict),
        None => false,
    }
}

// Whether these nets keep the limits, with all that they depend on.
pub(crate) fn all_kept(verdicts: &[Verdict], nets: &[u32]) -> bool
    ensures { result ≡ all_nets (kept_at verdicts.now) nets.now }
{
    for net in nets {
        if !is_net_kept(verdicts, *net) {
            return false;
        }
    }
    true
}

// What the routes of a net tell, where all that it depends on keep the limits.
pub(crate) fn judge(pool: &Pool, routes: &[Route]) -> Verdict
    requires { AllExprs (length pool.now) routes.now }
    ensures judged { IsJudged pool.now routes.now result }
    ensures ids { IsOneEach pool.now }
{
    // the length tells that ids are equal where their expressions are
    let _ = pool.len();
    if routes.len() > MOST_VALUES {
        return Verdict::Many;
    }
    for route in routes {
        if pool.size(route.expr) > MOST_NODES {
            return Verdict::Large;
        }
    }
    Verdict::Kept
}

// What it tells of a net that its routes were given up.
pub(crate) fn give_up(pool: &Pool) -> Verdict
    ensures many { result ≡ Many }
    ensures ids { IsOneEach pool.now }
{
    // the length tells that ids are equal where their expressions are
    let _ = pool.len();
    Verdict::Many
}

// The refusal of a net of this number with this verdict.
fn refusal_of(net: u32, verdict: Verdict) -> Option<RouteFault>
    ensures { result ≡ fault_of net verdict }
{
    match verdict {
        Verdict::Kept => None,
        Verdict::Large => Some(RouteFault::PatternLarge(net)),
        Verdict::Many => Some(RouteFault::TooMany(net)),
        Verdict::Skipped => None,
    }
}

// The refusal of the least net that has one.
pub(crate) fn first_refusal(verdicts: &[Verdict]) -> Option<RouteFault>
    requires { length verdicts.now < 2 ^ 32 }
    ensures { result ≡ first_fault 0 verdicts.now }
{
    let mut net = 0;
    for verdict in verdicts {
        if let Some(fault) = refusal_of(net, *verdict) {
            return Some(fault);
        }
        net += 1;
    }
    None
}
