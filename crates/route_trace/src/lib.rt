//! The symbolic values of each net, each with the instruction words that give it.
//!
//! Promise: the routes of each net that `trace` gives partition the words without a clash by the
//! net's symbolic value (`routes`: `AreRoutes`); N12 and N13 are kept (`limits`: `KeepsLimits`), or
//! the net is told that is named for one of them (`refusal`: `IsRouteFault`). The laws
//! `law_of_sets`, `law_of_words` and `law_of_meaning` say what follows for each route.
//!
//! Invariant: nets are gone over in the order of the checked netlist, and at each word at most one
//! route of a net holds it: so routes are right for each word by itself, operators are maps over
//! lists, a case is a choice, and no count or index is needed. A net that is skipped depends on one
//! that broke a limit.
//!
//! Files:
//!
//! - `stop`: why the routes of a net are given up.
//! - `tracer`: `Tracer`, what the routes of a net are traced from.
//! - `heads`: operators that lack their last operand, or two, and one closed over an expression.
//! - `merge`, `lookup`: a route is added or joined to one with its expression; the route that holds
//!   a word.
//! - `product`, `pairs`, `selects`: routes of operands taken together where they have a word in
//!   common.
//! - `decide`, `first`, `cases`: the tests of a case or a bus, and the first that a word passes.
//! - `gates`, `whole`: the routes of a gate, and of a net.
//! - `verdict`: what is found out of each net about the limits.
//! - `all_nets`: `trace`, net by net.
//! - `laws`: the three laws.
//! - `lib`: `RouteFault`.
//! - `specs/`: `Laws` and `Limits`, cited by public contracts, and routes are
//!   `transfer_set/specs/Routes`. `specs/Inner/`: `Routing`, `Heads`, `Lookups`, `Selects`,
//!   `Gates`, `Tests`, `Stops` and `Verdicts`, which go with loops.
//! - `proofs/`: `Exact` carries the promise and the laws, from `Turns` (one net more) over `Given`,
//!   `Deciding`, `Products` and `Selecting` to it; `Judging` and `Stopping` carry the limits.
#![tactic(auto)]

mod all_nets;
mod cases;
mod decide;
mod first;
mod gates;
mod heads;
mod laws;
mod lookup;
mod merge;
mod pairs;
mod product;
mod selects;
mod stop;
mod tracer;
mod verdict;
mod whole;

ghost use Rattle.std.specs.Prelude.{◌≡◌};
ghost use Rattle.route_trace.specs.declared.RouteFault.{RouteFault};

pub use all_nets::trace;
pub use laws::{law_of_meaning, law_of_sets, law_of_words};
use rec_bits::NoMemory;

/// Why there are no routes for a netlist.
#[derive(Clone, Copy, Debug, PartialEq, Eq)]
pub enum RouteFault {
    /// This net has under some word without clash a symbolic value of more than 255 nodes.
    PatternLarge(u32),
    /// This net has more than 4,096 symbolic values over the words without clash.
    TooMany(u32),
    /// Want of memory.
    Memory,
}

impl From<NoMemory> for RouteFault {
    ghost from_gives = { λ _ fault. fault ≡ RouteFault.Memory };

    fn from(_: NoMemory) -> RouteFault {
        RouteFault::Memory
    }
}
