// The nets in an order in which each comes after those that it names, by a walk that goes to the
// named ones first.

ghost use Rattle.std.specs.Prelude.{◌≡◌, ◌<◌, ◌^◌, [], ◌∷◌, ◌++◌, length, replicate, IfOk};
ghost use Rattle.net_check.specs.Inner.Graphs.{InRange};
ghost use Rattle.net_check.specs.Inner.Walk.{IsSorted, IsWalk, Stepped, Walked, stage_at};

use crate::graph::named_at;
use crate::stack::Stack;
use rec_bits::{Items, NoMemory};
use std::alloc::Global;

// How far the walk has come with a net: where it is open, at a place among the nets that it names.
#[derive(Clone, Copy, Drop)]
pub(crate) enum Stage {
    New,
    Open(usize),
    Placed,
}

// The stage of each net, the open nets from the first to the last, each of which names the next,
// and the nets that are placed.
#[derive(Drop)]
pub(crate) struct Walk {
    pub stages: Items<Stage>,
    pub path: Stack<u32>,
    pub order: Items<u32>,
}

// What a walk finds.
#[derive(Drop)]
pub(crate) enum Sorted {
    // All nets in order.
    Order(Items<u32>),
    // A net that depends on itself.
    Cycle(u32),
}

fn stage_of(stages: &[Stage], net: u32) -> Stage
    ensures { result ≡ stage_at stages.now net }
{
    match stages.get(net as usize) {
        Some(stage) => *stage,
        None => Stage::New,
    }
}

// Goes on from the last net of the path, or gives a net that depends on itself.
fn step(graph: &[Items<u32>], walk: &mut Walk, top: u32) -> Result<Option<u32>, NoMemory>
    requires range { InRange graph.now }
    requires kept { IsWalk graph.now walk.old.stages (walk.old.path ++ top ∷ []) walk.old.order }
    ensures { IfOk result (Stepped graph.now (walk.old.path ++ top ∷ []) walk.old walk.new) }
{
    // each net of the path is open
    let Stage::Open(place) = stage_of(walk.stages.as_slice(), top) else {
        return Ok(None);
    };
    let named = named_at(graph, top);
    if place >= named.len() {
        walk.order.push(top)?;
        walk.stages.set(top as usize, Stage::Placed);
        return Ok(None);
    }
    let net = named[place];
    match stage_of(walk.stages.as_slice(), net) {
        Stage::New => {
            walk.path.push(top)?;
            walk.path.push(net)?;
            walk.stages.set(net as usize, Stage::Open(0));
            Ok(None)
        }
        Stage::Open(_) => Ok(Some(net)),
        Stage::Placed => {
            walk.path.push(top)?;
            walk.stages.set(top as usize, Stage::Open(place + 1));
            Ok(None)
        }
    }
}

// Places a net and all that it depends on, or gives a net that depends on itself.
fn place(graph: &[Items<u32>], walk: &mut Walk, root: u32) -> Result<Option<u32>, NoMemory>
    requires range { InRange graph.now }
    requires inside { root < length graph.now }
    requires kept { IsWalk graph.now walk.old.stages walk.old.path walk.old.order }
    requires empty { walk.old.path ≡ [] }
    ensures { IfOk result (Walked graph.now root walk.old walk.new) }
{
    if let Stage::New = stage_of(walk.stages.as_slice(), root) {
        walk.stages.set(root as usize, Stage::Open(0));
        walk.path.push(root)?;
    }
    while let Some(top) = walk.path.pop() {
        if let Some(net) = step(graph, walk, top)? {
            return Ok(Some(net));
        }
    }
    Ok(None)
}

fn new_stages(alloc: Global, nets: usize) -> Result<Items<Stage>, NoMemory>
    ensures { IfOk result (λ stages. stages ≡ replicate nets Stage.New) }
{
    Ok(Items::from_vec(vec![in alloc; Stage::New; nets]?))
}

// The nets in an order, or a net that depends on itself.
pub(crate) fn sort(alloc: Global, graph: &[Items<u32>]) -> Result<Sorted, NoMemory>
    requires range { InRange graph.now }
    requires short { length graph.now < 2 ^ 32 }
    ensures { IfOk result (IsSorted graph.now) }
{
    let stages = new_stages(alloc, graph.len())?;
    let mut walk = Walk {
        stages,
        path: Stack::new(alloc),
        order: Items::new(alloc),
    };
    for root in 0..graph.len() {
        if let Some(net) = place(graph, &mut walk, root as u32)? {
            return Ok(Sorted::Cycle(net));
        }
    }
    Ok(Sorted::Order(walk.order))
}
