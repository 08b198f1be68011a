// The least net that lies on a cycle. The strongly connected components of the nets are found by a
// path-based search: it joins the components on its path that it meets again.

ghost use Rattle.std.specs.Prelude.{◌≡◌, ℕ, ◌+◌, ◌<◌, ◌≤◌, ◌^◌, ◌↔◌, ◌⊎◌, [], ◌∷◌, ◌++◌, IfOk, IsTrue, MatchOption, OnOk, length, replicate};
ghost use Rattle.net_model.specs.Depends.{Among, Depends, IsLeastOnCycle};
ghost use Rattle.net_check.specs.Inner.Graphs.{InRange, named_in};
ghost use Rattle.net_check.specs.Inner.Components.{GoesOn, IsComplete, IsIndexed, IsMerged, IsMet, IsSearch, AreMarked, IsRooted, MetAt, Rising, mark_at, on_cycle};

use crate::graph::named_at;
use crate::stack::Stack;
use rec_bits::{Items, NoMemory};
use std::alloc::Global;

// How far the search has come with a net.
#[derive(Clone, Copy, Drop)]
pub(crate) enum Mark {
    New,
    // At an index among the nets that are met, and at a place among those that it names.
    Met(usize, usize),
    // Its component is complete: whether it lies on a cycle.
    Done(bool),
}

// The marks of all nets, the nets whose component isn't complete, the indices among them at which
// components begin, and the nets that are open.
#[derive(Drop)]
pub(crate) struct Search {
    pub marks: Items<Mark>,
    pub met: Stack<u32>,
    pub starts: Stack<usize>,
    pub path: Stack<u32>,
}

fn mark_of(marks: &[Mark], net: u32) -> Mark
    ensures { result ≡ mark_at marks.now net }
{
    match marks.get(net as usize) {
        Some(mark) => *mark,
        None => Mark::New,
    }
}

fn is_named(named: &[u32], net: u32) -> bool
    ensures { IsTrue result ↔ Among net named.now }
{
    for other in named {
        if *other == net {
            return true;
        }
    }
    false
}

// Whether a complete component, which begins with this net at an index of so many nets, lies on a
// cycle.
fn is_cyclic(graph: &[Items<u32>], met: usize, top: u32, index: usize) -> bool
    requires { index < met }
    ensures { IsTrue result ↔ ((index + 1 < met) ⊎ Among top (named_in graph.now top)) }
{
    met - index > 1 || is_named(named_at(graph, top), top)
}

// Meets a net, as the first of a component of its own.
fn meet(search: &mut Search, net: u32) -> Result<(), NoMemory>
    requires { net < length search.old.marks }
    ensures { OnOk result (IsMet search.old search.new net) }
{
    let index = search.met.len();
    search.met.push(net)?;
    search.starts.push(index)?;
    search.path.push(net)?;
    search.marks.set(net as usize, Mark::Met(index, 0));
    Ok(())
}

// Joins the components that begin behind a place with the one round it.
fn merge(starts: &mut Stack<usize>, at: usize) -> Result<(), NoMemory>
    requires { Rising starts.old }
    ensures { OnOk result (IsMerged at starts.old starts.new) }
{
    while let Some(start) = starts.pop() {
        if start <= at {
            starts.push(start)?;
            return Ok(());
        }
    }
    Ok(())
}

// Completes the component of the nets from an index on.
fn complete(graph: &[Items<u32>], search: &mut Search, index: usize, told: bool)
    requires indexed { IsIndexed search.old.marks search.old.met }
    requires within { index ≤ length search.old.met }
    ensures { IsComplete graph.now index told search.old search.new }
{
    while search.met.len() > index {
        if let Some(net) = search.met.pop() {
            search.marks.set(net as usize, Mark::Done(told));
        }
    }
}

// Leaves a net of which all that it names was seen; where its component begins with it, the
// component is complete.
fn leave(graph: &[Items<u32>], search: &mut Search, top: u32, index: usize) -> Result<(), NoMemory>
    requires kept { IsSearch graph.now search.old.marks search.old.met search.old.starts (search.old.path ++ top ∷ []) }
    requires here { (place : ℕ) × (mark_at search.old.marks top ≡ Mark.Met index place)
        × (length (named_in graph.now top) ≤ place) }
    ensures { OnOk result (GoesOn graph.now (search.old.path ++ top ∷ []) search.old search.new) }
{
    match search.starts.pop() {
        Some(start) if start == index => {
            let told = is_cyclic(graph, search.met.len(), top, index);
            complete(graph, search, index, told);
            Ok(())
        }
        Some(start) => {
            search.starts.push(start)?;
            Ok(())
        }
        None => Ok(()),
    }
}

// Goes on from the last net of the path.
fn step(graph: &[Items<u32>], search: &mut Search, top: u32) -> Result<(), NoMemory>
    requires range { InRange graph.now }
    requires kept { IsSearch graph.now search.old.marks search.old.met search.old.starts (search.old.path ++ top ∷ []) }
    ensures { OnOk result (GoesOn graph.now (search.old.path ++ top ∷ []) search.old search.new) }
{
    let Mark::Met(index, place) = mark_of(search.marks.as_slice(), top) else {
        return Ok(());
    };
    let named = named_at(graph, top);
    if place >= named.len() {
        return leave(graph, search, top, index);
    }
    search.path.push(top)?;
    let net = named[place];
    match mark_of(search.marks.as_slice(), net) {
        Mark::New => {
            meet(search, net)?;
            return Ok(());
        }
        Mark::Met(at, _) => merge(&mut search.starts, at)?,
        Mark::Done(_) => {}
    }
    search.marks.set(top as usize, Mark::Met(index, place + 1));
    Ok(())
}

// Goes on until a net and all that it depends on have complete components.
fn search_from(graph: &[Items<u32>], search: &mut Search, root: u32) -> Result<(), NoMemory>
    requires range { InRange graph.now }
    requires inside { root < length graph.now }
    requires kept { IsSearch graph.now search.old.marks search.old.met search.old.starts search.old.path }
    requires empty { search.old.path ≡ [] }
    ensures { OnOk result (IsRooted graph.now root search.old search.new) }
{
    if let Mark::New = mark_of(search.marks.as_slice(), root) {
        meet(search, root)?;
    }
    while let Some(top) = search.path.pop() {
        step(graph, search, top)?;
    }
    Ok(())
}

fn new_marks(alloc: Global, nets: usize) -> Result<Items<Mark>, NoMemory>
    ensures { IfOk result (λ marks. marks ≡ replicate nets Mark.New) }
{
    Ok(Items::from_vec(vec![in alloc; Mark::New; nets]?))
}

// For each net whether it lies on a cycle.
fn search_all(alloc: Global, graph: &[Items<u32>]) -> Result<Items<Mark>, NoMemory>
    requires range { InRange graph.now }
    requires short { length graph.now < 2 ^ 32 }
    ensures { IfOk result (AreMarked graph.now) }
{
    let marks = new_marks(alloc, graph.len())?;
    let mut search = Search {
        marks,
        met: Stack::new(alloc),
        starts: Stack::new(alloc),
        path: Stack::new(alloc),
    };
    for root in 0..graph.len() {
        search_from(graph, &mut search, root as u32)?;
    }
    Ok(search.marks)
}

fn is_on_cycle(marks: &[Mark], net: u32) -> bool
    ensures { result ≡ on_cycle (mark_at marks.now net) }
{
    match mark_of(marks, net) {
        Mark::Done(told) => told,
        _ => false,
    }
}

// The least net that lies on a cycle, given one that does.
pub(crate) fn least_on_cycle(
    alloc: Global,
    graph: &[Items<u32>],
    known: u32,
) -> Result<u32, NoMemory>
    requires range { InRange graph.now }
    requires short { length graph.now < 2 ^ 32 }
    requires cycle { Depends (named_in graph.now) known known }
    ensures { IfOk result (IsLeastOnCycle (named_in graph.now)) }
{
    let marks = search_all(alloc, graph)?;
    for net in 0..known {
        if is_on_cycle(marks.as_slice(), net) {
            return Ok(net);
        }
    }
    Ok(known)
}
