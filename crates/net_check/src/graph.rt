// The nets that each net names.

ghost use Rattle.std.specs.Prelude.{◌≡◌, IfOk, map};
ghost use Rattle.net_model.specs.Nets.{gate_nets};
ghost use Rattle.net_check.specs.Inner.Graphs.{named_in};

use net_model::Net;
use rec_bits::{Items, NoMemory};
use std::alloc::Global;

// For each net, the nets that its gate names.
pub(crate) fn graph_of(alloc: Global, nets: &[Net]) -> Result<Items<Items<u32>>, NoMemory>
    ensures { IfOk result (λ graph. graph ≡ map (λ net. gate_nets net.gate) nets.now) }
{
    let mut graph = Items::new(alloc);
    for net in nets {
        let named = net.gate.named(alloc)?;
        graph.push(named)?;
    }
    Ok(graph)
}

// The nets that a net names, of which there are none past the last net.
pub(crate) fn named_at(graph: &[Items<u32>], net: u32) -> &[u32]
    ensures { result.now ≡ named_in graph.now net }
{
    match graph.get(net as usize) {
        Some(named) => named.as_slice(),
        None => &[],
    }
}
