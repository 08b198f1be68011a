//! What the routes of a net are traced from.

ghost use Rattle.std.specs.Prelude.{◌≡◌};
ghost use Rattle.transfer_set.specs.Routes.{routes_at};

use ctl_bdd::ControlBits;
use net_model::Netlist;
use rec_bits::Items;
use transfer_set::Route;

// What the routes of a net are traced from.
#[derive(Clone, Copy)]
pub(crate) struct Tracer<'a> {
    pub netlist: &'a Netlist,
    pub controls: &'a ControlBits,
    // The routes of the nets before it; none of the others.
    pub nets: &'a [Items<Route>],
}

impl Tracer<'_> {
    // The routes of a net.
    pub(crate) fn routes_of(&self, net: u32) -> &[Route]
        ensures { result.now ≡ routes_at self.now.nets.now net }
    {
        match self.nets.get(net as usize) {
            Some(routes) => routes.as_slice(),
            None => &[],
        }
    }
}
