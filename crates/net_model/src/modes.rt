//! A netlist that was checked in its modes.

ghost use Rattle.std.specs.Prelude.{◌≡◌, None, Some, slice_get};
ghost use Rattle.net_model.specs.CheckedRules.{KeepsRules};
ghost use Rattle.net_model.specs.ModeRules.{AreModesOfNetlist, base_at, whole_of};

use crate::{Checked, Netlist};
use rec_bits::Items;
use std::marker::Model;

/// A netlist that keeps the rules N1 to N9, N11 and N14 in each of its modes, and what it is in
/// them, from mode 0 on. A netlist without a mode is itself in the only mode that it has.
#[derive(Drop)]
pub struct Modes {
    // the netlist, where it has a mode
    moded: Option<Netlist>,
    bases: Items<Checked>,
}

impl Model for Modes {
    ghost use Rattle.net_model.specs.ModeRules.{AreModesOfNetlist, Moded, whole_of};

    ghost Value = { Moded };

    ghost view = { λ modes. record { netlist = whole_of modes.moded modes.bases; bases = modes.bases } };

    ghost invariant = { λ modes. AreModesOfNetlist (whole_of modes.moded modes.bases) modes.bases };
}

impl Modes {
    /// A netlist with a mode, and what it is in each.
    pub fn new(netlist: Netlist, bases: Items<Checked>) -> Modes
        requires { AreModesOfNetlist netlist bases }
        ensures netlist { result.netlist ≡ netlist }
        ensures bases { result.bases ≡ bases }
    {
        Modes {
            moded: Some(netlist),
            bases,
        }
    }

    /// The list of a netlist without a mode.
    pub fn alone(bases: Items<Checked>) -> Modes
        requires { AreModesOfNetlist (whole_of None bases) bases }
        ensures netlist { result.netlist ≡ whole_of None bases }
        ensures bases { result.bases ≡ bases }
    {
        Modes { moded: None, bases }
    }

    /// What the netlist is in its modes.
    pub fn bases(&self) -> &[Checked]
        ensures value { result.now ≡ self.now.bases }
        ensures kept { AreModesOfNetlist self.now.netlist self.now.bases }
    {
        self.bases.as_slice()
    }

    /// What the netlist is in mode 0: it has the names, the storages and the codes of the netlist.
    pub fn first(&self) -> &Checked
        ensures value { slice_get self.now.bases 0 ≡ Some result.now }
        ensures base { result.now.netlist ≡ base_at self.now.netlist 0 }
        ensures kept { AreModesOfNetlist self.now.netlist self.now.bases }
    {
        match self.bases.get(0) {
            Some(base) => base,
            None => unreachable!(),
        }
    }

    /// What the netlist is in mode 0, alone: of a netlist without modes itself.
    pub fn into_first(self) -> Checked
        ensures base { result.netlist ≡ base_at self.netlist 0 }
        ensures kept { KeepsRules result.netlist result.order }
    {
        let Modes { moded, bases } = self;
        drop(moded);
        let mut bases = bases.into_vec();
        bases.swap_remove(0)
    }

    /// The netlist.
    pub fn netlist(&self) -> &Netlist
        ensures value { result.now ≡ self.now.netlist }
        ensures kept { AreModesOfNetlist self.now.netlist self.now.bases }
    {
        match &self.moded {
            Some(netlist) => netlist,
            None => self.first().netlist(),
        }
    }
}
