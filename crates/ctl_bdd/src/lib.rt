//! Control as sets of instruction words: for each bit of a static net in a control place the words
//! under which it is 1, and the words under which no bus clashes.
//!
//! Promise: `controls` gives for each bit of each static net in a control place the set of exactly
//! the words under which it is 1, and the set of exactly the words without a clash, or
//! `AlwaysClash` exactly where there is none (`control`: `IsControl`, `HasControlCause`). The book
//! is only extended (`grows`). `bits_of` finds the sets of a net, and `equals` gives the words at
//! which such bits give a number. No step goes over the words.
//!
//! Invariant: the table of sets is filled in the order of the checked netlist, for the nets that
//! control needs alone, so the sets of the nets that a gate names are there before its own. Bits
//! stand with the lowest first.
//!
//! Files:
//!
//! - `flags`: flags of nets.
//! - `places`: the nets in control places, and all that they depend on.
//! - `bits`: numbers whose bits are sets of words.
//! - `gates`: the bits of a gate's value, from those of the nets that it names.
//! - `table`: the bits of each net that control needs.
//! - `legal`: the words under which no bus clashes.
//! - `control`: `controls`.
//! - `lib`: `ControlBits`, with `bits_of`, and `CtlFault`.
//! - `specs/`, cited by public contracts: `Controls`, `Places`, `Bits`, `Tables`. `specs/Inner/`:
//!   what goes with loops.
//! - `proofs/`: `Filling` and `Needed` for the table, `Values`, `Numbers`, `Rows` and `Bools` for
//!   gates, `Clashes` and `Enables` for buses, `Sets`, `CallerLemmas`.
#![tactic(auto)]

mod bits;
mod control;
mod flags;
mod gates;
mod legal;
mod places;
mod table;

ghost use Rattle.std.specs.Prelude.{◌≡◌, option_copied};

use bit_bdd::SetId;
pub use bits::equals;
pub use control::controls;
use rec_bits::{Items, NoMemory};

/// What control depends on.
#[derive(Drop)]
pub struct ControlBits {
    /// The static nets in control places, ascending, each with a set for each of its bits, the
    /// lowest bit first.
    pub bits: Items<(u32, Items<SetId>)>,
    /// The words under which no bus clashes.
    pub legal: SetId,
}

impl ControlBits {
    ghost use Rattle.ctl_bdd.specs.Controls.{bits_in};

    /// The sets of a net's bits, the lowest bit first, or None where the net isn't static or stands
    /// in no control place.
    pub fn bits_of(&self, net: u32) -> Option<&[SetId]>
        ensures { option_copied result ≡ bits_in self.now.bits net }
    {
        for (id, sets) in self.bits.as_slice() {
            if *id == net {
                return Some(sets.as_slice());
            }
        }
        None
    }
}

/// Why a netlist has no control bits.
#[derive(Clone, Copy, Debug, PartialEq, Eq)]
pub enum CtlFault {
    /// Under each word a bus clashes.
    AlwaysClash,
    /// Want of memory.
    Memory,
}

impl From<NoMemory> for CtlFault {
    ghost use Rattle.ctl_bdd.specs.declared.CtlFault.{CtlFault};

    ghost from_gives = { λ _ fault. fault ≡ CtlFault.Memory };

    fn from(_cause: NoMemory) -> CtlFault {
        CtlFault::Memory
    }
}
