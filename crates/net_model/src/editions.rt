//! What the editions of netlist texts add.

ghost use Rattle.std.specs.Prelude.{◌≡◌};
ghost use Rattle.net_model.specs.Editions.{is_banked};

// The edition whose netlists have a bank.
const BANKED: u8 = 4;

/// Whether the netlists of an edition have a bank, a second data memory.
pub fn is_banked(edition: u8) -> bool
    ensures { result ≡ is_banked edition }
{
    edition == BANKED
}
