//! The law of swaps, proved here once for every crate above.

ghost use Rattle.operand_swaps.specs.Laws.{SwapsChangeNothing};

/// No choice of swaps changes the width or the meaning of an address or a value.
pub fn law_of_swaps()
    ensures { SwapsChangeNothing }
{}
