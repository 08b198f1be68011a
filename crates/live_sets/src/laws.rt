//! A law of tables, proved here once for every crate above.

ghost use Rattle.live_sets.specs.Listed.{TablesAreListed};

/// A table of a netlist's patterns over a book lists patterns of the netlist, and its ids are the
/// pool's: what live registers ask of a table.
pub fn law_of_lists()
    ensures { TablesAreListed }
{}
