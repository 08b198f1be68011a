//! Laws of what is told of patterns, proved here once for every crate above.

ghost use Rattle.transfer_set.specs.Ready.{StaysReady};

/// What the ids of a table of patterns mean, they mean in each extension of the book and each
/// growth of the pool.
pub fn law_of_growth()
    ensures { StaysReady }
{}
