//! What follows for routes from what `trace` ensures, proved here once for every crate above.

ghost use Rattle.route_trace.specs.Laws.{AreExact, AreWhole, RoutesMean};

/// The set of each route of a net is all words without clash with its expression.
pub fn law_of_sets()
    ensures { AreExact }
{}

/// Each word without clash has exactly one route of a net, and no set is empty.
pub fn law_of_words()
    ensures { AreWhole }
{}

/// What a route's expression means is the net's value, in each state, under each word of the
/// route's set.
pub fn law_of_meaning()
    ensures { RoutesMean }
{}
