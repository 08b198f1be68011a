//! Laws of words that fit groups, proved here once for every crate above.

ghost use Rattle.word_fit.specs.Laws.{ClocksFollow, LeastWordsAreOne, LeastWordsFit, LiveIsNeeded, LivesAreLive, RunsFollow, RunsFollowSteps};

/// A clock under a word that fits a group doesn't clash, does what the steps of the group do at one
/// clock edge, keeps the registers that are live after it, and leaves the program counter one on.
pub fn law_of_clocks()
    ensures { ClocksFollow }
{}

/// Words that fit groups, clocked in order from any state, don't clash, and leave the memory, the
/// file and the registers that are live after them as the groups do; where each group has one step,
/// as the steps do one after the other.
pub fn law_of_runs()
    ensures groups { RunsFollow }
    ensures steps { RunsFollowSteps }
{}

/// A register is live before groups exactly where one of them reads it before another writes it, or
/// it is live after them and none writes it.
pub fn law_of_liveness()
    ensures { LiveIsNeeded }
{}

/// The list of live sets has at each group's place the registers that are live after it.
pub fn law_of_live_lists()
    ensures { LivesAreLive }
{}

/// The least words of groups fit them, and there is one list of them.
pub fn law_of_least()
    ensures fits { LeastWordsFit }
    ensures one { LeastWordsAreOne }
{}
