//! How many words a program has at most.

ghost use Rattle.std.specs.Prelude.{◌≡◌, ◌≤◌, ◌*◌, ◌^◌, length};
ghost use Rattle.branch_fix.specs.Bounds.{sum_of, control_words, bound_of};

use form_model::Flow;

fn sum(costs: &[u32]) -> u64
    requires few { length costs.now ≤ 2 ^ 31 }
    ensures value { result ≡ sum_of costs.now }
    ensures few { result ≤ 2 ^ 63 }
{
    let mut sum = 0;
    for cost in costs {
        sum += u64::from(*cost);
    }
    sum
}

// The words beside those of the blocks.
fn control_words(flow: &[Flow]) -> u64
    requires few { length flow.now ≤ 2 ^ 32 }
    ensures value { result ≡ control_words flow.now }
    ensures few { result ≤ 3 * 2 ^ 32 }
{
    let mut words = 0;
    for place in flow {
        words += match place {
            Flow::Assign(_) => 0,
            Flow::Test { .. } => 3,
            Flow::Jump(_) | Flow::End => 1,
        };
    }
    words
}

/// The number of words that a program has at most: the costs of its trees, 3 for each test of its
/// flow, 1 for each jump, and 1 for the end.
pub fn bound(flow: &[Flow], costs: &[u32]) -> u64
    requires places { length flow.now ≤ 2 ^ 32 }
    requires trees { length costs.now ≤ 2 ^ 31 }
    ensures { result ≡ bound_of flow.now costs.now }
{
    sum(costs) + control_words(flow)
}
