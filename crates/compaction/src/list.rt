//! The lists of words.

ghost use Rattle.std.specs.Prelude.{◌≡◌, ◌<◌, ◌^◌, All, IfOk};
ghost use Rattle.compaction.specs.Lists.{HasPatternsOnce, IsPatternList, pattern_numbers};

use form_model::Step;
use rec_bits::{Items, NoMemory};
use std::alloc::Global;

// The numbers of the patterns of steps, in their order.
fn numbers(alloc: Global, steps: &[Step]) -> Result<Vec<u32>, NoMemory>
    ensures numbers { IfOk result (λ numbers. numbers.items ≡ pattern_numbers steps.now) }
    ensures small { IfOk result (λ numbers. All (λ n. n < 2 ^ 32) numbers.items) }
{
    let mut numbers = Vec::new(alloc);
    for step in steps {
        numbers.push(step.pattern)?;
    }
    Ok(numbers)
}

/// The numbers of the patterns of a group's steps, ascending: what its word lists. No two of the
/// steps may have one pattern, as `pack` says of its groups. Want of memory is the only refusal.
pub fn pattern_list(alloc: Global, group: &[Step]) -> Result<Items<u32>, NoMemory>
    requires { HasPatternsOnce group.now }
    ensures { IfOk result (IsPatternList group.now) }
{
    let mut numbers = numbers(alloc, group)?;
    numbers.sort()?;
    Ok(Items::from_vec(numbers))
}
