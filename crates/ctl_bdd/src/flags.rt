//! Flags of nets.

ghost use Rattle.std.specs.Prelude.{◌≡◌, ℕ, ◌<◌, ◌||◌, false, nat_eq, length, replicate, IfOk};
ghost use Rattle.std.specs.List.{AllByRecursion, list_any};
ghost use Rattle.net_model.specs.Flags.{flag_at};

use rec_bits::{Items, NoMemory};
use std::alloc::Global;

// A flag for each of so many nets.
pub(crate) fn new_flags(alloc: Global, nets: usize) -> Result<Items<bool>, NoMemory>
    ensures { IfOk result (λ flags. flags ≡ replicate nets false) }
{
    Ok(Items::from_vec(vec![in alloc; false; nets]?))
}

// Sets the flags of these nets.
pub(crate) fn set_all(flags: &mut Items<bool>, nets: &[u32])
    requires { AllByRecursion (λ n. n < length flags.old) nets.now }
    ensures long { length flags.new ≡ length flags.old }
    ensures flags { (n : ℕ) → flag_at flags.new n ≡ (flag_at flags.old n || list_any (nat_eq n) nets.now) }
{
    for net in nets {
        flags.set(*net as usize, true);
    }
}
