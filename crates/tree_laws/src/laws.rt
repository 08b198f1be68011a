//! The laws, by what they are about.

mod compare;
mod extend;
mod narrow;
mod numbers;
mod shifts;
mod sums;

pub use compare::compare_rules;
pub use extend::extend_rules;
pub use narrow::narrow_rules;
pub use numbers::numbers_rules;
pub use shifts::shifts_rules;
pub use sums::sums_rules;
