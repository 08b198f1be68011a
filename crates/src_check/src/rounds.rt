//! The loops round a statement.

use rec_bits::Name;

/// The loops round a statement, the innermost first.
#[derive(Drop)]
pub enum Rounds<'a> {
    Outside,
    Within {
        counter: &'a Name,
        from: u64,
        to: u64,
        outer: &'a Rounds<'a>,
    },
}
