//! Numbers in a text.

use itoa::Buffer;
use std::alloc::AllocError;

/// Adds some words and a number behind them.
pub fn put(text: &mut String, words: &str, number: u64) -> Result<(), AllocError> {
    let mut digits = Buffer::new();
    text.push_str(words)?;
    text.push_str(digits.format(number))
}
