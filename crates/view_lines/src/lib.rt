//! The lines behind an image that say where its variables are, one by one.
//!
//! Promise: `read` takes a line just where it is what is written of a remark (`SaysRemark`), as that
//! remark alone. A remark hides a variable, says what one is at a mark, says what a register or a
//! cell holds there, or which number a variable is. Whether there is such a mark or such a name isn't
//! told here.
//!
//! Files:
//!
//! - `remark`: what a line may say.
//! - `field`: names, and where a value is held.
//! - `reading`: from a line to what it says, by its first word.
//! - `specs/`: `Remarks`, how a remark is written, and which can be. `specs/Inner/`: `Reading`, which
//!   goes step by step as the code does.
//! - `proofs/`: `Laws` holds the two against each other; `Endings`: a line's only LF is its last byte.
#![tactic(auto)]

mod field;
mod reading;
mod remark;

pub use reading::read;
pub use remark::{Holder, Remark};
