//! What the instruction words of a netlist do: its patterns, and their text.
//!
//! Promise: `extract` gives the text of exactly the patterns of the netlist that is taken for the
//! bytes: of the one that they say, or of its view where it has a bank; mode by mode where it has
//! modes (`text`: `IsExtracted`). The netlist is taken exactly where it keeps all rules, and
//! otherwise refused with the first that it breaks, N10 and then N12 or N13 last (`refused`:
//! `IsRoutedTakenRefusal`). `extract_netlist` gives the instruction set of a netlist: its patterns
//! with all their words, and the words without a clash (`extracted`: `IsExtractedFrom`);
//! `extract_modes` gives that of each mode (`AreExtractedFrom`, `IsModesRefusal`), and
//! `read_extracted` so of bytes, up to a newest edition (`IsTakenModes`). `read_viewed` is for
//! commands that take texts with a bank alone (`IsViewedModes`, `IsRoutedBankedRefusal`),
//! `read_extracted_taken` for those that take no netlists with modes or a bank (`IsTakenNet`).
//!
//! Invariant: an `Isa` holds its book and its pool, since the ids of its patterns mean nothing
//! without them. The list of a netlist's instruction sets goes with `Modes::bases`, place by place.
//!
//! Files:
//!
//! - `routed`: control, routes and patterns, over a book and a pool that are lent.
//! - `netlists`: `Isa`, of a netlist, of its modes and of bytes.
//! - `taken`: of bytes, for commands that don't take all editions.
//! - `texts`: from bytes to the text of the patterns.
//! - `specs/`: `Extracts`, `Extraction`, `Sets` and `Taken` are all cited by public contracts.
//!   `specs/Inner/`: `Modes`, control bits before routes are traced.
//! - `proofs/`: `Cleans` and `Extracting` for what is extracted, `OverModes`: from the modes to the
//!   netlist; `PlainNames`: names of a text have bytes of names alone, so no marks, and the order of
//!   patterns leaves no choice; `ViewNames`: a view has no others; `RoutedLaws` and `RoutedTaken`:
//!   the answers exclude each other.
#![tactic(auto)]

mod netlists;
mod routed;
mod taken;
mod texts;

pub use netlists::{Isa, extract_modes, extract_netlist, read_extracted, read_viewed};
pub use taken::read_extracted_taken;
pub use texts::{extract, read_routed};
