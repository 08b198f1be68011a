//! Packing of a block's steps into groups, each of which one word does at one clock edge, and the
//! least words of groups.
//!
//! Promise: `pack` gives groups that hold the steps, each as often (`steps`), with differing
//! destinations and patterns (`differ`, `once`), each with a word that fits it (`words`); any words
//! that fit them, clocked in order, leave what the steps leave (`meaning`: `MeansSteps`); no two
//! neighbours may be merged and no step may move up (`packed`: `ArePacked`); and which packing it
//! is, is settled (`chosen`: `IsWritten`, `law_of_choice`). `pack_with` gives each of the same
//! groups with its word, the least that fits it (`least`: `AreLeast`), by a `KnownMachine`, of
//! which it is known what its expressions read; `tables_of` tells that once for all blocks
//! (`AreTables`). `pattern_list` gives the numbers of a group's patterns, ascending. `least_word`
//! gives for a group that has a word the least that fits it with the registers that are live behind
//! it (`IsLeastFit`). `law_of_forms`: steps of plain forms whose clobbers spare what is still needed
//! have words that fit, one step in each group (`StepsHaveWords`); `law_of_jumps`: a jump or branch
//! has a word for every setting (`JumpsHaveWords`).
//!
//! Invariant: before each turn of `settled` the pairs before the current one are settled, `lives`
//! has the registers that are live behind each group, and `found` the words that changes were made
//! for, each the least that fits its group now (`IsDraft` in `specs/Inner/Machines`, by `PackedTo`
//! and by `AreFound` of `specs/Inner/Found`). A turn keeps what the groups do in every state and
//! what is live before them (`IsSame` in `specs/Inner/Turns`), so what was settled to the left stays
//! so, and so do the words there; after a change the packer goes on one pair back. A turn makes the
//! list lighter or goes on by one pair, so it ends. The words of groups that no change made, each of
//! one step, are sought last. No code reads what is live behind the block once `draft_of` has made
//! the sets of it, so `turn` and `group_words` promise what they do at any such registers.
//!
//! Files:
//!
//! - `tables`: what the expressions of a pool read.
//! - `machine`: a machine with the tables.
//! - `copies`: groups made of others.
//! - `depends`: what steps of groups read and write of one another.
//! - `change`: what is done with two neighbours: merge, move a step, or leave them; a word is
//!   sought only where nothing else forbids the change.
//! - `draft`: the groups of a block while they are packed, with what is known of each.
//! - `packer`: from pair to pair, `pack_with` and `pack`.
//! - `words`: the words of the groups, of which those that were found are taken over.
//! - `least_words`: the least word of a group.
//! - `list`: the list of a word's patterns.
//! - `laws`, `word_laws`: `law_of_choice`; `law_of_forms` and `law_of_jumps`.
//! - `specs/`, cited by public contracts: `Packing` (what may be merged or moved), `Meant`,
//!   `Chosen`, `Lists`, `Machines`, `Tables`, `Words` (groups that have words, by a machine),
//!   `Formed`, `Laws`; `Worked` is computed. `specs/Inner/`: `Machines`,
//!   `Turns` and `Found`, which go with the packer.
//! - `proofs/`: `Effects`, `Leaving`, `Lives` for one change, `Turns`, `Packed` and `Found` for the
//!   loop, `Listed` for the list of words, `Meaning`, `Choice`, `Ascending`, `Patterns`; `Worded`
//!   for the laws of words.
#![tactic(auto)]

mod change;
mod copies;
mod depends;
mod draft;
mod laws;
mod least_words;
mod list;
mod machine;
mod packer;
mod tables;
mod word_laws;
mod words;

pub use laws::law_of_choice;
pub use least_words::least_word;
pub use list::pattern_list;
pub use machine::KnownMachine;
pub use packer::{PackedBlock, pack, pack_with};
pub use tables::{Tables, tables_of};
pub use word_laws::{law_of_forms, law_of_jumps};
