//! Equal trees: laws as data, and classes of trees that the laws make equal.
//!
//! Promise: `Classes::equal_tree` gives a tree that is equal to the given one (`AreEqual`: one
//! width, and one value in every memory whose cells fit), and `opposite_tree` one whose value is 1
//! less the given test's (`AreOpposite`), whatever was listed in the table and joined before, and
//! whatever nodes are picked: the tree is the one that the nodes spell (`IsSpelled`), and
//! `NoTree::Unlisted` is answered exactly where they spell none of its class. `are_equal` says yes
//! of equal trees alone, and exactly where their classes are joined. Each rule of a table of laws
//! holds at all widths, for all trees and numbers (`RuleHolds`), and each call keeps what the
//! classes mean: `find`, `add`, `find_tree` and `add_tree` give the class under which a node or a
//! tree is listed (`found_in`, `class_of`), which means what it means (`Stands`); `add` and
//! `add_tree` give one exactly where it fits, and change nothing that was there (`Grows`); `join`
//! makes two of one meaning one (`IsJoined`); `value` gives a number exactly where there is one of
//! 64 bits (`HasValue`). How many laws find their trees, and so what `close_node` and `apply` say,
//! is promised by nothing here: with less, a caller keeps its own tree.
//!
//! Invariant: `HaveMeanings` in `specs/Meanings`: in every memory the classes can have values such
//! that each listed node has the value of its class, and joined classes have one value. A class has
//! the place of a register, so that the value of a node over classes is that of an expression
//! (`sym_expr::Node`, `mean`). A node is listed over the classes that stood for its own at that
//! time; `close_node` lists it again over those that stand for them now. A fact about a tree or a
//! part of a rule is found out in the table as it is (`find_tree`, `find`); what is carried over a
//! change is only that listed nodes stay listed.
//!
//! A rule lists its parts in one list, where an operator names earlier parts by their places; two
//! of the parts are its sides. A law of several operators stands once for each. A new law: its row
//! in `laws`, its lemma over trees in the `Same..` file beside it, one line in the answer of its
//! table; the numbers' part is one of the lemmas below.
//!
//! Files:
//!
//! - `classes`: the table; `classes/listing`: nodes in, classes joined, nodes listed again.
//! - `rules`: what a rule is, when its conditions hold, and its use in a table.
//! - `laws`: the rules, by what they are about.
//! - `trees`: trees into the table, and out of it.
//! - `specs/`, cited by public contracts: `Equal`, `Rules`, `Meanings`, `Classes`, `Spelled`.
//!   `Worked` has trees that are equal, a test and its opposite, computed.
//! - `proofs/`: laws of numbers (`Low`, `Ring`, `Extensions`, `Shifts`, `Signs`, `Units`,
//!   `Bitwise`, `Compared`, `Orders`), then over trees (`SameNarrow`, `SameShifts`, `SameExtend`,
//!   `SameSums`, `SameCompare`, `SameNumbers`); `Meanings` and `Redirects` keep the invariant,
//!   `Standing` and `TreeLaws` go from classes to trees, `Found` and `Grown` say what is listed,
//!   also after the table grew, and `EqualLaws` has equality as a relation and tests in place of
//!   equal and opposite ones.
#![tactic(auto)]

mod classes;
mod laws;
mod rules;
mod trees;

pub use classes::{Class, Classes};
pub use laws::{
    compare_rules, extend_rules, narrow_rules, numbers_rules, shifts_rules, sums_rules,
};
pub use rules::{Choice, Condition, Num, Part, Rule, Value};
pub use trees::NoTree;
