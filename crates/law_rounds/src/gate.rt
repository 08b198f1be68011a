//! Which laws are applied, and how far.

use crate::kinds::Kind;
use rec_bits::Op2;
use tree_laws::{Part, Rule};

/// What is wanted of the laws.
#[derive(Clone, Copy)]
pub struct Gate<'a> {
    /// What a law may bring.
    pub brings: Brings<'a>,
    /// The widths that are tried for a number of a law that nothing gives. More of them make the
    /// tables grow past use.
    pub widths: &'a [u8],
    /// How many classes, of those that stand for themselves, a table may have before no further law
    /// is applied.
    pub most: u64,
}

/// The operators that a law may bring to where they don't stand yet.
#[derive(Clone, Copy)]
pub enum Brings<'a> {
    /// Each.
    All,
    /// These, and comparisons and numbers: comparisons have one bit and come to an end in a few
    /// laws, so each is followed to one of these.
    These(&'a [Kind]),
}

impl Brings<'_> {
    // Whether a part's operator is one of them.
    fn has(self, part: Part) -> bool {
        let Brings::These(kinds) = self else {
            return true;
        };
        match part {
            Part::Bin(Op2::Eq | Op2::Ltu | Op2::Lts, ..) | Part::Const(..) => true,
            _ => match Kind::of_part(part) {
                Some(kind) => kinds.contains(&kind),
                None => true,
            },
        }
    }
}

/// Which of a rule's sides is looked for; the other one is listed.
#[derive(Clone, Copy)]
pub(crate) struct Side {
    pub found: u8,
    pub listed: u8,
}

impl Side {
    /// The rule as it is written.
    pub(crate) fn of(rule: &Rule) -> Side {
        Side {
            found: rule.from,
            listed: rule.to,
        }
    }

    /// The other way round.
    pub(crate) fn turned(self) -> Side {
        Side {
            found: self.listed,
            listed: self.found,
        }
    }
}

/// Whether a law may bring all operators of the side that is listed, but for those that the other
/// side has as well. A lone variable is found everywhere, so it is never looked for.
pub(crate) fn is_wanted(rule: &Rule, side: Side, brings: Brings) -> bool {
    if let Some(Part::Tree(_)) = rule.parts.get(side.found as usize) {
        return false;
    }
    for (index, part) in rule.parts.iter().enumerate() {
        let Ok(place) = u8::try_from(index) else {
            return false;
        };
        let is_new = uses(rule, side.listed, place) && !uses(rule, side.found, place);
        if is_new && !brings.has(*part) {
            return false;
        }
    }
    true
}

// Whether a part is the one at `top`, or an operand of it, or of one of these.
fn uses(rule: &Rule, top: u8, place: u8) -> bool {
    if top == place {
        return true;
    }
    match rule.parts.get(top as usize) {
        Some(Part::Un(_, a) | Part::Slice(a, ..) | Part::Zext(a, _) | Part::Sext(a, _)) => {
            *a < top && uses(rule, *a, place)
        }
        Some(Part::Bin(_, a, b)) => {
            (*a < top && uses(rule, *a, place)) || (*b < top && uses(rule, *b, place))
        }
        _ => false,
    }
}
