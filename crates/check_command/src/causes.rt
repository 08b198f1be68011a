//! What is told of an image of which it isn't shown that its words follow the program. Nothing is
//! promised of it.

ghost use Rattle.std.specs.Prelude.{IfOk};
ghost use Rattle.check_command.specs.Inner.Readings.{IsFollowStop};

use crate::fault::{Cause, CheckFault, CheckStop, Origin};
use crate::hints::{Remarks, hidden_behind, hidden_from};
use follow::label_at;
use rec_bits::{Items, Name, NoMemory};
use segment::{Equation, Why};
use std::alloc::Global;
use view_lines::{Holder, Remark};

// A cause, and the name that is told of it.
#[derive(Clone, Copy)]
struct Reason<'a> {
    cause: Cause,
    name: Option<&'a Name>,
}

// A cause that tells no name.
fn nameless<'a>(cause: Cause) -> Reason<'a> {
    Reason { cause, name: None }
}

// The holder of a remark that tells what is held at an address.
fn holder_in(remark: &Remark, at: u64) -> Option<&Holder> {
    match remark {
        Remark::Hold {
            address,
            holder,
            ..
        } if u64::from(*address) == at => Some(holder),
        _ => None,
    }
}

// The variable of a remark that tells its number at an address.
fn known_in(remark: &Remark, at: u64) -> Option<&Name> {
    match remark {
        Remark::Know { address, name, .. } if u64::from(*address) == at => Some(name),
        _ => None,
    }
}

// The register or the storage of a holder.
fn name_of(holder: &Holder) -> &Name {
    match holder {
        Holder::Register(name) => name,
        Holder::Cell { cells, .. } => cells,
    }
}

// The cell of a holder, if it is one.
fn cell_of(holder: &Holder) -> Option<u64> {
    match holder {
        Holder::Register(_) => None,
        Holder::Cell { at, .. } => Some(u64::from(*at)),
    }
}

// What holds a value that isn't what a hint says.
fn holding<'a>(holder: Option<&'a Holder>) -> Reason<'a> {
    let Some(holder) = holder else {
        return nameless(Cause::Holding(None));
    };
    Reason {
        cause: Cause::Holding(cell_of(holder)),
        name: Some(name_of(holder)),
    }
}

impl<'a> Remarks<'a> {
    // The name of the variable of this number.
    fn variable_name(&self, number: u32) -> Option<&'a Name> {
        let place = self.memory.places.get(number as usize)?;
        Some(&place.name)
    }

    // The name of the first array.
    fn array_name(&self) -> Option<&'a Name> {
        let var = self.memory.vars.iter().find(|var| var.len.is_some())?;
        Some(&var.name)
    }

    // The name of the first array that is hidden at the mark from which words lead.
    fn hidden_array(&self, origin: Origin) -> Option<&'a Name> {
        let Origin::Mark { address, .. } = origin else {
            return None;
        };
        let label = label_at(self.viewed.image.marks.as_slice(), address)?;
        let mut hidden = hidden_from(self.viewed.hidden.as_slice(), label);
        for var in self.memory.vars {
            if let Some(rest) = hidden_behind(hidden, label, &var.name) {
                if var.len.is_some() {
                    return Some(&var.name);
                }
                hidden = rest;
            }
        }
        None
    }

    // What isn't as a hint says.
    fn unlike(&self, at: u64, what: Equation) -> Reason<'a> {
        match what {
            Equation::Variable(number) => Reason {
                cause: Cause::Variable,
                name: self.variable_name(number),
            },
            Equation::Holding(number) => {
                let mut holders = self
                    .remarks
                    .iter()
                    .filter_map(|remark| holder_in(remark, at));
                holding(holders.nth(number as usize))
            }
            Equation::Number(number) => {
                let mut names = self
                    .remarks
                    .iter()
                    .filter_map(|remark| known_in(remark, at));
                Reason {
                    cause: Cause::Number,
                    name: names.nth(number as usize),
                }
            }
        }
    }

    // Why it isn't known where words lead.
    fn reason(&self, origin: Origin, why: Why) -> Reason<'a> {
        match why {
            Why::Full | Why::Test => nameless(Cause::Much),
            Why::Array => Reason {
                cause: Cause::Variable,
                name: self.hidden_array(origin),
            },
            Why::Path => Reason {
                cause: Cause::Written,
                name: self.array_name(),
            },
            Why::Word(at) => nameless(Cause::Word(at)),
            Why::Clocks => nameless(Cause::Clocks),
            Why::Mark(at) => nameless(Cause::Mark(at)),
            Why::Unlike { at, what } => self.unlike(at, what),
        }
    }

    // What is told of words that don't follow the program from here on.
    fn told(&self, alloc: Global, origin: Origin, why: Why) -> Result<CheckStop, NoMemory>
        ensures { IfOk result IsFollowStop }
    {
        let reason = self.reason(origin, why);
        let name = match reason.name {
            Some(name) => Some(Items::from_slice(alloc, name.as_slice())?),
            None => None,
        };
        Ok(CheckStop {
            fault: CheckFault::Follow {
                origin,
                cause: reason.cause,
            },
            name,
        })
    }

    /// What is told of an image that keeps all rules and doesn't pass the check for this fault.
    pub fn stop(&self, alloc: Global, fault: followed::CheckFault) -> Result<CheckStop, NoMemory>
        ensures { IfOk result IsFollowStop }
    {
        match fault {
            followed::CheckFault::Memory => Ok(CheckStop::from(CheckFault::Memory)),
            followed::CheckFault::First(why) => self.told(alloc, Origin::Start, why),
            followed::CheckFault::Mark {
                address,
                answer,
                why,
            } => self.told(alloc, Origin::Mark { address, answer }, why),
            followed::CheckFault::Clash(word) => Ok(CheckStop::from(CheckFault::Follow {
                origin: Origin::Start,
                cause: Cause::Clash(word),
            })),
            // The rules of images, and hints that are made of marks, leave no room for these.
            followed::CheckFault::Mode
            | followed::CheckFault::Width
            | followed::CheckFault::Place(_)
            | followed::CheckFault::Marks
            | followed::CheckFault::View(_)
            | followed::CheckFault::Hidden
            | followed::CheckFault::EndWord
            | followed::CheckFault::Hint(_)
            | followed::CheckFault::NoHint(_) => Ok(CheckStop::from(CheckFault::Follow {
                origin: Origin::Start,
                cause: Cause::Much,
            })),
        }
    }
}
