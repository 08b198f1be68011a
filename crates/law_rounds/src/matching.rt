//! Where a side of a rule stands in a table.

use crate::index::Graph;
use rec_bits::{NoMemory, mask};
use std::alloc::Global;
use sym_expr::Node;
use tree_laws::{Choice, Classes, Condition, Num, Part, Rule, Value};

/// How many variables for trees a rule has at most, for numbers, and how many of its parts wait to
/// be matched at one time.
const TREES: usize = 3;

const NUMBERS: usize = 8;

const WAITING: usize = 16;

/// A part of a rule that has to be found in a class.
#[derive(Clone, Copy)]
struct Asked {
    part: u8,
    class: u64,
}

/// What is known of a rule's variables, and which parts have still to be found.
#[derive(Clone, Copy)]
struct Partial {
    trees: [Option<u64>; TREES],
    numbers: [Option<u64>; NUMBERS],
    waiting: [Asked; WAITING],
    count: usize,
}

impl Partial {
    fn none() -> Partial {
        Partial {
            trees: [None; TREES],
            numbers: [None; NUMBERS],
            waiting: [Asked { part: 0, class: 0 }; WAITING],
            count: 0,
        }
    }

    // With a part that has to be found in a class.
    fn asking(mut self, part: u8, class: u64) -> Option<Partial> {
        let place = self.count;
        *self.waiting.get_mut(place)? = Asked { part, class };
        self.count = place + 1;
        Some(self)
    }

    // With the next part that waits taken out.
    fn next(mut self) -> Option<(Partial, Asked)> {
        let last = self.count.checked_sub(1)?;
        let asked = *self.waiting.get(last)?;
        self.count = last;
        Some((self, asked))
    }

    // With a class for a variable, where it has none yet or this one.
    fn with_tree(mut self, variable: u8, class: u64) -> Option<Partial> {
        let slot = self.trees.get_mut(variable as usize)?;
        match *slot {
            Some(known) if known != class => None,
            _ => {
                *slot = Some(class);
                Some(self)
            }
        }
    }

    // With a number for a number of the rule, where that is this one, or a variable that has none
    // yet or this one.
    fn with_number(mut self, num: Num, value: u64) -> Option<Partial> {
        match num {
            Num::Lit(known) if known == value => Some(self),
            Num::Lit(_) => None,
            Num::Var(x) => {
                let slot = self.numbers.get_mut(x as usize)?;
                match *slot {
                    Some(known) if known != value => None,
                    _ => {
                        *slot = Some(value);
                        Some(self)
                    }
                }
            }
        }
    }

    fn number(&self, num: Num) -> Option<u64> {
        match num {
            Num::Lit(value) => Some(value),
            Num::Var(x) => *self.numbers.get(x as usize)?,
        }
    }

    // With a part found at a node, whose operands are still to be found.
    fn at_node(self, part: Part, node: Node) -> Option<Partial> {
        match (part, node) {
            (Part::Const(w, v), Node::Const { width, value }) => {
                self.with_number(w, u64::from(width))?.with_number(v, value)
            }
            (Part::Un(op, a), Node::Un(other, x)) if op == other => self.asking(a, x),
            (Part::Bin(op, a, b), Node::Bin(other, x, y)) if op == other => {
                self.asking(b, y)?.asking(a, x)
            }
            (Part::Slice(a, hi, lo), Node::Slice(x, high, low)) => self
                .with_number(hi, u64::from(high))?
                .with_number(lo, u64::from(low))?
                .asking(a, x),
            (Part::Zext(a, w), Node::Zext(x, width)) => {
                self.with_number(w, u64::from(width))?.asking(a, x)
            }
            (Part::Sext(a, w), Node::Sext(x, width)) => {
                self.with_number(w, u64::from(width))?.asking(a, x)
            }
            _ => None,
        }
    }

    // With the numbers that the conditions give, as far as they do.
    fn completed(
        mut self,
        alloc: Global,
        table: &Classes,
        rule: &Rule,
    ) -> Result<Partial, NoMemory> {
        for condition in rule.conditions {
            if let Condition::Is(num, value) = condition {
                self = self.given(alloc, table, *num, *value)?;
            }
        }
        Ok(self)
    }

    // With the number that a value has, or with an operand of a sum or a power that the number
    // gives.
    fn given(
        self,
        alloc: Global,
        table: &Classes,
        num: Num,
        value: Value,
    ) -> Result<Partial, NoMemory> {
        let found = match self.number(num) {
            Some(known) => self.solved(value, known),
            None if self.knows(value) => {
                let choice = self.choice(alloc)?;
                match table.value(value, &choice) {
                    Some(known) => self.with_number(num, known),
                    None => None,
                }
            }
            None => None,
        };
        Ok(found.unwrap_or(self))
    }

    // Whether each variable of a value has one.
    fn knows(&self, value: Value) -> bool {
        let is_known = |num: Num| self.number(num).is_some();
        match value {
            Value::Width(x) => matches!(self.trees.get(x as usize), Some(Some(_))),
            Value::Power(k) => is_known(k),
            Value::Sum(a, b) | Value::Apply1(_, a, b) => is_known(a) && is_known(b),
            Value::Apply2(_, a, b, c) | Value::Bits(a, b, c) | Value::Signed(a, b, c) => {
                is_known(a) && is_known(b) && is_known(c)
            }
        }
    }

    // With the one operand that is missing, where the value's number is known.
    fn solved(self, value: Value, known: u64) -> Option<Partial> {
        match value {
            Value::Sum(a, b) => match (self.number(a), self.number(b)) {
                (Some(x), None) => self.with_number(b, known.checked_sub(x)?),
                (None, Some(y)) => self.with_number(a, known.checked_sub(y)?),
                _ => None,
            },
            Value::Signed(a, from, _) => {
                let width = u8::try_from(self.number(from)?).ok()?;
                if width == 0 || width > 64 {
                    return None;
                }
                self.with_number(a, known & mask(width))
            }
            Value::Power(k) if known.is_power_of_two() => {
                self.with_number(k, u64::from(known.trailing_zeros()))
            }
            _ => None,
        }
    }

    // The first number of the rule's parts that has no value.
    fn first_open(&self, rule: &Rule) -> Option<Num> {
        for part in rule.parts {
            let numbers = match *part {
                Part::Const(w, v) => [w, v],
                Part::Slice(_, hi, lo) => [hi, lo],
                Part::Zext(_, w) | Part::Sext(_, w) => [w, w],
                Part::Tree(_) | Part::Un(..) | Part::Bin(..) => continue,
            };
            for num in numbers {
                if self.number(num).is_none() {
                    return Some(num);
                }
            }
        }
        None
    }

    // These values.
    fn choice(&self, alloc: Global) -> Result<Choice, NoMemory> {
        Ok(Choice {
            classes: values(alloc, &self.trees)?,
            numbers: values(alloc, &self.numbers)?,
        })
    }
}

// The values of variables; one without has the greatest number there is, which is no class and no
// width, nor a place of a bit.
fn values(alloc: Global, known: &[Option<u64>]) -> Result<Vec<u64>, NoMemory> {
    let mut values = Vec::new(alloc);
    for value in known {
        values.push(value.unwrap_or(u64::MAX))?;
    }
    Ok(values)
}

/// What is looked for: a side of a rule, with the widths that are tried for numbers that
/// nothing gives.
#[derive(Clone, Copy)]
pub(crate) struct Sought<'a> {
    pub rule: &'a Rule,
    pub side: u8,
    pub widths: &'a [u8],
}

impl<'a> Sought<'a> {
    /// The part at the root of the side.
    pub(crate) fn root(self) -> Option<Part> {
        match self.rule.parts.get(self.side as usize) {
            Some(part) => Some(*part),
            None => None,
        }
    }
}

/// The values of a rule's variables at which one of its sides has a node at its root.
pub(crate) fn matches(
    alloc: Global,
    graph: Graph<'_>,
    sought: Sought<'_>,
    root: Part,
    node: Node,
) -> Result<Vec<Choice>, NoMemory> {
    let mut found = Vec::new(alloc);
    if let Some(first) = Partial::none().at_node(root, node) {
        complete(alloc, graph, sought, first, &mut found)?;
    }
    Ok(found)
}

// Adds the values of the matches that a partial one leads to.
fn complete(
    alloc: Global,
    graph: Graph<'_>,
    sought: Sought<'_>,
    first: Partial,
    found: &mut Vec<Choice>,
) -> Result<(), NoMemory> {
    let mut open = Vec::new(alloc);
    open.push(first)?;
    for _ in 0..STEPS {
        let Some(partial) = open.pop() else {
            break;
        };
        match partial.next() {
            Some((rest, asked)) => expand(&mut open, graph, sought.rule, rest, asked)?,
            None => settle(alloc, found, graph.table, sought, partial)?,
        }
    }
    Ok(())
}

// Adds the values of a match, or those for each width where one number is open.
fn settle(
    alloc: Global,
    found: &mut Vec<Choice>,
    table: &Classes,
    sought: Sought,
    partial: Partial,
) -> Result<(), NoMemory> {
    let whole = partial.completed(alloc, table, sought.rule)?;
    let Some(open) = whole.first_open(sought.rule) else {
        found.push(whole.choice(alloc)?)?;
        return Ok(());
    };
    for width in sought.widths {
        if let Some(tried) = whole.with_number(open, u64::from(*width)) {
            let closed = tried.completed(alloc, table, sought.rule)?;
            if closed.first_open(sought.rule).is_none() {
                found.push(closed.choice(alloc)?)?;
            }
        }
    }
    Ok(())
}

/// How many partial matches are gone through for one side and one class.
const STEPS: usize = 1000;

// Finds a part in a class: a variable's tree, or each node that fits. The class is one that stood
// for itself when the index was made; two of these may have been joined since.
fn expand(
    open: &mut Vec<Partial>,
    graph: Graph<'_>,
    rule: &Rule,
    rest: Partial,
    asked: Asked,
) -> Result<(), NoMemory> {
    match rule.parts.get(asked.part as usize) {
        Some(Part::Tree(x)) => {
            if let Some(next) = rest.with_tree(*x, graph.table.head(asked.class)) {
                open.push(next)?;
            }
        }
        Some(part) => {
            for node in graph.index.nodes(asked.class) {
                if let Some(next) = rest.at_node(*part, *node) {
                    open.push(next)?;
                }
            }
        }
        None => {}
    }
    Ok(())
}
