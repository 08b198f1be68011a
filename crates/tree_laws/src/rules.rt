//! Laws as data, and their use in a table of classes.

ghost use Rattle.std.specs.Prelude.{◌≡◌, ◌<◌, ◌^◌, ◌≤◌, List, true, Some, SomeIff, IfOk, IfSome, length, slice_index};
ghost use Rattle.rec_bits.specs.Operators.{IsWidth, apply1_of, apply2_of, sext_of, slice_of};
ghost use Rattle.net_model.specs.Exprs.{ExprModel};
ghost use Rattle.tree_laws.specs.Classes.{AllStand, FitsWidth, HasValue, IsGiven, IsNodeOf, Stands, cell_bits, tree_at};
ghost use Rattle.tree_laws.specs.Rules.{AllHold, Holds, RuleHolds, num_of, part_expr, part_exprs, value_of};

use crate::Classes;
use rec_bits::{NoMemory, Op1, Op2, apply1, apply2, mask, sext, slice};
use std::alloc::Global;
use sym_expr::Node;

/// A number of a rule: a given one, or a variable.
#[derive(Clone, Copy)]
pub enum Num {
    Lit(u64),
    Var(u8),
}

/// A part of a rule: the tree of a variable, a number of so many bits, or an operator over parts
/// that stand before it in the rule.
#[derive(Clone, Copy)]
pub enum Part {
    Tree(u8),
    /// The width, and the number.
    Const(Num, Num),
    Un(Op1, u8),
    Bin(Op2, u8, u8),
    /// The bits from the first number down to the second.
    Slice(u8, Num, Num),
    Zext(u8, Num),
    Sext(u8, Num),
}

/// A number that others give.
#[derive(Clone, Copy)]
pub enum Value {
    /// The width of a variable's tree.
    Width(u8),
    Sum(Num, Num),
    /// 2 to the number.
    Power(Num),
    /// The operator's value at so many bits and a number.
    Apply1(Op1, Num, Num),
    /// The operator's value at so many bits and two numbers.
    Apply2(Op2, Num, Num, Num),
    /// The bits of the first from the second down to the third.
    Bits(Num, Num, Num),
    /// The first, of so many bits, with copies of its top bit up to so many bits.
    Signed(Num, Num, Num),
}

/// What has to hold of a rule's numbers and of the widths of its trees.
#[derive(Clone, Copy)]
pub enum Condition {
    /// The number is the value.
    Is(Num, Value),
    /// The first is less than the second.
    Less(Num, Num),
    /// The two are different.
    Differ(Num, Num),
}

/// A law: two of the parts, its sides, are the same for all trees and numbers with which both are
/// well typed and the conditions hold.
#[derive(Clone, Copy)]
pub struct Rule {
    pub parts: &'static [Part],
    pub conditions: &'static [Condition],
    pub from: u8,
    pub to: u8,
}

/// The values of a rule's variables: classes for its trees, and numbers.
#[derive(Drop)]
pub struct Choice {
    pub classes: Vec<u64>,
    pub numbers: Vec<u64>,
}

impl Choice {
    // The class of a variable.
    fn class(&self, variable: u8) -> Option<u64>
        ensures { SomeIff result (variable < length self.now.classes.items) (slice_index self.now.classes.items variable) }
    {
        match self.classes.get(variable as usize) {
            Some(class) => Some(*class),
            None => None,
        }
    }

    // The value of a number, where it is given or its variable has one.
    fn number(&self, num: Num) -> Option<u64>
        ensures { SomeIff result (IsGiven self.now.numbers.items num) (num_of (slice_index self.now.numbers.items) num) }
    {
        match num {
            Num::Lit(v) => Some(v),
            Num::Var(x) => match self.numbers.get(x as usize) {
                Some(number) => Some(*number),
                None => None,
            },
        }
    }

    // The value of a number that is a width or a place of a bit.
    fn small(&self, num: Num) -> Option<u8>
        ensures { SomeIff result (IsGiven self.now.numbers.items num × (num_of (slice_index self.now.numbers.items) num < 256)) (num_of (slice_index self.now.numbers.items) num) }
    {
        match u8::try_from(self.number(num)?) {
            Ok(v) => Some(v),
            Err(_) => None,
        }
    }

    // The value of a number that is a width of numbers.
    fn width(&self, num: Num) -> Option<u8>
        ensures { SomeIff result (IsGiven self.now.numbers.items num × IsWidth (num_of (slice_index self.now.numbers.items) num)) (num_of (slice_index self.now.numbers.items) num) }
    {
        let width = self.small(num)?;
        if 1 <= width && width <= 64 {
            Some(width)
        } else {
            None
        }
    }

    // The value of a number that fits so many bits.
    fn within(&self, num: Num, width: u8) -> Option<u64>
        requires { IsWidth width }
        ensures { SomeIff result (IsGiven self.now.numbers.items num × (num_of (slice_index self.now.numbers.items) num < 2 ^ width)) (num_of (slice_index self.now.numbers.items) num) }
    {
        let value = self.number(num)?;
        if value <= mask(width) {
            Some(value)
        } else {
            None
        }
    }

    // The operator's value at so many bits and a number that fits them.
    fn applied1(&self, op: Op1, width: Num, a: Num) -> Option<u64>
        ensures { SomeIff result (IsGiven self.now.numbers.items width × IsWidth (num_of (slice_index self.now.numbers.items) width) × FitsWidth self.now.numbers.items width a)
            (apply1_of op (num_of (slice_index self.now.numbers.items) width) (num_of (slice_index self.now.numbers.items) a)) }
    {
        let w = self.width(width)?;
        let x = self.within(a, w)?;
        Some(apply1(op, w, x))
    }

    // The operator's value at so many bits and two numbers that fit them.
    fn applied2(&self, op: Op2, width: Num, a: Num, b: Num) -> Option<u64>
        ensures { SomeIff result
            (IsGiven self.now.numbers.items width × IsWidth (num_of (slice_index self.now.numbers.items) width) × FitsWidth self.now.numbers.items width a × FitsWidth self.now.numbers.items width b)
            (apply2_of op (num_of (slice_index self.now.numbers.items) width) (num_of (slice_index self.now.numbers.items) a) (num_of (slice_index self.now.numbers.items) b)) }
    {
        let w = self.width(width)?;
        let x = self.within(a, w)?;
        let y = self.within(b, w)?;
        Some(apply2(op, w, x, y))
    }

    // The bits of a number from a place down to another.
    fn bits(&self, a: Num, hi: Num, lo: Num) -> Option<u64>
        ensures { SomeIff result (IsGiven self.now.numbers.items a × IsGiven self.now.numbers.items hi × IsGiven self.now.numbers.items lo
            × (num_of (slice_index self.now.numbers.items) lo ≤ num_of (slice_index self.now.numbers.items) hi) × (num_of (slice_index self.now.numbers.items) hi < 64))
            (slice_of (num_of (slice_index self.now.numbers.items) a) (num_of (slice_index self.now.numbers.items) hi) (num_of (slice_index self.now.numbers.items) lo)) }
    {
        let high = self.small(hi)?;
        let low = self.small(lo)?;
        if low > high || high > 63 {
            return None;
        }
        Some(slice(self.number(a)?, high, low))
    }

    // A number that fits so many bits, with copies of its top bit above.
    fn signed(&self, a: Num, from: Num, to: Num) -> Option<u64>
        ensures { SomeIff result (IsGiven self.now.numbers.items from × IsGiven self.now.numbers.items to × IsWidth (num_of (slice_index self.now.numbers.items) from) × IsWidth (num_of (slice_index self.now.numbers.items) to)
            × (num_of (slice_index self.now.numbers.items) from ≤ num_of (slice_index self.now.numbers.items) to) × FitsWidth self.now.numbers.items from a)
            (sext_of (num_of (slice_index self.now.numbers.items) a) (num_of (slice_index self.now.numbers.items) from) (num_of (slice_index self.now.numbers.items) to)) }
    {
        let narrow = self.width(from)?;
        let wide = self.width(to)?;
        let x = self.within(a, narrow)?;
        if narrow > wide {
            return None;
        }
        Some(sext(x, narrow, wide))
    }

    // 2 to a number, below 2^64.
    fn power(&self, exponent: Num) -> Option<u64>
        ensures { SomeIff result (IsGiven self.now.numbers.items exponent × (num_of (slice_index self.now.numbers.items) exponent < 64)) (2 ^ num_of (slice_index self.now.numbers.items) exponent) }
    {
        let k = self.number(exponent)?;
        if k < 64 { Some(1 << k) } else { None }
    }
}

impl Classes {
    /// The number that a value stands for at these values of the variables, or None where one of
    /// them is missing, a number doesn't fit its width, or the result doesn't fit 64 bits.
    pub fn value(&self, value: Value, choice: &Choice) -> Option<u64>
        ensures { SomeIff result (HasValue self.now choice.now.classes.items choice.now.numbers.items value)
            (value_of (tree_at self.now choice.now.classes.items) (slice_index choice.now.numbers.items) value) }
    {
        match value {
            Value::Width(x) => Some(u64::from(self.width(choice.class(x)?)?)),
            Value::Sum(a, b) => choice.number(a)?.checked_add(choice.number(b)?),
            Value::Power(k) => choice.power(k),
            Value::Apply1(op, w, a) => choice.applied1(op, w, a),
            Value::Apply2(op, w, a, b) => choice.applied2(op, w, a, b),
            Value::Bits(a, hi, lo) => choice.bits(a, hi, lo),
            Value::Signed(a, from, to) => choice.signed(a, from, to),
        }
    }

    // Whether a condition holds at these values, or None where one of them is missing.
    fn holds(&self, condition: Condition, choice: &Choice) -> Option<bool>
        ensures { result ≡ Some true → Holds (tree_at self.now choice.now.classes.items) (slice_index choice.now.numbers.items)
            condition }
    {
        match condition {
            Condition::Is(n, value) => Some(choice.number(n)? == self.value(value, choice)?),
            Condition::Less(a, b) => Some(choice.number(a)? < choice.number(b)?),
            Condition::Differ(a, b) => Some(choice.number(a)? != choice.number(b)?),
        }
    }

    // Whether all conditions hold.
    fn all_hold(&self, conditions: &[Condition], choice: &Choice) -> bool
        ensures { result ≡ true →
            AllHold (tree_at self.now choice.now.classes.items) (slice_index choice.now.numbers.items) conditions.now }
    {
        for condition in conditions {
            match self.holds(*condition, choice) {
                Some(true) => {}
                _ => return false,
            }
        }
        true
    }

    // The node of a part over the classes of the parts before it, where it has one and there are
    // these.
    fn part_node(&self, part: Part, classes: &[u64], choice: &Choice) -> Option<Node>
        ensures { (exprs : List ExprModel) → AllStand self.now exprs classes.now → IfSome result (IsNodeOf self.now
            (part_expr (tree_at self.now choice.now.classes.items) (slice_index choice.now.numbers.items) exprs part)) }
    {
        match part {
            Part::Tree(_) => None,
            Part::Const(w, v) => Some(Node::Const {
                width: choice.small(w)?,
                value: choice.number(v)?,
            }),
            Part::Un(op, a) => Some(Node::Un(op, class_at(classes, a)?)),
            Part::Bin(op, a, b) => {
                let left = class_at(classes, a)?;
                Some(Node::Bin(op, left, class_at(classes, b)?))
            }
            Part::Slice(a, hi, lo) => {
                let of = class_at(classes, a)?;
                let high = choice.small(hi)?;
                Some(Node::Slice(of, high, choice.small(lo)?))
            }
            Part::Zext(a, w) => {
                let of = class_at(classes, a)?;
                Some(Node::Zext(of, choice.small(w)?))
            }
            Part::Sext(a, w) => {
                let of = class_at(classes, a)?;
                Some(Node::Sext(of, choice.small(w)?))
            }
        }
    }

    // The class of a variable's tree, where there is the class.
    fn tree_class(&self, variable: u8, choice: &Choice) -> Option<u64>
        ensures { IfSome result (Stands self.now (tree_at self.now choice.now.classes.items variable)) }
    {
        let class = choice.class(variable)?;
        self.width(class)?;
        Some(class)
    }

    // The class of a part, where it is listed.
    fn find_part(&self, part: Part, classes: &[u64], choice: &Choice) -> Option<u64>
        ensures { (exprs : List ExprModel) → AllStand self.now exprs classes.now → IfSome result (Stands self.now
            (part_expr (tree_at self.now choice.now.classes.items) (slice_index choice.now.numbers.items) exprs part)) }
    {
        if let Part::Tree(x) = part {
            return self.tree_class(x, choice);
        }
        self.find(self.part_node(part, classes, choice)?)
    }

    // The classes of a rule's parts, where all are listed.
    fn find_parts(
        &self,
        alloc: Global,
        parts: &[Part],
        choice: &Choice,
    ) -> Result<Option<Vec<u64>>, NoMemory>
        ensures { IfOk result (λ found. IfSome found (λ ids. AllStand self.now
            (part_exprs (tree_at self.now choice.now.classes.items) (slice_index choice.now.numbers.items) parts.now) ids.items)) }
    {
        let mut classes = Vec::new(alloc);
        for part in parts {
            let Some(class) = self.find_part(*part, &classes, choice) else {
                return Ok(None);
            };
            classes.push(class)?;
        }
        Ok(Some(classes))
    }

    // The class of a part, which is listed if it wasn't yet.
    fn add_part(
        &mut self,
        part: Part,
        classes: &[u64],
        choice: &Choice,
    ) -> Result<Option<u64>, NoMemory>
        ensures { cell_bits self.new ≡ cell_bits self.old }
    {
        if let Part::Tree(x) = part {
            return Ok(self.tree_class(x, choice));
        }
        match self.part_node(part, classes, choice) {
            Some(node) => self.add(node),
            None => Ok(None),
        }
    }

    // Lists a rule's parts, up to the first that has no value or a width that doesn't fit.
    fn add_parts(&mut self, alloc: Global, parts: &[Part], choice: &Choice) -> Result<(), NoMemory>
        ensures { cell_bits self.new ≡ cell_bits self.old }
    {
        let mut classes = Vec::new(alloc);
        for part in parts {
            let Some(class) = self.add_part(*part, &classes, choice)? else {
                return Ok(());
            };
            classes.push(class)?;
        }
        Ok(())
    }

    // Joins the classes of a rule's sides, where the rule's conditions hold and its parts have
    // these classes. Whether they were two.
    fn join_sides(&mut self, rule: &Rule, choice: &Choice, classes: &[u64]) -> bool
        requires law { RuleHolds rule.now }
        requires stand { AllStand self.old
            (part_exprs (tree_at self.old choice.now.classes.items) (slice_index choice.now.numbers.items) rule.now.parts.now)
            classes.now }
        ensures { cell_bits self.new ≡ cell_bits self.old }
    {
        if !self.all_hold(rule.conditions, choice) {
            return false;
        }
        let (Some(from), Some(to)) = (class_at(classes, rule.from), class_at(classes, rule.to))
        else {
            return false;
        };
        self.join(from, to)
    }

    /// Lists a rule's parts at these values of its variables and joins the classes of its sides,
    /// where the parts are well typed and the conditions hold. Whether there were two.
    pub fn apply(&mut self, alloc: Global, rule: &Rule, choice: &Choice) -> Result<bool, NoMemory>
        requires { RuleHolds rule.now }
        ensures { cell_bits self.new ≡ cell_bits self.old }
    {
        if !self.all_hold(rule.conditions, choice) {
            return Ok(false);
        }
        self.add_parts(alloc, rule.parts, choice)?;
        match self.find_parts(alloc, rule.parts, choice)? {
            Some(classes) => Ok(self.join_sides(rule, choice, &classes)),
            None => Ok(false),
        }
    }
}

// The class of a part of this place.
fn class_at(classes: &[u64], place: u8) -> Option<u64>
    ensures { IfSome result (λ c. (place < length classes.now) × (c ≡ slice_index classes.now place)) }
{
    match classes.get(place as usize) {
        Some(class) => Some(*class),
        None => None,
    }
}
