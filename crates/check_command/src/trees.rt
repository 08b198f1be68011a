//! The terms of holdings, as trees over the cells of a program's variables.

use code_model::Place;
use form_model::Tree;
use rec_bits::{NoMemory, Op2};
use src_model::Var;
use std::alloc::Global;
use view_parts::{op1_of, op2_of};
use view_terms::Term;

/// The greatest width.
const MAX_WIDTH: u64 = 64;

/// Where variables stand, and how many bits a cell and an address have.
#[derive(Clone, Copy)]
pub struct Memory<'a> {
    pub vars: &'a [Var],
    pub places: &'a [Place],
    pub word: u8,
    pub addr: u8,
}

// A tree in a box.
fn boxed(alloc: Global, tree: Tree) -> Result<Box<Tree>, NoMemory> {
    let boxed = Box::new(alloc, tree)?;
    Ok(boxed)
}

impl Memory<'_> {
    /// The number of the variable of a name.
    pub fn variable(&self, name: &[u8]) -> Option<usize> {
        self.places
            .iter()
            .position(|place| place.name.as_slice() == name)
    }

    /// Whether the variable of this number is an array.
    pub fn is_array(&self, variable: usize) -> bool {
        match self.vars.get(variable) {
            Some(var) => var.len.is_some(),
            None => false,
        }
    }

    // The address of a variable's first cell.
    fn address(&self, variable: usize) -> u64 {
        match self.places.get(variable) {
            Some(place) => u64::from(place.address),
            None => 0,
        }
    }

    // The value of a plain variable, or the address of an array's first cell.
    fn named(&self, alloc: Global, name: &[u8]) -> Result<Option<Tree>, NoMemory> {
        let Some(variable) = self.variable(name) else {
            return Ok(None);
        };
        let value = self.address(variable);
        if self.is_array(variable) {
            return Ok(Some(Tree::Lit {
                width: self.word,
                value,
            }));
        }
        let address = boxed(
            alloc,
            Tree::Lit {
                width: self.addr,
                value,
            },
        )?;
        Ok(Some(Tree::Read(address, self.word)))
    }

    // The address of an array's element at an index that isn't a number.
    fn computed(&self, alloc: Global, array: usize, index: Tree) -> Result<Tree, NoMemory> {
        let index = boxed(alloc, index)?;
        let first = boxed(
            alloc,
            Tree::Lit {
                width: self.word,
                value: self.address(array),
            },
        )?;
        let sum = boxed(alloc, Tree::Bin(Op2::Add, index, first))?;
        Ok(Tree::Slice(sum, self.addr.saturating_sub(1), 0))
    }

    // The element of an array at an index, whose address is computed as programs compute it.
    fn element(&self, alloc: Global, array: &[u8], index: Tree) -> Result<Option<Tree>, NoMemory> {
        let Some(variable) = self.variable(array) else {
            return Ok(None);
        };
        let address = match index {
            Tree::Lit { value, .. } => Tree::Lit {
                width: self.addr,
                value: self.address(variable).saturating_add(value),
            },
            index => self.computed(alloc, variable, index)?,
        };
        Ok(Some(Tree::Read(boxed(alloc, address)?, self.word)))
    }

    // A word with two terms.
    #[cycle(tree)]
    fn pair(
        &self,
        alloc: Global,
        word: &[u8],
        first: &Term,
        second: &Term,
    ) -> Result<Option<Tree>, NoMemory> {
        if let Term::Number(width) = second {
            return match self.tree(alloc, first)? {
                Some(a) => extended(alloc, word, *width, a),
                None => Ok(None),
            };
        }
        let Some(b) = self.tree(alloc, second)? else {
            return Ok(None);
        };
        if let Term::Name(name) = first {
            if word == b"read".as_slice() {
                return self.element(alloc, name.as_slice(), b);
            }
        }
        let Some(a) = self.tree(alloc, first)? else {
            return Ok(None);
        };
        match op2_of(word) {
            Some(op) => Ok(Some(Tree::Bin(op, boxed(alloc, a)?, boxed(alloc, b)?))),
            None => Ok(None),
        }
    }

    /// The tree that a term is; None where it is none.
    #[cycle(tree)]
    pub fn tree(&self, alloc: Global, term: &Term) -> Result<Option<Tree>, NoMemory> {
        match term {
            Term::Name(name) => self.named(alloc, name.as_slice()),
            Term::Constant { value, width } if *width <= MAX_WIDTH => Ok(Some(Tree::Lit {
                width: *width as u8,
                value: *value,
            })),
            Term::Constant { .. } | Term::Number(_) => Ok(None),
            Term::One(word, a) => match (op1_of(word.as_slice()), self.tree(alloc, a)?) {
                (Some(op), Some(a)) => Ok(Some(Tree::Un(op, boxed(alloc, a)?))),
                _ => Ok(None),
            },
            Term::Two(word, a, b) => self.pair(alloc, word.as_slice(), a, b),
            Term::Three(_, a, hi, lo) => match self.tree(alloc, a)? {
                Some(a) => sliced(alloc, a, hi, lo),
                None => Ok(None),
            },
        }
    }
}

// A value extended to a width.
fn extended(alloc: Global, word: &[u8], width: u64, a: Tree) -> Result<Option<Tree>, NoMemory> {
    if width > MAX_WIDTH {
        return Ok(None);
    }
    let a = boxed(alloc, a)?;
    if word == b"zext".as_slice() {
        Ok(Some(Tree::Zext(a, width as u8)))
    } else if word == b"sext".as_slice() {
        Ok(Some(Tree::Sext(a, width as u8)))
    } else {
        Ok(None)
    }
}

// The bits of a value between two numbers.
fn sliced(alloc: Global, a: Tree, hi: &Term, lo: &Term) -> Result<Option<Tree>, NoMemory> {
    match (hi, lo) {
        (Term::Number(hi), Term::Number(lo)) if *hi < MAX_WIDTH && *lo <= *hi => {
            let a = boxed(alloc, a)?;
            Ok(Some(Tree::Slice(a, *hi as u8, *lo as u8)))
        }
        _ => Ok(None),
    }
}
