//! Views: what a variable is at a mark, if not what its place holds; and variables that aren't shown
//! at marks.

use crate::Image;
use net_model::Expr;
use rec_bits::{Items, Name};

/// At the mark of this address, the variable of this name is the value of the expression, which is
/// one over registers, cells of the register file and numbers.
#[derive(Drop)]
pub struct View {
    pub address: u32,
    pub name: Name,
    pub value: Expr,
}

/// At all marks of this label, that of a test's number or, without one, of the end, the variable of
/// this name isn't shown.
#[derive(Drop)]
pub struct Hidden {
    pub label: Option<u32>,
    pub name: Name,
}

/// An image, the views of variables at its marks, and the variables that are hidden there.
#[derive(Drop)]
pub struct Viewed {
    pub image: Image,
    pub views: Items<View>,
    pub hidden: Items<Hidden>,
}
