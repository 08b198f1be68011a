//! The routes of nets.

use bit_bdd::SetId;
use rec_bits::Items;
use sym_expr::ExprId;

/// An expression that a net has as its symbolic value, and the words without clash under which it
/// has it.
#[derive(Clone, Copy, PartialEq, Eq)]
pub struct Route {
    pub expr: ExprId,
    pub set: SetId,
}

/// The routes of all nets, by the nets' numbers.
#[derive(Drop)]
pub struct Routes {
    pub of: Items<Items<Route>>,
}
