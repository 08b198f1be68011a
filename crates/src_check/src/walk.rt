//! The rules that are asked statement by statement.

ghost use Rattle.std.specs.Prelude.{◌≡◌, ◌+◌, ◌^◌, ◌||◌, nat_lt, nat_le, map};
ghost use Rattle.rec_bits.specs.Faults.{least};
ghost use Rattle.rec_bits.specs.Faults.{same_name};
ghost use Rattle.src_model.specs.Widths.{misfit};
ghost use Rattle.src_model.specs.Written.{model_of_spot, model_of_src_expr, model_of_src_test, model_of_stmt, stmts_of};
ghost use Rattle.src_model.specs.Loops.{breaks, breaks_in};
ghost use Rattle.src_check.specs.Inner.Rounds.{rounds_of};
ghost use Rattle.src_check.specs.Inner.LoopRules.{model_of_loop_rule, round};

use crate::indexes::{loose, loose_spot};
use crate::names::{SymbolTable, is_plain, unknown, unknown_spot};
use crate::rounds::Rounds;
use crate::widths::{fits, sides, spot_wide, whole, wide};
use rec_bits::{Name, lesser_offset, offset_if};
use src_model::{Spot, SrcExpr, SrcTest, Stmt};

/// A rule, with what it needs: the declarations, the number of bits of a word, or the name of a
/// variable.
#[derive(Drop)]
pub enum LoopRule<'a> {
    /// S2: which names don't stand for what is asked of them.
    Names(&'a SymbolTable<'a>),
    /// S3, but for declarations.
    Widths(u64),
    /// S4.
    Indexes(&'a SymbolTable<'a>),
    /// S5.
    Counters(u64),
    /// Where a variable is assigned, or is the counter of a loop.
    Changes(&'a Name),
}

fn same_name(a: &Name, b: &Name) -> bool
    ensures { result ≡ same_name a.now b.now }
{
    a.as_slice() == b.as_slice()
}

fn misfit(width: Result<u64, u64>) -> Option<u64>
    ensures { result ≡ least (misfit width) }
{
    width.err()
}

// Whether a loop's numbers are out of order, or the one past the last is no word.
fn out_of_order(word: u64, from: u64, to: u64) -> bool
    ensures { result ≡ (nat_lt (to + 1) from || nat_le (2 ^ word) (to + 1)) }
{
    match to.checked_add(1) {
        Some(next) => next < from || !fits(next, word),
        None => word <= 64,
    }
}

#[tactic(auto, using(rec_bits::proofs::Faults::least_rules))]
fn assigned(
    question: &LoopRule<'_>,
    rounds: &Rounds<'_>,
    place: &Spot,
    value: &SrcExpr,
) -> Option<u64>
    ensures { result ≡ least ((model_of_loop_rule question.now).assigned (rounds_of rounds.now)
        (model_of_spot place.now) (model_of_src_expr value.now)) }
{
    match question {
        LoopRule::Names(table) => lesser_offset(unknown_spot(table, place), unknown(table, value)),
        LoopRule::Widths(word) => {
            let value = whole(*word, value.at, wide(*word, *word, value));
            lesser_offset(misfit(spot_wide(*word, place)), misfit(value))
        }
        LoopRule::Indexes(table) => {
            lesser_offset(
                loose_spot(table, rounds, place),
                loose(table, rounds, value),
            )
        }
        LoopRule::Counters(_) => None,
        LoopRule::Changes(name) => offset_if(same_name(&place.name, name), place.at),
    }
}

#[tactic(auto, using(rec_bits::proofs::Faults::least_rules))]
fn tested(question: &LoopRule<'_>, rounds: &Rounds<'_>, test: &SrcTest) -> Option<u64>
    ensures { result ≡ least ((model_of_loop_rule question.now).tested (rounds_of rounds.now) (model_of_src_test test.now)) }
{
    match question {
        LoopRule::Names(table) => lesser_offset(
            unknown(table, &test.left),
            unknown(table, &test.right),
        ),
        LoopRule::Widths(word) => misfit(sides(*word, &test.left, &test.right)),
        LoopRule::Indexes(table) => {
            let left = loose(table, rounds, &test.left);
            lesser_offset(left, loose(table, rounds, &test.right))
        }
        LoopRule::Counters(_) | LoopRule::Changes(_) => None,
    }
}

// What the rule says of a `for` by itself.
#[cycle(walk)]
fn counted(
    question: &LoopRule<'_>,
    counter: &Name,
    at: u64,
    from: u64,
    to: u64,
    body: &[Stmt],
) -> Option<u64>
    ensures { result ≡ least ((model_of_loop_rule question.now).counted (round counter.now from to) at
        (stmts_of (map model_of_stmt body.now))) }
{
    match question {
        LoopRule::Names(table) => offset_if(!is_plain(table, counter), at),
        LoopRule::Counters(word) => {
            let changes = LoopRule::Changes(counter);
            let changed = of_block(&changes, &Rounds::Outside, body);
            offset_if(changed.is_some() || out_of_order(*word, from, to), at)
        }
        LoopRule::Changes(name) => offset_if(same_name(counter, name), at),
        LoopRule::Widths(_) | LoopRule::Indexes(_) => None,
    }
}

#[cycle(walk)]
#[tactic(auto, using(rec_bits::proofs::Faults::least_rules))]
fn of_statement(question: &LoopRule<'_>, rounds: &Rounds<'_>, statement: &Stmt) -> Option<u64>
    ensures { result ≡ least (breaks (model_of_loop_rule question.now) (rounds_of rounds.now) (model_of_stmt statement.now)) }
{
    match statement {
        Stmt::Assign { place, value } => assigned(question, rounds, place, value),
        Stmt::If { test, yes, no } => {
            let found = lesser_offset(
                tested(question, rounds, test),
                of_block(question, rounds, yes),
            );
            match no {
                None => found,
                Some(other) => lesser_offset(found, of_block(question, rounds, other)),
            }
        }
        Stmt::While { test, body } => {
            lesser_offset(
                tested(question, rounds, test),
                of_block(question, rounds, body),
            )
        }
        Stmt::For {
            counter,
            at,
            from,
            to,
            body,
        } => {
            let found = counted(question, counter, *at, *from, *to, body);
            let within = Rounds::Within {
                counter,
                from: *from,
                to: *to,
                outer: &*rounds,
            };
            lesser_offset(found, of_block(question, &within, body))
        }
    }
}

/// The least offset at which a rule is broken in a block.
#[cycle(walk)]
#[tactic(auto, using(rec_bits::proofs::Faults::least_rules))]
pub fn of_block(question: &LoopRule<'_>, rounds: &Rounds<'_>, block: &[Stmt]) -> Option<u64>
    ensures { result ≡ least
        (breaks_in (model_of_loop_rule question.now) (rounds_of rounds.now) (stmts_of (map model_of_stmt block.now))) }
{
    let mut found = None;
    for statement in block {
        found = lesser_offset(found, of_statement(question, rounds, statement));
    }
    found
}
