//! The program that code is made from.

use code_model::Place;
use compaction::{KnownMachine, Tables};
use form_model::{Blocks, Flow, Forms, Job};
use mode_set::{ModeWord, Plan};
use rec_bits::Items;
use src_model::Typed;
use sym_expr::Pool;
use transfer_set::Patterns;

/// The patterns of a mode and their expressions, with what these read.
#[derive(Drop)]
pub(crate) struct Operations {
    pub pool: Pool,
    pub patterns: Patterns,
    pub tables: Tables,
}

/// The words around an assignment in a mode other than 0: one of mode 0 that puts the mode, and one
/// of the mode that puts 0 back.
#[derive(Clone, Copy)]
pub(crate) struct Passage {
    pub enter: ModeWord,
    pub leave: ModeWord,
}

/// What a netlist is in its modes, with the forms that keep the mode there, the register that holds
/// the mode, for each mode whether it can be used, and the words that lead into it and back, where
/// it can be used and is another than 0.
#[derive(Clone, Copy)]
pub(crate) struct Modes<'a> {
    pub machines: &'a [KnownMachine<'a>],
    pub forms: &'a [Forms],
    pub special: Option<u32>,
    pub usable: &'a [bool],
    pub passages: &'a [Option<Passage>],
}

/// A program that was checked, with the places of its variables, its flow and its jobs.
#[derive(Drop)]
pub(crate) struct PlacedProgram<'a> {
    pub typed: &'a Typed,
    pub places: Items<Place>,
    pub blocks: Blocks,
}

/// A program with the modes and the covers of its jobs, in the order of their numbers, with so many
/// temporary cells, on what a netlist is in its modes.
#[derive(Clone, Copy)]
pub(crate) struct PlannedProgram<'a> {
    pub modes: Modes<'a>,
    pub temps: u32,
    pub flow: &'a [Flow],
    pub jobs: &'a [Job],
    pub plans: &'a [Plan],
}
