//! What is known at a mark.

ghost use Rattle.std.specs.Prelude.{◌≡◌, ℕ, ◌+◌, ◌*◌, ◌^◌, ◌<◌, ◌≤◌, true, List, Some, length, option_copied, slice_get, IfOk, IfSome, OnOk, map};
ghost use Rattle.rec_bits.specs.Operators.{bit_of};
ghost use Rattle.net_model.specs.declared.states.State.{State};
ghost use Rattle.net_model.specs.Nets.{storage_bits};
ghost use Rattle.form_model.specs.Trees.{model_of_tree};
ghost use Rattle.src_trees.specs.Doing.{AllAre};
ghost use Rattle.src_trees.specs.Jobs.{model_of_job};
ghost use Rattle.src_trees.specs.Seen.{tree_value};
ghost use Rattle.tree_laws.specs.declared.classes.Classes.{Classes as TheTable};
ghost use Rattle.tree_laws.specs.Classes.{Grows, cell_bits};
ghost use Rattle.mark_start.specs.Marked.{AreViewless, AllHeld, AllNumbered, AllReadArrays, IsSpotShown, IsHeld, IsNumbered, SpotsSeen, SpotsWithin};
ghost use Rattle.mark_start.specs.Runs.{IsKeptClass, IsLearnt, IsStore, IsViewOf, KnowsArrays, Stands, room_of};

use crate::begin::{learn, start_cells, tell_file, tell_reg, tell_var};
use crate::hints::{Holding, Numbered, Spot};
use crate::run::{Run, Start};
use class_values::{Fact, class_of, number, symbol};
use form_model::{Job, Tree};
use net_model::Storage;
use rec_bits::{Items, NoMemory};
use std::alloc::Global;
use sym_expr::{ExprId, Node, Pool};
use sym_run::{Known, unknown};
use tree_laws::Classes;

// The address behind all cells of some variables and the temporary ones.
fn room(temps: u32, spots: &[Spot]) -> u64
    ensures least { (n : ℕ) → temps ≤ n → SpotsWithin n spots.now → result ≤ n }
    ensures all { SpotsWithin result spots.now }
    ensures is { result ≡ room_of temps spots.now }
{
    let Some((spot, rest)) = spots.split_first() else {
        return u64::from(temps);
    };
    let later = room(temps, rest);
    let end = u64::from(spot.address) + u64::from(spot.len);
    if later < end { end } else { later }
}

// The bits of a register.
fn register_bits(storage: &Storage) -> Option<u8>
    ensures { IfSome result (λ width. width ≡ storage_bits (Some storage.now)) }
{
    match storage {
        Storage::Register { width, .. } => Some(*width),
        Storage::Memory(_) | Storage::File(_) => None,
    }
}

// The storage of a number.
fn storage_at(storages: &[Storage], number: u64) -> Option<&Storage>
    ensures { option_copied result ≡ slice_get storages.now number }
{
    storages.get(number as usize)
}

// The address of a pair of cells of the mark's store, behind the room of the variables: those of the
// registers, and then those of the register file's cells.
fn pair_at(room: u64, first: u64, number: u64) -> Option<u64>
    ensures is { IfSome result (λ a. a ≡ room + 2 * (first + number)) }
    ensures next { IfSome result (λ a. a + 1 < 2 ^ 64) }
{
    if room < 1 << 40 && first < 1 << 40 && number < 1 << 40 {
        Some(room + 2 * (first + number))
    } else {
        None
    }
}

// Whether a holding tells what a register holds.
fn is_held(pool: &Pool, holdings: &[Holding], register: u64) -> bool {
    let Some((holding, rest)) = holdings.split_first() else {
        return false;
    };
    if holding.place < pool.len() {
        if let Node::Reg(held, _width) = pool.node(holding.place) {
            if u64::from(held) == register {
                return true;
            }
        }
    }
    is_held(pool, rest, register)
}

/// The number of an answer.
pub fn bit(answer: bool) -> u64
    ensures { result ≡ bit_of answer }
{
    if answer { 1 } else { 0 }
}

// Whether a holding tells what a cell of the register file holds.
fn is_cell_held(pool: &Pool, holdings: &[Holding], cell: u64) -> bool {
    let Some((holding, rest)) = holdings.split_first() else {
        return false;
    };
    if holding.place < pool.len() && is_file_cell(pool, holding.place, cell) {
        return true;
    }
    is_cell_held(pool, rest, cell)
}

// Whether an expression is the register file's cell of this address.
fn is_file_cell(pool: &Pool, place: ExprId, cell: u64) -> bool
    requires { place < length pool.now }
{
    let Node::Cell(addr, _width) = pool.node(place) else {
        return false;
    };
    match pool.node(addr) {
        Node::Const {
            width: _bits,
            value,
        } => value == cell,
        _ => false,
    }
}

impl Start<'_> {
    /// What is known at the mark without its hints.
    pub fn begin(&self, alloc: Global) -> Result<Run, NoMemory>
        ensures arrays { AreViewless self.now.from.now.spots → IfOk result (KnowsArrays self.now) }
        ensures stands { IfOk result (λ run. (table : TheTable) (s : State) (cells memory : List ℕ) → cell_bits table ≡ self.now.word →
            IsStore self.now s cells memory → Stands table run memory s cells) }
    {
        let spots = self.from.spots.as_slice();
        let end = room(self.temps, spots);
        let regs = unknown(alloc, self.storages.len() as u64)?;
        let file = unknown(alloc, self.file_cells)?;
        let cells = start_cells(alloc, spots, end, true)?;
        let kept = start_cells(alloc, spots, end, false)?;
        Ok(Run {
            facts: Items::new(alloc),
            machine: Known {
                regs,
                cells,
                inside: Items::new(alloc),
                puts: Items::new(alloc),
                file,
            },
            vars: Known {
                regs: Items::new(alloc),
                cells: kept,
                inside: Items::new(alloc),
                puts: Items::new(alloc),
                file: Items::new(alloc),
            },
        })
    }

    /// Learns that the program counter has the mark's address.
    pub fn count(&self, table: &mut Classes, run: &mut Run) -> Result<(), NoMemory>
        ensures { OnOk result (IsLearnt self.now (λ s cells. Unit {0}) table.old table.new run.old run.new) }
    {
        let found = number(table, self.counter_width, u64::from(self.from.address))?;
        if let Some(class) = found {
            tell_reg(&mut run.machine, self.counter, class);
        }
        Ok(())
    }

    // The class of what the mark's store has in a cell.
    fn kept(&self, table: &mut Classes, address: u32) -> Result<Option<u64>, NoMemory>
        ensures grows { OnOk result (Grows table.old table.new) }
        ensures is { IfOk result (λ found. IfSome found (IsKeptClass table.new address)) }
    {
        let found = number(table, self.addr, u64::from(address))?;
        let Some(at) = found else {
            return Ok(None);
        };
        class_of(table, Node::Read(at, self.word))
    }

    // A register has what the mark's store has of it, where no holding tells.
    fn symbol(&self, table: &mut Classes, run: &mut Run, register: u64) -> Result<(), NoMemory>
        ensures { OnOk result (IsLearnt self.now (λ s cells. Unit {0}) table.old table.new run.old run.new) }
    {
        if register == self.counter || is_held(self.pool, self.from.holdings.as_slice(), register) {
            return Ok(());
        }
        let Some(storage) = storage_at(self.storages, register) else {
            return Ok(());
        };
        let Some(width) = register_bits(storage) else {
            return Ok(());
        };
        let Some(address) = pair_at(room(self.temps, self.from.spots.as_slice()), 0, register)
        else {
            return Ok(());
        };
        let found = symbol(table, self.word, address, width)?;
        if let Some(class) = found {
            tell_reg(&mut run.machine, register, class);
        }
        Ok(())
    }

    // So have the first registers.
    fn symbols(&self, table: &mut Classes, run: &mut Run, count: u64) -> Result<(), NoMemory>
        ensures { OnOk result (IsLearnt self.now (λ s cells. Unit {0}) table.old table.new run.old run.new) }
    {
        if count == 0 {
            return Ok(());
        }
        let register = count - 1;
        self.symbol(table, run, register)?;
        self.symbols(table, run, register)
    }

    // A cell of the register file has what the mark's store has of it, where no holding tells.
    fn cell_symbol(&self, table: &mut Classes, run: &mut Run, cell: u64) -> Result<(), NoMemory>
        ensures { OnOk result (IsLearnt self.now (λ s cells. Unit {0}) table.old table.new run.old run.new) }
    {
        if is_cell_held(self.pool, self.from.holdings.as_slice(), cell) {
            return Ok(());
        }
        let first = self.storages.len() as u64;
        let Some(address) = pair_at(room(self.temps, self.from.spots.as_slice()), first, cell)
        else {
            return Ok(());
        };
        let found = symbol(table, self.word, address, self.file_word)?;
        if let Some(class) = found {
            tell_file(&mut run.machine, cell, class);
        }
        Ok(())
    }

    // So have the first cells.
    fn cell_symbols(&self, table: &mut Classes, run: &mut Run, count: u64) -> Result<(), NoMemory>
        ensures { OnOk result (IsLearnt self.now (λ s cells. Unit {0}) table.old table.new run.old run.new) }
    {
        if count == 0 {
            return Ok(());
        }
        let cell = count - 1;
        self.cell_symbol(table, run, cell)?;
        self.cell_symbols(table, run, cell)
    }

    // So have all registers and cells of the register file.
    fn all_symbols(&self, table: &mut Classes, run: &mut Run) -> Result<(), NoMemory>
        ensures { OnOk result (IsLearnt self.now (λ s cells. Unit {0}) table.old table.new run.old run.new) }
    {
        self.symbols(table, run, self.storages.len() as u64)?;
        self.cell_symbols(table, run, self.file_cells)
    }

    // A view that tells what registers hold has the variable's value.
    fn kept_view(
        &self,
        table: &mut Classes,
        run: &mut Run,
        address: u32,
        view: ExprId,
    ) -> Result<(), NoMemory>
        requires { view < length self.now.pool.now }
        ensures { OnOk result (IsLearnt self.now (IsViewOf self.now.pool.now view address) table.old table.new run.old run.new) }
    {
        if u64::from(address) >= room(self.temps, self.from.spots.as_slice()) {
            return Ok(());
        }
        let found = self.kept(table, address)?;
        if let Some(class) = found {
            learn(self.pool, &mut run.machine, view, class);
        }
        Ok(())
    }

    // A view's value is the variable's: that of what registers hold, or else what they hold is told.
    fn seen_view(
        &self,
        table: &mut Classes,
        run: &mut Run,
        address: u32,
        view: ExprId,
    ) -> Result<(), NoMemory>
        requires { view < length self.now.pool.now }
        ensures { OnOk result (IsLearnt self.now (IsViewOf self.now.pool.now view address) table.old table.new run.old run.new) }
    {
        let found = self.expr(table, run, view)?;
        let Some(class) = found else {
            return self.kept_view(table, run, address, view);
        };
        tell_var(&mut run.vars, u64::from(address), class);
        Ok(())
    }

    // A variable's view has the variable's value, if the variable isn't hidden.
    fn view(&self, table: &mut Classes, run: &mut Run, spot: Spot) -> Result<(), NoMemory>
        ensures { OnOk result (IsLearnt self.now (IsSpotShown self.now.pool.now spot) table.old table.new run.old run.new) }
    {
        if spot.hidden {
            return Ok(());
        }
        let Some(view) = spot.view else {
            return Ok(());
        };
        if view < self.pool.len() {
            self.seen_view(table, run, spot.address, view)?;
        }
        Ok(())
    }

    // So do those of all variables.
    fn views(&self, table: &mut Classes, run: &mut Run, spots: &[Spot]) -> Result<(), NoMemory>
        ensures { OnOk result (IsLearnt self.now (SpotsSeen self.now.pool.now spots.now) table.old table.new run.old run.new) }
    {
        let Some((spot, rest)) = spots.split_first() else {
            return Ok(());
        };
        self.view(table, run, *spot)?;
        self.views(table, run, rest)
    }

    // A cell of the program has its number.
    fn numbered(&self, table: &mut Classes, run: &mut Run, one: Numbered) -> Result<(), NoMemory>
        ensures { OnOk result (IsLearnt self.now (λ s cells. IsNumbered one cells) table.old table.new run.old run.new) }
    {
        let facts = run.facts.as_slice();
        let found = self.in_cell(table, facts, &run.vars, u64::from(one.address))?;
        if let Some(class) = found {
            run.facts.push(Fact {
                class,
                number: one.number,
            })?;
        }
        Ok(())
    }

    // So do all.
    fn numbers(
        &self,
        table: &mut Classes,
        run: &mut Run,
        numbers: &[Numbered],
    ) -> Result<(), NoMemory>
        ensures { OnOk result (IsLearnt self.now (λ s cells. AllNumbered numbers.now cells) table.old table.new run.old run.new) }
    {
        let Some((one, rest)) = numbers.split_first() else {
            return Ok(());
        };
        self.numbered(table, run, *one)?;
        self.numbers(table, run, rest)
    }

    // A place has the value of a tree.
    fn holding(&self, table: &mut Classes, run: &mut Run, holding: &Holding) -> Result<(), NoMemory>
        ensures { OnOk result (IsLearnt self.now (IsHeld self.now.pool.now holding.now) table.old table.new run.old run.new) }
    {
        let found = self.tree(table, run, &holding.tree)?;
        if let Some(class) = found {
            if holding.place < self.pool.len() {
                learn(self.pool, &mut run.machine, holding.place, class);
            }
        }
        Ok(())
    }

    /// Learns that places have the values of their trees.
    pub fn holdings(
        &self,
        table: &mut Classes,
        run: &mut Run,
        holdings: &[Holding],
    ) -> Result<(), NoMemory>
        ensures { OnOk result (IsLearnt self.now (AllHeld self.now.pool.now holdings.now) table.old table.new run.old run.new) }
    {
        let Some((holding, rest)) = holdings.split_first() else {
            return Ok(());
        };
        self.holding(table, run, holding)?;
        self.holdings(table, run, rest)
    }

    // A tree of the test has the answer.
    fn answer(&self, table: &mut Classes, run: &mut Run, tree: &Tree) -> Result<(), NoMemory>
        ensures { OnOk result (IsLearnt self.now (λ s cells. tree_value cells (model_of_tree tree.now) ≡ bit_of self.now.answer)
            table.old table.new run.old run.new) }
    {
        let found = self.tree(table, run, tree)?;
        if let Some(class) = found {
            run.facts.push(Fact {
                class,
                number: bit(self.answer),
            })?;
        }
        Ok(())
    }

    /// Learns that all trees of the test have the answer.
    pub fn answers(
        &self,
        table: &mut Classes,
        run: &mut Run,
        trees: &[Tree],
    ) -> Result<(), NoMemory>
        ensures { OnOk result (IsLearnt self.now (λ s cells. AllAre (bit_of self.now.answer) cells (map model_of_tree trees.now))
            table.old table.new run.old run.new) }
    {
        let Some((tree, rest)) = trees.split_first() else {
            return Ok(());
        };
        self.answer(table, run, tree)?;
        self.answers(table, run, rest)
    }

    /// Learns what is known of counter and registers, what the mark's hint says of views and numbers,
    /// and the addresses that the test of a job reads.
    pub fn tell(&self, table: &mut Classes, run: &mut Run, job: &Job) -> Result<(), NoMemory>
        ensures { OnOk result (IsLearnt self.now (λ s cells. AllReadArrays self.now.from.now.spots cells (model_of_job job.now).trees)
            table.old table.new run.old run.new) }
    {
        self.count(table, run)?;
        self.all_symbols(table, run)?;
        self.views(table, run, self.from.spots.as_slice())?;
        self.numbers(table, run, self.from.numbers.as_slice())?;
        self.all_elements(table, run, job.trees.as_slice())
    }
}
