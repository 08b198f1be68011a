//! The patterns of a netlist.

ghost use Rattle.std.specs.Prelude.{◌≡◌, ◌==◌, length, option_copied, option_map, slice_get, IfOk};
ghost use Rattle.bit_bdd.specs.Diagrams.{Extends};
ghost use Rattle.ctl_bdd.specs.Controls.{IsControl};
ghost use Rattle.net_model.specs.Nets.{file_place, word_width};
ghost use Rattle.transfer_set.specs.Ready.{IsReady};
ghost use Rattle.transfer_set.specs.Routes.{AreRoutes};

mod pattern_text;

use crate::keeping::keep_sets;
use crate::route::Routes;
use crate::row::{Row, sorted_rows};
use crate::sources::{Source, collect_entries};
use crate::stepping::{Counter, step_set};
use bit_bdd::{Book, SetId};
use ctl_bdd::ControlBits;
use net_model::{Checked, Space};
use rec_bits::{Items, NoMemory};
use std::alloc::Global;
use std::marker::Model;
use sym_expr::{ExprId, Pool};

/// The patterns of a netlist: what its instruction words do to its storages, each with all words
/// that do it. They are numbered from 0 in the order of their storages and then of the texts of
/// their transfers.
#[derive(Drop)]
pub struct Patterns {
    rows: Vec<Row>,
    keeps: Items<SetId>,
    step: SetId,
    memory: u32,
    file: Option<u32>,
}

impl Model for Patterns {
    ghost use Rattle.std.specs.Prelude.{◌^◌, ◌<◌, length};
    ghost use Rattle.transfer_set.specs.Tables.{PatternTable};

    ghost Value = { PatternTable };

    ghost view = { λ patterns. record {
      rows = patterns.rows.items;
      keeps = patterns.keeps;
      step = patterns.step;
      memory = patterns.memory;
      file = patterns.file;
    } };

    ghost invariant = { λ patterns. length patterns.rows.items < 2 ^ 32 };
}

/// The patterns of a netlist, from its control bits and the routes of its nets: exactly those that
/// it has, each with all its words. The book grows, and what it held means what it meant.
pub fn collect_patterns(
    alloc: Global,
    checked: &Checked,
    controls: &ControlBits,
    routes: &Routes,
    book: &mut Book,
    pool: &Pool,
) -> Result<Patterns, NoMemory>
    requires controls { IsControl checked.now.netlist book.old controls.now }
    requires routes { AreRoutes checked.now.netlist book.old pool.now controls.now.legal routes.now.of }
    requires word { book.old.bits ≡ word_width checked.now.netlist }
    ensures grows { Extends book.old book.new }
    ensures ready { IfOk result (IsReady checked.now.netlist book.new pool.now) }
{
    // the size tells what the first two ids mean
    let _ = book.size();
    let storages = checked.netlist().storages.len() as u32;
    let source = Source {
        checked,
        pool,
        controls,
        routes,
    };
    let entries = collect_entries(alloc, &source, book)?;
    let keeps = keep_sets(alloc, book, controls.legal, entries.as_slice(), storages)?;
    let step = step_set(alloc, book, pool, entries.as_slice(), Counter::of(checked))?;
    let rows = sorted_rows(alloc, checked, pool, entries.as_slice())?;
    Ok(Patterns {
        rows,
        keeps,
        step,
        memory: checked.memory(),
        file: file_of(checked),
    })
}

// The number of the register file's storage, where there is one.
fn file_of(checked: &Checked) -> Option<u32>
    ensures { result ≡ file_place checked.now.netlist.storages }
{
    let place = checked.place(Space::File);
    if (place as usize) < checked.netlist().storages.len() {
        Some(place)
    } else {
        None
    }
}

impl Patterns {
    /// How many patterns there are.
    pub fn len(&self) -> u32
        ensures { result ≡ length self.now.rows }
    {
        self.rows.len() as u32
    }

    /// Whether there are none.
    pub fn is_empty(&self) -> bool
        ensures { result ≡ (length self.now.rows == 0) }
    {
        self.rows.is_empty()
    }

    // What is told of each pattern, by their numbers.
    pub(crate) fn rows(&self) -> &[Row]
        ensures { result.now ≡ self.now.rows }
    {
        self.rows.as_slice()
    }

    fn row(&self, pattern: u32) -> Option<&Row>
        ensures { option_copied result ≡ slice_get self.now.rows pattern }
    {
        self.rows.get(pattern as usize)
    }

    /// The number of the storage of the pattern of this number; `None` past the last.
    pub fn storage_of(&self, pattern: u32) -> Option<u32>
        ensures { result ≡ option_map (λ row. row.storage) (slice_get self.now.rows pattern) }
    {
        self.row(pattern).map(|row| row.storage)
    }

    /// The words without clash that give the pattern's storage its transfer; `None` past the last
    /// pattern.
    pub fn set_of(&self, pattern: u32) -> Option<SetId>
        ensures { result ≡ option_map (λ row. row.set) (slice_get self.now.rows pattern) }
    {
        self.row(pattern).map(|row| row.set)
    }

    /// The address and the value of the pattern's transfer, with an address exactly where the
    /// storage is the memory or the register file; `None` past the last pattern.
    pub fn expr_of(&self, pattern: u32) -> Option<(Option<ExprId>, ExprId)>
        ensures { result ≡ option_map (λ row. (row.addr, row.value)) (slice_get self.now.rows pattern) }
    {
        self.row(pattern).map(|row| (row.addr, row.value))
    }

    /// The instruction bits that occur in the pattern's transfer, as a mask; `None` past the last
    /// pattern.
    pub fn fields_of(&self, pattern: u32) -> Option<u64>
        ensures { result ≡ option_map (λ row. row.fields) (slice_get self.now.rows pattern) }
    {
        self.row(pattern).map(|row| row.fields)
    }

    /// The words without clash under which the storage of this number keeps what it holds; `None`
    /// past the last storage.
    pub fn keep_set(&self, storage: u32) -> Option<SetId>
        ensures { result ≡ slice_get self.now.keeps storage }
    {
        self.keeps.get(storage as usize).copied()
    }

    /// The words without clash that step: the program counter becomes itself plus 1.
    pub fn step_set(&self) -> SetId
        ensures { result ≡ self.now.step }
    {
        self.step
    }

    /// The number of the register file's storage, and None exactly where there is none.
    pub fn file(&self) -> Option<u32>
        ensures { result ≡ self.now.file }
    {
        self.file
    }

    /// The number of the data memory's storage.
    pub fn memory(&self) -> u32
        ensures { result ≡ self.now.memory }
    {
        self.memory
    }
}
