//! The ways of an image's words.

ghost use Rattle.std.specs.Prelude.{◌≡◌, ◌<◌, ◌^◌, None, map, length, IfOk, option_copied, slice_get};
ghost use Rattle.rec_bits.specs.Operators.{IsWidth};
ghost use Rattle.net_model.specs.Nets.{memory_width};
ghost use Rattle.src_model.specs.Written.{model_of_program};
ghost use Rattle.code_model.specs.Places.{words_of};
ghost use Rattle.code_model.specs.declared.image.Mark.{Mark as TheMark};
ghost use Rattle.src_trees.specs.Flows.{program_flow, program_jobs};
ghost use Rattle.src_trees.specs.Jobs.{models_of_jobs};
ghost use Rattle.sym_run.specs.Walks.{AreAllWithin};
ghost use Rattle.follow.specs.RightByViews.{IsLaidFor, image_memory};
ghost use Rattle.followed.specs.Inner.Ascending.{ComeFrom};
ghost use Rattle.followed.specs.Inner.Coded.{AreWordsOf};
ghost use Rattle.followed.specs.Inner.Led.{HasFollowed, IsWhole};
ghost use Rattle.followed.specs.Inner.Hinted.{AreHere, AreNew};
ghost use Rattle.followed.specs.Said.{relation_at};

use crate::claim::Claim;
use crate::code::goes_to;
use crate::fault::CheckFault;
use crate::front::Front;
use crate::later::all_of;
use crate::passed::Passed;
use crate::said::{Seen, are_arrays, are_bare, first_low};
use code_model::{Mark, Place};
use form_model::Blocks;
use mark_start::{Hint, Spot};
use net_model::{Netlist, Space, Storage};
use rec_bits::{Items, NoMemory};
use src_model::Var;
use std::alloc::Global;
use sym_expr::Pool;
use sym_run::Coded;

// The marked addresses.
fn addresses(alloc: Global, marks: &[Mark]) -> Result<Items<u64>, NoMemory>
    ensures { IfOk result (λ all. all ≡ map (λ (mark : TheMark). mark.address) marks.now) }
{
    let mut all = Items::new(alloc);
    for mark in marks {
        all.push(u64::from(mark.address))?;
    }
    Ok(all)
}

// What the word at an address does.
fn coded_at(code: &[Coded], at: u64) -> Option<&Coded>
    ensures { option_copied result ≡ slice_get code.now at }
{
    code.get(at as usize)
}

// A hint of the first word, where all variables stand in their places.
fn first_hint(alloc: Global, places: &[Place], vars: &[Var]) -> Result<Hint, NoMemory> {
    let mut spots = Items::new(alloc);
    for (place, var) in places.iter().zip(vars) {
        spots.push(Spot {
            address: place.address,
            len: place.len,
            is_array: var.len.is_some(),
            hidden: false,
            view: None,
        })?;
    }
    Ok(Hint {
        address: 0,
        label: None,
        spots,
        holdings: Items::new(alloc),
        numbers: Items::new(alloc),
    })
}

impl Front<'_> {
    // The ways from the start and from all marks, by hints that have to be those of the marks.
    fn ways(&self, alloc: Global, seen: &Seen<'_>) -> Result<Passed, CheckFault>
        requires pool { seen.now.pool.now ≡ self.now.pool.now }
        requires views { ComeFrom 0 seen.now.viewed.now.views }
        requires width { IsWidth self.now.word }
        requires code { AreAllWithin (length self.now.pool.now) self.now.code.now }
        requires few { length self.now.flow.now < 2 ^ 32 }
        ensures { IfOk result (IsWhole seen.now.viewed.now seen.now.vars.now self.now) }
    {
        if let Some(at) = first_low(0, self.hints, 0) {
            return Err(CheckFault::Hint(at));
        }
        if let Some(at) = seen.first_odd(all_of(seen.viewed), self.hints, 0) {
            return Err(CheckFault::Hint(at));
        }
        let places = seen.viewed.image.places.as_slice();
        let hint = first_hint(alloc, places, seen.vars)?;
        self.ways_from(alloc, seen, &hint)
    }

    // Those, where a hint has to be that of the first word.
    fn ways_from(&self, alloc: Global, seen: &Seen<'_>, first: &Hint) -> Result<Passed, CheckFault>
        requires new { AreNew self.now.hints.now }
        requires here { AreHere seen.now.viewed.now seen.now.vars.now self.now.pool.now self.now.hints.now }
        requires width { IsWidth self.now.word }
        requires code { AreAllWithin (length self.now.pool.now) self.now.code.now }
        requires few { length self.now.flow.now < 2 ^ 32 }
        ensures { IfOk result (IsWhole seen.now.viewed.now seen.now.vars.now self.now) }
    {
        if !are_bare(seen.viewed.image.places.as_slice(), first.spots.as_slice()) {
            return Err(CheckFault::Place(0));
        }
        if !are_arrays(seen.vars, first.spots.as_slice()) {
            return Err(CheckFault::Place(0));
        }
        let way = self.first_way(alloc, first)?;
        let turns = self.all_turns(alloc, seen.viewed.image.marks.as_slice())?;
        Ok(Passed { first: way, turns })
    }
}

// The ways of an image whose words do this.
pub(crate) fn ways_of(
    alloc: Global,
    claim: &Claim<'_>,
    pool: &Pool,
    blocks: &Blocks,
    code: &[Coded],
) -> Result<Passed, CheckFault>
    requires modeless { claim.now.checked.now.netlist.special ≡ None }
    requires word { memory_width claim.now.checked.now.netlist.storages ≡ claim.now.typed.now.width }
    requires views { ComeFrom 0 claim.now.viewed.now.views }
    requires code { AreWordsOf claim.now.checked.now.netlist pool.now (words_of claim.now.viewed.now.image) code.now }
    requires laid { IsLaidFor claim.now.checked.now.netlist claim.now.typed.now.width (model_of_program claim.now.typed.now.program)
        claim.now.viewed.now.image }
    requires flow { blocks.now.flow ≡ program_flow (model_of_program claim.now.typed.now.program) }
    requires jobs { models_of_jobs blocks.now.jobs.items
        ≡ program_jobs (image_memory claim.now.checked.now.netlist claim.now.typed.now.width claim.now.viewed.now.image)
        (model_of_program claim.now.typed.now.program) }
    ensures { IfOk result (HasFollowed claim.now.checked.now.netlist claim.now.typed.now.width (model_of_program claim.now.typed.now.program)
        claim.now.viewed.now (relation_at pool.now claim.now.hints.now)) }
{
    let checked = claim.checked;
    let image = &claim.viewed.image;
    let netlist = checked.netlist();
    if blocks.flow.len() > 0xffff_ffff {
        return Err(CheckFault::Marks);
    }
    let count = image.words.len() as u64;
    if count == 0 {
        return Err(CheckFault::EndWord);
    }
    let clocks = count - 1;
    let counter = u64::from(checked.pc());
    let memory = u64::from(checked.memory());
    let file = u64::from(checked.place(Space::File));
    let file_cells = u64::from(checked.size(Space::File));
    let Some(coded) = coded_at(code, clocks) else {
        return Err(CheckFault::EndWord);
    };
    if !goes_to(pool, coded, counter, memory, clocks) {
        return Err(CheckFault::EndWord);
    }
    let marks = addresses(alloc, image.marks.as_slice())?;
    let seen = Seen {
        pool,
        viewed: claim.viewed,
        vars: claim.typed.program().vars.as_slice(),
    };
    let front = Front {
        pool,
        code,
        marks: marks.as_slice(),
        storages: netlist.storages.as_slice(),
        counter,
        memory,
        file,
        file_cells,
        file_word: checked.width(Space::File),
        counter_width: counter_width(netlist, checked.pc()),
        word: checked.memory_width(),
        addr: addr_width(netlist, checked.memory()),
        temps: image.temps,
        hints: claim.hints,
        flow: blocks.flow.as_slice(),
        jobs: blocks.jobs.as_slice(),
        clocks,
    };
    front.ways(alloc, &seen)
}

// The bits of a register, and 1 where it is none.
fn counter_width(netlist: &Netlist, storage: u32) -> u8 {
    match netlist.storages.get(storage as usize) {
        Some(Storage::Register { width, .. }) => *width,
        _ => 1,
    }
}

// The bits of a memory's addresses, and 1 where it is none.
fn addr_width(netlist: &Netlist, storage: u32) -> u8 {
    match netlist.storages.get(storage as usize) {
        Some(Storage::Memory(cells)) => cells.addr_width,
        _ => 1,
    }
}
