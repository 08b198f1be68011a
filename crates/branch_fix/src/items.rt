//! The words of parts.

ghost use Rattle.std.specs.Prelude.{◌≡◌, ◌+◌, ◌<◌, ◌^◌, ◌++◌, ◌∷◌, [], IfOk, OnOk};
ghost use Rattle.form_model.specs.Forms.{models_of_forms};
ghost use Rattle.branch_fix.specs.declared.laid.Item.TheVariants.{Jump as Word};
ghost use Rattle.branch_fix.specs.declared.part.LayoutPart.TheVariants.{Test};
ghost use Rattle.branch_fix.specs.Parts.{room, total};
ghost use Rattle.branch_fix.specs.Items.{behind, groups, items_from, jump_step, part_items, form_in};

use crate::jumps::{branch_step, jump_step};
use crate::laid::Item;
use crate::part::{BranchedTest, LayoutPart};
use crate::rooms::{address_at, room};
use form_model::Form;
use rec_bits::{Items, NoMemory};
use std::alloc::Global;

// Adds the words of a block's groups.
fn push_groups(items: &mut Items<Item>, block: u32, words: u32) -> Result<(), NoMemory>
    ensures { OnOk result (items.new ≡ items.old ++ groups block 0 words) }
{
    for at in 0..words {
        items.push(Item::Group { block, at })?;
    }
    Ok(())
}

fn push_jump(items: &mut Items<Item>, jump: Option<&Form>, to: u64) -> Result<(), NoMemory>
    ensures { OnOk result (items.new ≡ items.old ++ Word (jump_step (form_in jump.entry) to) ∷ []) }
{
    let step = jump_step(jump, to)?;
    items.push(Item::Jump(step))?;
    Ok(())
}

// Adds the words behind a branch word.
fn push_behind(
    items: &mut Items<Item>,
    jump: Option<&Form>,
    next: bool,
    long: bool,
    to: u64,
    other: u64,
) -> Result<(), NoMemory>
    ensures { OnOk result (items.new ≡ items.old ++ behind (form_in jump.entry) next long to other) }
{
    if long {
        push_jump(items, jump, other)?;
        push_jump(items, jump, to)?;
    } else if !next {
        push_jump(items, jump, other)?;
    }
    Ok(())
}

// Adds the words of a test at an address.
fn push_fork(
    items: &mut Items<Item>,
    forms: &[Form],
    jump: Option<&Form>,
    addresses: &[u64],
    at: u64,
    fork: BranchedTest,
) -> Result<(), NoMemory>
    requires { at + fork.words < 2 ^ 64 }
    ensures { OnOk result (items.new ≡ items.old
        ++ part_items (models_of_forms forms.now) (form_in jump.entry) addresses.now at (Test fork)) }
{
    let to = address_at(addresses, fork.to);
    let other = address_at(addresses, fork.other);
    push_groups(items, fork.block, fork.words)?;
    let step = branch_step(forms, fork, at + u64::from(fork.words), to)?;
    items.push(Item::Jump(step))?;
    push_behind(items, jump, fork.next, fork.long, to, other)
}

// Adds the words of a part at an address.
fn push_part(
    items: &mut Items<Item>,
    forms: &[Form],
    jump: Option<&Form>,
    addresses: &[u64],
    at: u64,
    part: LayoutPart,
) -> Result<(), NoMemory>
    requires { at + room part < 2 ^ 64 }
    ensures { OnOk result (items.new
        ≡ items.old ++ part_items (models_of_forms forms.now) (form_in jump.entry) addresses.now at part) }
{
    match part {
        LayoutPart::Block { block, words } => push_groups(items, block, words),
        LayoutPart::Inner => Ok(()),
        LayoutPart::Test(fork) => push_fork(items, forms, jump, addresses, at, fork),
        LayoutPart::Jump(to) => push_jump(items, jump, address_at(addresses, to)),
        LayoutPart::End => push_jump(items, jump, at),
    }
}

/// The words of parts.
pub fn items(
    alloc: Global,
    forms: &[Form],
    jump: Option<&Form>,
    addresses: &[u64],
    parts: &[LayoutPart],
) -> Result<Items<Item>, NoMemory>
    requires { total parts.now < 2 ^ 64 }
    ensures { IfOk result (λ items.
        items ≡ items_from (models_of_forms forms.now) (form_in jump.entry) addresses.now 0 parts.now) }
{
    let mut items = Items::new(alloc);
    let mut address = 0;
    for part in parts {
        push_part(&mut items, forms, jump, addresses, address, *part)?;
        address += room(*part);
    }
    Ok(items)
}
