//! What the remarks of an image's text say of its marks, as the check asks for it. Nothing is promised
//! of hints: the check looks at each, and a wrong one leads to a refusal alone. Marks go up the addresses
//! as what is remarked does, so that each remark is passed but once.

use crate::interning::put_expr;
use crate::trees::Memory;
use crate::views::same_name;
use code_model::{Hidden, Mark, View, Viewed};
use mark_start::{Hint, Holding, Numbered, Spot};
use net_model::{Expr, Storage};
use rec_bits::{Items, Name, NoMemory};
use std::alloc::Global;
use sym_expr::{ExprId, Pool};
use view_lines::{Holder, Remark};
use view_parts::register_part;

/// What hints are made from.
#[derive(Clone, Copy)]
pub struct Remarks<'a> {
    pub storages: &'a [Storage],
    pub viewed: &'a Viewed,
    pub memory: Memory<'a>,
    pub remarks: &'a [Remark],
}

// What hints of marks are made from that lie at an address and behind it: what is remarked goes up the
// addresses.
#[derive(Clone, Copy)]
struct Later<'a> {
    views: &'a [View],
    holdings: &'a [Remark],
    numbers: &'a [Remark],
}

// Whether what is hidden comes before what is hidden at marks of a label: tests go up their numbers,
// and the end is the last.
fn is_hidden_before(one: &Hidden, label: Option<u32>) -> bool {
    match (one.label, label) {
        (Some(test), Some(other)) => test < other,
        (Some(_), None) => true,
        (None, _) => false,
    }
}

/// What is hidden at marks of a label and of those behind it, in the order of the text.
pub fn hidden_from(hidden: &[Hidden], label: Option<u32>) -> &[Hidden] {
    let mut low = 0;
    let mut high = hidden.len();
    while low < high {
        let middle = low + (high - low) / 2;
        if is_hidden_before(&hidden[middle], label) {
            low = middle + 1;
        } else {
            high = middle;
        }
    }
    &hidden[low..]
}

/// What is hidden behind the first, if that is this variable at marks of a label.
pub fn hidden_behind<'a>(
    hidden: &'a [Hidden],
    label: Option<u32>,
    name: &Name,
) -> Option<&'a [Hidden]> {
    let (one, rest) = hidden.split_first()?;
    if one.label == label && same_name(&one.name, name) {
        Some(rest)
    } else {
        None
    }
}

// The views from the first on that isn't below an address.
fn views_from(views: &[View], low: u32) -> &[View] {
    let mut rest = views;
    while let Some((view, more)) = rest.split_first() {
        if view.address >= low {
            break;
        }
        rest = more;
    }
    rest
}

// Whether a remark comes before what is held at an address.
fn is_before_holdings(remark: &Remark, at: u32) -> bool {
    match remark {
        Remark::Hide { .. } | Remark::View { .. } => true,
        Remark::Hold { address, .. } => *address < at,
        Remark::Know { .. } => false,
    }
}

// Whether a remark comes before the numbers that are known at an address.
fn is_before_numbers(remark: &Remark, at: u32) -> bool {
    match remark {
        Remark::Hide { .. } | Remark::View { .. } | Remark::Hold { .. } => true,
        Remark::Know { address, .. } => *address < at,
    }
}

// The remarks from the first on that doesn't come before what is held at an address.
fn holdings_from(remarks: &[Remark], at: u32) -> &[Remark] {
    let mut rest = remarks;
    while let Some((remark, more)) = rest.split_first() {
        if !is_before_holdings(remark, at) {
            break;
        }
        rest = more;
    }
    rest
}

// The remarks from the first on that doesn't come before the numbers that are known at an address.
fn numbers_from(remarks: &[Remark], at: u32) -> &[Remark] {
    let mut rest = remarks;
    while let Some((remark, more)) = rest.split_first() {
        if !is_before_numbers(remark, at) {
            break;
        }
        rest = more;
    }
    rest
}

// What is left for marks from an address on.
fn later_from<'a>(later: Later<'a>, low: u32) -> Later<'a> {
    Later {
        views: views_from(later.views, low),
        holdings: holdings_from(later.holdings, low),
        numbers: numbers_from(later.numbers, low),
    }
}

// The first view and those behind it, if it is that of this variable at this address.
fn first_view<'a>(views: &'a [View], address: u32, name: &Name) -> Option<(&'a View, &'a [View])> {
    let (view, rest) = views.split_first()?;
    if view.address == address && same_name(&view.name, name) {
        Some((view, rest))
    } else {
        None
    }
}

// A number as the address of a cell.
fn address_of(alloc: Global, width: u8, at: u32) -> Result<Box<Expr>, NoMemory> {
    let address = Box::new(
        alloc,
        Expr::Const {
            width,
            value: u64::from(at),
        },
    )?;
    Ok(address)
}

// A cell of the memory or the file of a name.
fn cell_named(
    alloc: Global,
    storages: &[Storage],
    name: &[u8],
    at: u32,
) -> Result<Option<Expr>, NoMemory> {
    for storage in storages {
        match storage {
            Storage::Memory(cells) if cells.name.as_slice() == name => {
                let address = address_of(alloc, cells.addr_width, at)?;
                return Ok(Some(Expr::Read(address, cells.width)));
            }
            Storage::File(cells) if cells.name.as_slice() == name => {
                let address = address_of(alloc, cells.addr_width, at)?;
                return Ok(Some(Expr::Cell(address, cells.width)));
            }
            _ => {}
        }
    }
    Ok(None)
}

impl Remarks<'_> {
    // Where all variables are at a mark. What is hidden there, and the views there, stand in the order
    // of the variables.
    fn spots(
        &self,
        alloc: Global,
        pool: &mut Pool,
        mark: Mark,
        views: &[View],
    ) -> Result<Items<Spot>, NoMemory> {
        let mut views = views;
        let mut hidden = hidden_from(self.viewed.hidden.as_slice(), mark.label);
        let mut spots = Items::new(alloc);
        for variable in 0..self.memory.places.len() {
            let place = &self.memory.places[variable];
            let behind = hidden_behind(hidden, mark.label, &place.name);
            let mut value = None;
            if let Some((view, rest)) = first_view(views, mark.address, &place.name) {
                value = put_expr(alloc, pool, &view.value)?;
                views = rest;
            }
            spots.push(Spot {
                address: place.address,
                len: place.len,
                is_array: self.memory.is_array(variable),
                hidden: behind.is_some(),
                view: value,
            })?;
            if let Some(rest) = behind {
                hidden = rest;
            }
        }
        Ok(spots)
    }

    // What a holder is, in the pool.
    fn holder(
        &self,
        alloc: Global,
        pool: &mut Pool,
        holder: &Holder,
    ) -> Result<Option<ExprId>, NoMemory> {
        let place = match holder {
            Holder::Register(name) => register_part(self.storages, name.as_slice()),
            Holder::Cell { cells, at } => {
                cell_named(alloc, self.storages, cells.as_slice(), *at)?
            }
        };
        match place {
            Some(place) => put_expr(alloc, pool, &place),
            None => Ok(None),
        }
    }

    // What registers and cells hold at an address, which remarks begin with.
    fn holdings(
        &self,
        alloc: Global,
        pool: &mut Pool,
        at: u32,
        remarks: &[Remark],
    ) -> Result<Items<Holding>, NoMemory> {
        let mut holdings = Items::new(alloc);
        for remark in remarks {
            let Remark::Hold {
                address,
                holder,
                value,
            } = remark
            else {
                break;
            };
            if *address != at {
                break;
            }
            let place = self.holder(alloc, pool, holder)?;
            let tree = self.memory.tree(alloc, value)?;
            if let (Some(place), Some(tree)) = (place, tree) {
                holdings.push(Holding { place, tree })?;
            }
        }
        Ok(holdings)
    }

    // The numbers of variables that are known at an address, which remarks begin with.
    fn numbers(
        &self,
        alloc: Global,
        at: u32,
        remarks: &[Remark],
    ) -> Result<Items<Numbered>, NoMemory> {
        let mut numbers = Items::new(alloc);
        for remark in remarks {
            let Remark::Know {
                address,
                name,
                value,
            } = remark
            else {
                break;
            };
            if *address != at {
                break;
            }
            let places = self.memory.places;
            let variable = self.memory.variable(name.as_slice());
            if let Some(place) = variable.and_then(|variable| places.get(variable)) {
                numbers.push(Numbered {
                    address: place.address,
                    number: *value,
                })?;
            }
        }
        Ok(numbers)
    }

    // What is said of states at a mark, by what is remarked from there on.
    fn hint(
        &self,
        alloc: Global,
        pool: &mut Pool,
        mark: Mark,
        later: Later<'_>,
    ) -> Result<Hint, NoMemory> {
        let spots = self.spots(alloc, pool, mark, later.views)?;
        let holdings = self.holdings(alloc, pool, mark.address, later.holdings)?;
        let numbers = self.numbers(alloc, mark.address, later.numbers)?;
        Ok(Hint {
            address: mark.address,
            label: mark.label,
            spots,
            holdings,
            numbers,
        })
    }

    /// A hint for each mark, whose ids are of the pool.
    pub fn hints(&self, alloc: Global, pool: &mut Pool) -> Result<Items<Hint>, NoMemory> {
        let mut hints = Items::new(alloc);
        let mut later = Later {
            views: self.viewed.views.as_slice(),
            holdings: self.remarks,
            numbers: self.remarks,
        };
        for mark in self.viewed.image.marks.as_slice() {
            later = later_from(later, mark.address);
            hints.push(self.hint(alloc, pool, *mark, later)?)?;
        }
        Ok(hints)
    }
}
