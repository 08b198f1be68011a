//! What is read of an image text from its front.

ghost use Rattle.std.specs.Prelude.{◌≡◌, ◌≤◌, IfOk, None};
ghost use Rattle.image_text.specs.Inner.Fronts.{may_follow, last_mark, with_size, with_place, with_cost, with_mark, with_word, whole, opened, with_item, after_nothing, after_size, step, step_line};

use code_model::{Image, Limits, Mark, Place, Word};
use image_items::{Item, item_of};
use rec_bits::{Items, NoMemory, mask};
use std::alloc::Global;
use text_lines::bytes_of;

/// What the lines so far say.
#[derive(Drop)]
pub enum Front {
    Nothing,
    /// How many words are announced.
    Sized(u32),
    /// The image so far, and how many words it is to have.
    Open { count: u32, image: Image },
    /// All of an image.
    Whole(Image),
}

#[tactic(auto, unfolding(crate::specs::Inner::Fronts::with_size))]
fn with_size(limits: Limits, bits: u32, count: u32) -> Option<Front>
    ensures { result ≡ with_size limits bits count }
{
    if bits == u32::from(limits.bits) && count <= limits.words {
        Some(Front::Sized(count))
    } else {
        None
    }
}

fn opened(alloc: Global, limits: Limits, count: u32, temps: u32) -> Front
    ensures { result ≡ Front.Open count (opened limits temps) }
{
    Front::Open {
        count,
        image: Image {
            bits: limits.bits,
            temps,
            places: Items::new(alloc),
            costs: Items::new(alloc),
            marks: Items::new(alloc),
            words: Items::new(alloc),
        },
    }
}

#[tactic(auto, unfolding(crate::specs::Inner::Fronts::with_place))]
fn with_place(count: u32, mut image: Image, place: Place) -> Result<Option<Front>, NoMemory>
    ensures { IfOk result (λ front. front ≡ with_place count image place) }
{
    if !image.costs.is_empty() || !image.marks.is_empty() || !image.words.is_empty() {
        return Ok(None);
    }
    image.places.push(place)?;
    Ok(Some(Front::Open { count, image }))
}

#[tactic(auto, unfolding(crate::specs::Inner::Fronts::with_cost))]
fn with_cost(count: u32, mut image: Image, cost: (u32, u32)) -> Result<Option<Front>, NoMemory>
    ensures { IfOk result (λ front. front ≡ with_cost count image cost) }
{
    if !image.marks.is_empty() || !image.words.is_empty() {
        return Ok(None);
    }
    image.costs.push(cost)?;
    Ok(Some(Front::Open { count, image }))
}

fn last_of(marks: &[Mark]) -> Option<Mark>
    ensures { result ≡ last_mark None marks.now }
{
    marks.last().copied()
}

// Whether a mark may stand behind one: behind the end none may.
fn follows(last: Option<Mark>, mark: Mark) -> bool
    ensures { result ≡ may_follow last mark }
{
    match last {
        None => true,
        Some(last) => last.address < mark.address && last.label.is_some(),
    }
}

#[tactic(auto, unfolding(crate::specs::Inner::Fronts::with_mark))]
fn with_mark(count: u32, mut image: Image, mark: Mark) -> Result<Option<Front>, NoMemory>
    ensures { IfOk result (λ front. front ≡ with_mark count image mark) }
{
    if !image.words.is_empty() || !follows(last_of(image.marks.as_slice()), mark) {
        return Ok(None);
    }
    image.marks.push(mark)?;
    Ok(Some(Front::Open { count, image }))
}

#[tactic(auto, unfolding(crate::specs::Inner::Fronts::with_word))]
fn with_word(
    limits: Limits,
    count: u32,
    mut image: Image,
    address: u32,
    code: Word,
) -> Result<Option<Front>, NoMemory>
    requires some { 1 ≤ limits.bits }
    requires narrow { limits.bits ≤ 64 }
    ensures { IfOk result (λ front. front ≡ with_word limits count image address code) }
{
    if address as usize != image.words.len() || address >= count || code.word > mask(limits.bits) {
        return Ok(None);
    }
    image.words.push(code)?;
    Ok(Some(Front::Open { count, image }))
}

#[tactic(auto, unfolding(crate::specs::Inner::Fronts::whole))]
fn whole(count: u32, image: Image) -> Option<Front>
    ensures { result ≡ whole count image }
{
    if image.words.len() == count as usize {
        Some(Front::Whole(image))
    } else {
        None
    }
}

#[tactic(auto, unfolding(crate::specs::Inner::Fronts::with_item))]
fn with_item(
    limits: Limits,
    count: u32,
    image: Image,
    item: Item,
) -> Result<Option<Front>, NoMemory>
    requires some { 1 ≤ limits.bits }
    requires narrow { limits.bits ≤ 64 }
    ensures { IfOk result (λ front. front ≡ with_item limits count image item) }
{
    match item {
        Item::Variable(place) => with_place(count, image, place),
        Item::Tree(cost) => with_cost(count, image, cost),
        Item::Label(mark) => with_mark(count, image, mark),
        Item::Code { address, word } => with_word(limits, count, image, address, word),
        Item::Done => Ok(whole(count, image)),
        Item::Size { .. } | Item::Temps(_) => Ok(None),
    }
}

#[tactic(auto, unfolding(crate::specs::Inner::Fronts::after_nothing))]
fn after_nothing(limits: Limits, item: Item) -> Option<Front>
    ensures { result ≡ after_nothing limits item }
{
    match item {
        Item::Size { bits, count } => with_size(limits, bits, count),
        _ => None,
    }
}

#[tactic(auto, unfolding(crate::specs::Inner::Fronts::after_size))]
fn after_size(alloc: Global, limits: Limits, count: u32, item: Item) -> Option<Front>
    ensures { result ≡ after_size limits count item }
{
    match item {
        Item::Temps(temps) => Some(opened(alloc, limits, count, temps)),
        _ => None,
    }
}

#[tactic(auto, unfolding(crate::specs::Inner::Fronts::step))]
fn step(alloc: Global, limits: Limits, front: Front, item: Item) -> Result<Option<Front>, NoMemory>
    requires some { 1 ≤ limits.bits }
    requires narrow { limits.bits ≤ 64 }
    ensures { IfOk result (λ next. next ≡ step limits front item) }
{
    match front {
        Front::Nothing => Ok(after_nothing(limits, item)),
        Front::Sized(count) => Ok(after_size(alloc, limits, count, item)),
        Front::Open { count, image } => {
            let next = with_item(limits, count, image, item)?;
            Ok(next)
        }
        Front::Whole(_) => Ok(None),
    }
}

/// What is read with one more line, or None where no text of an image that keeps to the limits goes
/// on so.
#[tactic(auto, unfolding(crate::specs::Inner::Fronts::step_line))]
pub fn step_line(
    alloc: Global,
    limits: Limits,
    front: Front,
    line: &[u8],
) -> Result<Option<Front>, NoMemory>
    requires some { 1 ≤ limits.bits }
    requires narrow { limits.bits ≤ 64 }
    ensures { IfOk result (λ next. next ≡ step_line limits front line.now) }
{
    let bytes = bytes_of(limits.bits);
    match item_of(alloc, line, bytes)? {
        Some(item) => {
            let next = step(alloc, limits, front, item)?;
            Ok(next)
        }
        None => Ok(None),
    }
}
