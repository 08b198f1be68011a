//! The editions of netlist texts.

ghost use Rattle.std.specs.Prelude.{◌≡◌, map, option_copied, slice_get, IfOk, is_some};
ghost use Rattle.net_model.specs.Editions.{added_by, edited, is_added, is_version, item_of_number, item_or_name, item_told, lexed_in, names_version, word_in};

use net_model::{ItemWord, Key, Lexed, Symbol, Word};
use rec_bits::{Name, NoMemory};
use std::alloc::Global;

/// The item that an edition adds, or None where there is no such edition.
pub fn added_by(edition: u64) -> Option<ItemWord>
    ensures { result ≡ added_by edition }
{
    match edition {
        2 => Some(ItemWord::File),
        3 => Some(ItemWord::Mode),
        4 => Some(ItemWord::Bank),
        _ => None,
    }
}

/// Whether a text is the word of an item that an edition adds.
fn is_added(item: ItemWord, text: &[u8]) -> bool
    ensures { result ≡ is_added item text.now }
{
    match item {
        ItemWord::File => text == b"file".as_slice(),
        ItemWord::Mode => text == b"mode".as_slice(),
        ItemWord::Bank => text == b"bank".as_slice(),
        _ => false,
    }
}

fn is_version(word: &Word) -> bool
    ensures { result ≡ is_version word.now }
{
    match word {
        Word::Name(name) => name.as_slice() == b"version".as_slice(),
        _ => false,
    }
}

/// A name, or the word of the item that an edition adds.
fn item_or_name(added: Option<ItemWord>, name: Name) -> Word
    ensures { result ≡ item_or_name added name }
{
    match added {
        Some(item) => {
            if is_added(item, name.as_slice()) {
                Word::Key(Key::Item(item))
            } else {
                Word::Name(name)
            }
        }
        None => Word::Name(name),
    }
}

/// A word in a text of the edition that adds an item.
fn word_in(added: Option<ItemWord>, word: Word) -> Word
    ensures { result ≡ word_in added word }
{
    if is_version(&word) {
        return Word::Symbol(Symbol::Version);
    }
    match word {
        Word::Name(name) => item_or_name(added, name),
        word => word,
    }
}

fn item_of_number(word: &Word) -> Option<ItemWord>
    ensures { result ≡ item_of_number word.now }
{
    match word {
        Word::Number(edition) => added_by(*edition),
        _ => None,
    }
}

/// Whether a text begins with `version`.
fn names_version(ts: &[Lexed]) -> bool
    ensures { result ≡ names_version (slice_get ts.now 0) }
{
    match ts.get(0) {
        Some(t) => is_version(&t.word),
        None => false,
    }
}

/// The item of the edition that a text names.
fn item_told(ts: &[Lexed]) -> Option<ItemWord>
    ensures { result ≡ item_told (slice_get ts.now 1) }
{
    match ts.get(1) {
        Some(t) => item_of_number(&t.word),
        None => None,
    }
}

/// The tokens of a text, with the words of the edition that it names.
pub fn edited(alloc: Global, ts: Vec<Lexed>) -> Result<Vec<Lexed>, NoMemory>
    ensures { IfOk result (λ list. list.items ≡ edited ts.items) }
{
    if !names_version(ts.as_slice()) {
        return Ok(ts);
    }
    let added = item_told(ts.as_slice());
    let mut list = Vec::new(alloc);
    for t in ts {
        let word = word_in(added, t.word);
        list.push(Lexed { word, at: t.at })?;
    }
    Ok(list)
}
