//! What words do by themselves, beside what the patterns tell of them.

ghost use Rattle.std.specs.Prelude.{◌≡◌, ◌<◌, ◌≤◌, length};
ghost use Rattle.isa_extract.specs.Extraction.{IsExtractedFrom};
ghost use Rattle.net_model.specs.Nets.{word_width};
ghost use Rattle.net_model.specs.Widths.{WordFits};
ghost use Rattle.row_texts.specs.declared.words.TheConstants.{MOST_BITS};
ghost use Rattle.transfer_set.specs.Tables.{AreSets};

use bit_bdd::{Book, SetId};
use isa_extract::Isa;
use net_model::Checked;
use rec_bits::NoMemory;
use std::alloc::Global;
use sym_expr::Pool;
use transfer_set::Patterns;
use word_moves::{StorageMove, word_moves};

// The most bits of the words that are gone through.
const MOST_BITS: u8 = 16;

/// How many words there are, how many of them clash, and how many don't do what the patterns tell.
#[derive(Clone, Copy)]
pub struct Compared {
    pub words: u64,
    pub clashes: u64,
    pub differ: u64,
}

/// How many nets and storages a netlist has, how many patterns, how many nodes and expressions
/// stand behind these, and, where its words have at most 16 bits, what they do one by one.
#[derive(Clone, Copy)]
pub struct Found {
    pub nets: usize,
    pub storages: usize,
    pub patterns: u32,
    pub nodes: u64,
    pub expressions: u64,
    pub words: Option<Compared>,
}

// The bits of an instruction word.
fn word_bits(checked: &Checked) -> u8
    ensures { result ≡ word_width checked.now.netlist }
{
    checked.netlist().word_width()
}

// What is extracted of a netlist's words: patterns, and the set of the words without clash.
#[derive(Clone, Copy)]
struct Extracted<'a> {
    book: &'a Book,
    patterns: &'a Patterns,
    legal: SetId,
}

impl Extracted<'_> {
    // What the patterns tell that a word does to a storage.
    fn told(&self, storage: u32, word: u64) -> StorageMove
        requires { AreSets self.now.book.now self.now.patterns.now.rows }
    {
        for pattern in 0..self.patterns.len() {
            if self.patterns.storage_of(pattern) != Some(storage) {
                continue;
            }
            if let (Some(set), Some((addr, value))) = (
                self.patterns.set_of(pattern),
                self.patterns.expr_of(pattern),
            ) {
                if self.book.holds(set, word) {
                    return match addr {
                        None => StorageMove::Write(value),
                        Some(addr) => StorageMove::WriteAt { addr, value },
                    };
                }
            }
        }
        StorageMove::Keep
    }

    // Whether the patterns tell this of a word's storages, and nothing of a word that clashes.
    fn agrees(&self, moves: &[StorageMove], clash: bool, word: u64) -> bool
        requires { AreSets self.now.book.now self.now.patterns.now.rows }
    {
        for (storage, alone) in moves.iter().enumerate() {
            let Ok(storage) = u32::try_from(storage) else {
                return false;
            };
            let wanted = if clash { StorageMove::Keep } else { *alone };
            if self.told(storage, word) != wanted {
                return false;
            }
        }
        true
    }
}

// Whether a word does by itself, and whether it clashes, what the patterns and the set of the words
// without clash tell.
fn compare_word(
    alloc: Global,
    checked: &Checked,
    pool: &mut Pool,
    extracted: &Extracted<'_>,
    word: u64,
) -> Result<(bool, bool), NoMemory>
    requires word { WordFits checked.now.netlist word }
    requires sets { AreSets extracted.now.book.now extracted.now.patterns.now.rows }
    requires legal { extracted.now.legal < length extracted.now.book.now.nodes }
{
    let alone = word_moves(alloc, checked, pool, word)?;
    let clash = alone.clash.is_some();
    let same = extracted.agrees(alone.moves.as_slice(), clash, word);
    let legal = extracted.book.holds(extracted.legal, word);
    Ok((clash, same && clash != legal))
}

// Goes through all words of a code of at most 16 bits.
fn compare_all(
    alloc: Global,
    checked: &Checked,
    book: &Book,
    pool: &mut Pool,
    patterns: &Patterns,
    legal: SetId,
) -> Result<Compared, NoMemory>
    requires few { word_width checked.now.netlist ≤ MOST_BITS }
    requires sets { AreSets book.now patterns.now.rows }
    requires legal { legal < length book.now.nodes }
{
    // the netlist is read for what it keeps
    let _ = checked.netlist();
    let words = 1u64 << word_bits(checked);
    let extracted = Extracted {
        book,
        patterns,
        legal,
    };
    let mut found = Compared {
        words,
        clashes: 0,
        differ: 0,
    };
    for word in 0..words {
        let (clash, same) = compare_word(alloc, checked, pool, &extracted, word)?;
        found.clashes = found.clashes.saturating_add(u64::from(clash));
        found.differ = found.differ.saturating_add(u64::from(!same));
    }
    Ok(found)
}

/// The patterns of a netlist, and what its words do one by one. The pool grows by what they do.
pub fn compare_words(
    alloc: Global,
    checked: &Checked,
    extracted: &mut Isa,
) -> Result<Found, NoMemory>
    requires { IsExtractedFrom checked.now.netlist extracted.old }
{
    let Isa {
        book,
        pool,
        patterns,
        legal,
    } = extracted;
    let nodes = book.size();
    let expressions = pool.len();
    let words = if word_bits(checked) > MOST_BITS {
        None
    } else {
        Some(compare_all(alloc, checked, book, pool, patterns, *legal)?)
    };
    let netlist = checked.netlist();
    Ok(Found {
        nets: netlist.nets.len(),
        storages: netlist.storages.len(),
        patterns: patterns.len(),
        nodes,
        expressions,
        words,
    })
}
