//! Files in memory, some of whose fetches fail.

ghost use Rattle.std.specs.Prelude.{◌≡◌, ◌⊎◌, ◌^◌, ◌<◌, ◌≤◌, ◌+◌, true, length, min, option_map, IfSome, IfOk, IfErr};
ghost use Rattle.rec_io.specs.Causes.{count_after};
ghost use Rattle.rec_io.specs.Files.{file_of};
ghost use Rattle.rec_io.specs.MemShelf.{pairs_of, files_of, fails_of, fetches_of, shelf_state, first_state, IsFetchDue};
ghost use Rattle.rec_io.specs.Shelf.{IsGot, IsRefused};

use crate::{Fetch, Shelf};
use std::alloc::Global;

/// Files in memory, and the numbers of the fetches that are to fail. It tells its files.
#[derive(Drop)]
pub struct MemShelf {
    files: Vec<(String, Vec<u8>)>,
    fails: Vec<u64>,
    fetches: u64,
    faults: u64,
    taken: u64,
    last: Option<String>,
    failed: bool,
}

impl MemShelf {
    /// A shelf of these files, each a name and its bytes; the first pair with a name is the file.
    /// `fails` lists the numbers, from 1, of the fetches that are to fail. Takes no memory.
    pub fn new(files: Vec<(String, Vec<u8>)>, fails: Vec<u64>) -> MemShelf
        ensures state { shelf_state result ≡ first_state (pairs_of files.items) }
        ensures fails { fails_of result ≡ fails.items }
        ensures fetches { fetches_of result ≡ 0 }
    {
        MemShelf {
            files,
            fails,
            fetches: 0,
            faults: 0,
            taken: 0,
            last: None,
            failed: false,
        }
    }

    // The last fetch failed, which is counted.
    fn fail(&mut self) -> Fetch
        ensures answer { result ≡ Fetch.Failed }
        ensures change { self.new ≡ record self.old { failed = true; faults = count_after self.old.faults } }
        ensures later { self.old.faults ≤ self.new.faults }
    {
        self.failed = true;
        self.faults = self.faults.saturating_add(1);
        Fetch::Failed
    }
}

// The bytes of the file of this name.
fn find<'a>(files: &'a [(String, Vec<u8>)], name: &str) -> Option<&'a [u8]>
    ensures { option_map (λ bytes. bytes.now) result ≡ file_of (pairs_of files.now) name.now }
{
    for file in files {
        if file.0.as_str() == name {
            return Some(&file.1);
        }
    }
    None
}

impl Shelf for MemShelf {
    ghost state = { shelf_state };

    /// As [`Shelf::fetch`]. A fetch fails exactly where its number is listed or no pair has the
    /// name, unless memory is wanting. Of a file that is too long it gets `limit` bytes and one.
    fn fetch(&mut self, alloc: Global, name: &str, limit: u64) -> Result<Vec<u8>, Fetch>
        requires { limit < 2 ^ 32 }

        // As of every shelf.
        ensures same { files_of self.new ≡ files_of self.old }
        ensures later { (shelf_state self.old).faults ≤ (shelf_state self.new).faults }
        ensures within { (shelf_state self.new).taken ≤ limit + 1 }
        ensures got { IfOk result (λ bytes.
            IsGot (shelf_state self.old) (shelf_state self.new) name.now limit bytes.items) }
        ensures refused { IfErr result (IsRefused (shelf_state self.old) (shelf_state self.new) name.now limit) }

        // Of this one alone.
        ensures turn { fetches_of self.new ≡ count_after (fetches_of self.old) }
        ensures fails { fails_of self.new ≡ fails_of self.old }
        ensures due { result ≡ Err Fetch.Failed → IsFetchDue self.old name.now }
        ensures faulty { IsFetchDue self.old name.now → (result ≡ Err Fetch.Failed) ⊎ (result ≡ Err Fetch.Memory) }
        ensures nothing { result ≡ Err Fetch.Failed → (shelf_state self.new).taken ≡ 0 }
        ensures whole { result ≡ Err (Fetch.TooLong limit)
            → IfSome (file_of (files_of self.old) name.now) (λ bytes.
            (shelf_state self.new).taken ≡ min (length bytes) (limit + 1)) }
    {
        self.fetches = self.fetches.saturating_add(1);
        self.failed = false;
        self.taken = 0;
        self.last = Some(String::from_str(alloc, name)?);
        if self.fails.contains(&self.fetches) {
            return Err(self.fail());
        }
        let Some(bytes) = find(&self.files, name) else {
            return Err(self.fail());
        };
        self.taken = (bytes.len() as u64).min(limit + 1);
        if self.taken > limit {
            return Err(Fetch::TooLong(limit));
        }
        Ok(bytes.to_vec(alloc)?)
    }
}
