//! Files that are asked for by name.

ghost use Rattle.std.specs.Prelude.{◌≡◌, ◌^◌, ◌<◌, ◌≤◌, ◌+◌, IfOk, IfErr};
ghost use Rattle.rec_io.specs.Shelf.{ShelfState, IsGot, IsRefused};
ghost use Rattle.rec_io.specs.declared.shelf.Fetch.{Fetch};

use rec_bits::NoMemory;
use std::alloc::{AllocError, Global};

/// Why a file was not handed out.
#[derive(Clone, Copy, Debug, PartialEq, Eq)]
pub enum Fetch {
    /// The file could not be read, as where there is none of that name; the shelf's count of faults
    /// rose by one.
    Failed,
    /// The file has more bytes than this limit, which is that of the call.
    TooLong(u64),
    /// Want of memory.
    Memory,
}

impl From<NoMemory> for Fetch {
    ghost from_gives = { λ _ fetch. fetch ≡ Fetch.Memory };

    fn from(_cause: NoMemory) -> Fetch {
        Fetch::Memory
    }
}

impl From<AllocError> for Fetch {
    ghost from_gives = { λ _ fetch. fetch ≡ Fetch.Memory };

    fn from(_cause: AllocError) -> Fetch {
        Fetch::Memory
    }
}

/// Files that are asked for by name.
///
/// A shelf means five things: its files, where it tells them; a count of faults, which never falls
/// and stays at `u64::MAX` once it is there; the number of bytes that the last fetch got; the name
/// that it was asked for; and whether it failed. That the count rose by one means that it is one
/// more than before, or stands at `u64::MAX`.
pub trait Shelf {
    ghost state: { Self → ShelfState };

    /// All bytes of the file `name`, if they are at most `limit`, which is below 2^32. Whatever is
    /// answered, the fetch leaves the files as they are and gets at most `limit` bytes and one; the
    /// count of faults rises by one on `Failed`, and stays as it was on every other answer.
    ///
    /// # Errors
    ///
    /// `Failed` where the file could not be read; a file that isn't there is such a fault.
    /// `TooLong(limit)` where the file has more than `limit` bytes, and then the shelf got more
    /// than `limit` of them. `Memory` for want of memory, after which nothing is said of the name
    /// that was asked for.
    fn fetch(&mut self, alloc: Global, name: &str, limit: u64) -> Result<Vec<u8>, Fetch>
        requires { limit < 2 ^ 32 }

        ensures same { (state self.new).files ≡ (state self.old).files }
        ensures later { (state self.old).faults ≤ (state self.new).faults }
        ensures within { (state self.new).taken ≤ limit + 1 }
        ensures got { IfOk result (λ bytes. IsGot (state self.old) (state self.new) name.now limit bytes.items) }
        ensures refused { IfErr result (IsRefused (state self.old) (state self.new) name.now limit) };
}
