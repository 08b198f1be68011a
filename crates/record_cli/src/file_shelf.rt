//! Real files, which tell nothing of their bytes.
ghost use Rattle.std.specs.Prelude.{◌≡◌, ◌+◌, ◌^◌, ◌<◌, ◌≤◌, [], None, string_bytes, vec_len};
ghost use Rattle.std.specs.Option.{option_map_or};

use rec_io::{Fetch, Shelf};
use std::alloc::{AllocError, Global};
use std::io::Read;
use std::rt::Files;
use std::{fs, io};

const PIECE: usize = 4096;

/// The files of the runtime, and what the last fetch did.
#[derive(Drop)]
pub struct FileShelf<'a, R: Files> {
    rt: &'a R,
    faults: u64,
    taken: u64,
    last: Option<String>,
    failed: bool,
}

#[derive(Clone, Copy, Debug, PartialEq, Eq)]
enum ReadError {
    Failed,
    Memory,
}

impl From<AllocError> for ReadError {
    fn from(_cause: AllocError) -> ReadError {
        ReadError::Memory
    }
}

impl From<io::Error> for ReadError {
    fn from(_cause: io::Error) -> ReadError {
        ReadError::Failed
    }
}

// Reads the first bytes of the file, at most one more than the limit, also where it fails.
fn read_file<R: Files>(rt: &R, name: &str, limit: u64, bytes: &mut Vec<u8>) -> Result<(), ReadError>
    requires limit { limit < 2 ^ 32 }
    requires empty { vec_len bytes.old ≡ 0 }
    ensures { vec_len bytes.new ≤ limit + 1 }
{
    let mut file = fs::open(rt, name)?;
    let most = limit as usize + 1;
    let mut buffer = [0u8; PIECE];
    'pieces: while bytes.len() < most {
        let wanted = buffer.len().min(most - bytes.len());
        let count = file.read(&mut buffer[..wanted])?;
        if count == 0 {
            break;
        }
        bytes.extend_from_slice(&buffer[..count])?;
    }
    Ok(())
}

impl<'a, R: Files> FileShelf<'a, R> {
    /// The shelf of this runtime's files.
    pub fn new(rt: &'a R) -> FileShelf<'a, R> {
        FileShelf {
            rt,
            faults: 0,
            taken: 0,
            last: None,
            failed: false,
        }
    }
}

impl<R: Files> Shelf for FileShelf<'_, R> {
    ghost state = { λ shelf. record {
      files = None;
      faults = shelf.faults;
      taken = shelf.taken;
      last = option_map_or string_bytes shelf.last [];
      failed = shelf.failed;
    } };

    fn fetch(&mut self, alloc: Global, name: &str, limit: u64) -> Result<Vec<u8>, Fetch> {
        self.failed = false;
        self.taken = 0;
        let Ok(copy) = String::from_str(alloc, name) else {
            return Err(Fetch::Memory);
        };
        self.last = Some(copy);
        let mut bytes = Vec::new(alloc);
        let read = read_file(self.rt, name, limit, &mut bytes);
        self.taken = bytes.len() as u64;
        match read {
            Ok(()) if self.taken > limit => Err(Fetch::TooLong(limit)),
            Ok(()) => Ok(bytes),
            Err(ReadError::Memory) => Err(Fetch::Memory),
            Err(ReadError::Failed) => {
                self.failed = true;
                self.faults = self.faults.saturating_add(1);
                Err(Fetch::Failed)
            }
        }
    }
}

#[cfg(test)]
mod tests {
    use super::*;
    use std::test::Fail;

    #[test]
    fn real_files(rt: HostRuntime) -> Result<(), Fail> {
        let alloc = rt.alloc();
        let mut shelf = FileShelf::new(&rt);
        fs::write(&rt, "file_shelf_test", b"some bytes")?;
        assert_eq!(rt;
            shelf.fetch(alloc, "file_shelf_test", 10)?.as_slice(),
            b"some bytes".as_slice()
        );
        assert_eq!(rt; shelf.taken, 10);
        assert_eq!(rt;
            shelf.fetch(alloc, "file_shelf_test", 9).err(),
            Some(Fetch::TooLong(9))
        );
        assert_eq!(rt; shelf.taken, 10);
        fs::remove_file(&rt, "file_shelf_test")?;
        assert_eq!(rt;
            shelf.fetch(alloc, "file_shelf_test", 10).err(),
            Some(Fetch::Failed)
        );
        assert_eq!(rt; shelf.fetch(alloc, "/", 10).err(), Some(Fetch::Failed));
        assert_eq!(rt; shelf.faults, 2);
        // A file without end is read no further than one byte past the limit.
        assert_eq!(rt;
            shelf.fetch(alloc, "/dev/zero", 9000).err(),
            Some(Fetch::TooLong(9000))
        );
        assert_eq!(rt; shelf.taken, 9001);
        Ok(())
    }
}
