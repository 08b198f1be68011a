//! A real output as a sink, which tells nothing of its bytes.
ghost use Rattle.std.specs.Prelude.{None};

use rec_io::{Sink, WriteFault};
use std::io::Write;

/// An output, how often a write to it failed, and whether the last did.
#[derive(Drop)]
pub struct OutSink<W> {
    to: W,
    faults: u64,
    failed: bool,
}

impl<W: Write> OutSink<W> {
    /// The sink that writes to this output.
    pub fn new(to: W) -> OutSink<W> {
        OutSink {
            to,
            faults: 0,
            failed: false,
        }
    }
}

impl<W: Write> Sink for OutSink<W> {
    ghost state = { λ sink. record { written = None; faults = sink.faults; failed = sink.failed } };

    // A write of no byte is a fault, as an error is.
    fn put(&mut self, bytes: &[u8]) -> Result<usize, WriteFault> {
        if bytes.is_empty() {
            return Ok(0);
        }
        match self.to.write(bytes) {
            Ok(count) if count > 0 => {
                self.failed = false;
                Ok(count)
            }
            _ => {
                self.failed = true;
                self.faults = self.faults.saturating_add(1);
                Err(WriteFault)
            }
        }
    }
}

#[cfg(test)]
mod tests {
    use super::*;
    use rec_io::put_all;
    use std::fs::OpenOptions;
    use std::test::Fail;

    #[test]
    fn a_full_output_fails(rt: HostRuntime) -> Result<(), Fail> {
        let mut out = OutSink::new(OpenOptions::new().write(true).open(&rt, "/dev/null")?);
        assert_eq!(rt; put_all(&mut out, b"taken"), Ok(()));
        assert_eq!(rt; out.faults, 0);
        let mut out = OutSink::new(OpenOptions::new().write(true).open(&rt, "/dev/full")?);
        assert_eq!(rt; put_all(&mut out, b""), Ok(()));
        assert_eq!(rt; put_all(&mut out, b"not taken"), Err(WriteFault));
        assert_eq!(rt; out.faults, 1);
        Ok(())
    }
}
