//! One output, which takes bytes in order.

ghost use Rattle.std.specs.Prelude.{◌≡◌, ◌<◌, ◌≤◌, false, true, length, take, IfOk, OnOk, OnErr};
ghost use Rattle.rec_io.specs.Causes.{HasCause};
ghost use Rattle.rec_io.specs.Sink.{SinkState};
ghost use Rattle.rec_io.specs.Written.{Takes, TakesPrefix};

/// The output did not take the piece; its count of faults rose by one.
#[derive(Clone, Copy, Debug, PartialEq, Eq)]
pub struct WriteFault;

/// An output, which takes bytes in order.
///
/// A sink means three things: the bytes that it has taken so far, where it tells them; a count of
/// faults, which never falls and stays at `u64::MAX` once it is there; and whether the last put
/// failed, of those of pieces that aren't empty. That the count rose by one means that it is one
/// more than before, or stands at `u64::MAX`.
pub trait Sink {
    ghost state: { Self → SinkState };

    /// Takes a prefix of the piece and answers its length, which is at least 1 unless the piece is
    /// empty. The count of faults stays as it was then. An empty piece leaves all as it was.
    ///
    /// # Errors
    ///
    /// `WriteFault` only where the count of faults rose by one, and never for an empty piece;
    /// nothing was taken then.
    fn put(&mut self, bytes: &[u8]) -> Result<usize, WriteFault>
        ensures cause { HasCause (state self.old).faults (state self.new).faults result }
        ensures calm { OnOk result ((state self.new).faults ≡ (state self.old).faults) }
        ensures failed { OnErr result ((state self.new).failed ≡ true) }
        ensures worked { OnOk result (0 < length bytes.now → (state self.new).failed ≡ false) }
        ensures empty { length bytes.now ≡ 0 → result ≡ Ok 0 }
        ensures same { length bytes.now ≡ 0 → state self.new ≡ state self.old }
        ensures count { IfOk result (λ count. (count ≤ length bytes.now) × (0 < length bytes.now → 0 < count)) }
        ensures took { IfOk result (λ count.
            Takes (state self.old).written (state self.new).written (take count bytes.now)) }
        ensures nothing { OnErr result ((state self.new).written ≡ (state self.old).written) };
}

/// Puts the piece until the sink has taken it whole; no put failed then, and the count of faults
/// stays as it was. Takes no memory.
///
/// # Errors
///
/// `WriteFault` where a put failed, behind which nothing more is put: the count of faults rose by
/// one, and the last put is the one that failed. The sink took a prefix of the piece then, and not
/// all of it.
pub fn put_all<S: Sink>(sink: &mut S, bytes: &[u8]) -> Result<(), WriteFault>
    ensures cause { HasCause (S.state sink.old).faults (S.state sink.new).faults result }
    ensures calm { OnOk result ((S.state sink.new).faults ≡ (S.state sink.old).faults) }
    ensures failed { OnErr result ((S.state sink.new).failed ≡ true) }
    ensures all { OnOk result (Takes (S.state sink.old).written (S.state sink.new).written bytes.now) }
    ensures part { OnErr result (TakesPrefix (S.state sink.old).written (S.state sink.new).written bytes.now) }
{
    let mut done = 0;
    while done < bytes.len() {
        done += sink.put(&bytes[done..])?;
    }
    Ok(())
}
