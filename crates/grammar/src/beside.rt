//! What was read before, kept beside what is read behind it.

ghost use Rattle.std.specs.Prelude.{◌≡◌, Ok, Err, IfOk, IfErr};

use crate::ParseStop;

/// The value beside what was read, or why nothing was. The value is let go here where nothing was
/// read, whatever its type, so that a reader has only its own ways out.
pub fn keeping<T: Drop, R>(value: T, read: Result<R, ParseStop>) -> Result<(T, R), ParseStop>
    ensures read { IfOk result (λ x. (x.0 ≡ value) × (read ≡ Ok x.1)) }
    ensures stopped { IfErr result (λ stop. read ≡ Err stop) }
{
    let read = read?;
    Ok((value, read))
}
