//! The remarks behind an image.

ghost use Rattle.std.specs.Prelude.{◌≡◌, ◌==◌, ◌≤◌, ◌-◌, IfOk, IfErr, length, map};
ghost use Rattle.std.specs.Str.{bytes_eq};
ghost use Rattle.view_lines.specs.Inner.Reading.{remark_in};
ghost use Rattle.view_lines.specs.Remarks.{model_of_remark};
ghost use Rattle.view_terms.specs.Inner.Reading.{Gives};
ghost use Rattle.viewed_text.specs.Inner.Behind.{IsBehindRead, StopsBehind, done_line, fault_at, next_remark};

use code_model::Image;
use net_model::Storage;
use rec_bits::ParseFault;
use std::alloc::Global;
use text_lines::first_line;
use view_lines::Remark;
use view_scope::{Turn, accepts};
use view_terms::Stop;

// Whether a line is the one behind the remarks.
fn is_done_line(line: &[u8]) -> bool
    ensures { result ≡ bytes_eq line.now done_line }
{
    line == b"done\n".as_slice()
}

// Whether nothing is left.
fn is_nothing(text: &[u8]) -> bool
    ensures { result ≡ (length text.now == 0) }
{
    text.is_empty()
}

// The remark that a line is.
fn remark_of(alloc: Global, line: &[u8]) -> Result<Remark, Stop>
    ensures { Gives model_of_remark (remark_in line.now) result }
{
    view_lines::read(alloc, line)
}

// The remark that a line is, and where it stands.
#[tactic(auto, unfolding(crate::specs::Inner::Behind::next_remark))]
fn next_remark(
    alloc: Global,
    storages: &[Storage],
    image: &Image,
    word: u8,
    last: Option<Turn>,
    line: &[u8],
) -> Result<(Remark, Turn), Stop>
    requires some { 1 ≤ word }
    requires narrow { word ≤ 64 }
    ensures { Gives (λ x. (model_of_remark x.0, x.1)) (next_remark storages.now image.now word last line.now) result }
{
    let remark = remark_of(alloc, line)?;
    match accepts(storages, image, word, last, &remark) {
        Some(turn) => Ok((remark, turn)),
        None => Err(Stop::Form),
    }
}

// A fault before so many bytes, of `end`.
fn fault(stop: Stop, end: usize, left: usize) -> ParseFault
    requires { left ≤ end }
    ensures { result ≡ fault_at stop (end - left) }
{
    match stop {
        Stop::Form => ParseFault::Text((end - left) as u64),
        Stop::Memory => ParseFault::Memory,
    }
}

/// The remarks that the lines of a text are, up to its last line `done`; none where there is no line.
/// The text ends at the byte `end` of the whole; a cell has `word` bits.
pub fn remarks_behind(
    alloc: Global,
    storages: &[Storage],
    image: &Image,
    word: u8,
    text: &[u8],
    end: usize,
) -> Result<Vec<Remark>, ParseFault>
    requires some { 1 ≤ word }
    requires narrow { word ≤ 64 }
    requires room { length text.now ≤ end }
    ensures read { IfOk result (λ remarks. IsBehindRead storages.now image.now word text.now (map model_of_remark remarks.items)) }
    ensures stops { IfErr result (StopsBehind storages.now image.now word text.now end) }
{
    let mut remarks = Vec::new(alloc);
    let none = is_nothing(text);
    if none {
        return Ok(remarks);
    }
    let mut last = None;
    let mut rest = text;
    while let Some((line, more)) = first_line(rest) {
        let done = is_done_line(line);
        if done {
            let at_end = is_nothing(more);
            if at_end {
                return Ok(remarks);
            }
            return Err(ParseFault::Text((end - more.len()) as u64));
        }
        match next_remark(alloc, storages, image, word, last, line) {
            Ok((remark, turn)) => {
                remarks.push(remark)?;
                last = Some(turn);
            }
            Err(stop) => return Err(fault(stop, end, rest.len())),
        }
        rest = more;
    }
    Err(ParseFault::Text(end as u64))
}
