//! From the text of an image to the image.

ghost use Rattle.std.specs.Prelude.{◌≡◌, ◌≤◌, ◌<◌, ◌^◌, length, IfOk, IfErr, MatchResult};
ghost use Rattle.code_model.specs.declared.image.Image.{Image};
ghost use Rattle.code_model.specs.ImageFits.{limits_of};
ghost use Rattle.code_model.specs.ImageLines.{IsImageText, IsImageRefusal};
ghost use Rattle.image_text.specs.Inner.Fronts.{IsRead, Stops, IsWholeOf};

use crate::front::{Front, step_line};
use code_model::{Image, Limits};
use net_model::Checked;
use rec_bits::ParseFault;
use std::alloc::Global;
use text_lines::first_line;

// Reads all lines, up to the first that doesn't go on.
fn read_lines(alloc: Global, limits: Limits, bytes: &[u8]) -> Result<Front, ParseFault>
    requires some { 1 ≤ limits.bits }
    requires narrow { limits.bits ≤ 64 }
    ensures read { IfOk result (IsRead limits bytes.now) }
    ensures stops { IfErr result (Stops limits bytes.now) }
{
    let mut front = Front::Nothing;
    let mut rest = bytes;
    while let Some((line, more)) = first_line(rest) {
        let Some(next) = step_line(alloc, limits, front, line)? else {
            return Err(ParseFault::Text((bytes.len() - rest.len()) as u64));
        };
        front = next;
        rest = more;
    }
    Ok(front)
}

// The image that was read, or a fault at the end where a line is missing.
fn whole_of(front: Front, end: usize) -> Result<Image, ParseFault>
    ensures { IsWholeOf front end result }
{
    match front {
        Front::Whole(image) => Ok(image),
        _ => Err(ParseFault::Text(end as u64)),
    }
}

/// The image whose text the bytes are, where it keeps to the limits: as `read`, for the limits of a
/// netlist that are known.
pub fn read_within(alloc: Global, limits: Limits, bytes: &[u8]) -> Result<Image, ParseFault>
    requires some { 1 ≤ limits.bits }
    requires narrow { limits.bits ≤ 64 }
    requires few { limits.words < 2 ^ 32 }
    ensures found { IfOk result (IsImageText limits bytes.now) }
    ensures only { (image : Image) → IsImageText limits bytes.now image →
        MatchResult result (λ found. found ≡ image) (λ fault. fault ≡ ParseFault.Memory) }
    ensures refused { IfErr result (IsImageRefusal limits bytes.now) }
{
    match read_lines(alloc, limits, bytes) {
        Ok(front) => whole_of(front, bytes.len()),
        Err(fault) => Err(fault),
    }
}

/// The image whose text the bytes are, where it fits the netlist's code. `Text` comes exactly where
/// they aren't the text of such an image, with the offset of the first line such that the lines
/// before it begin the text of one and with it they don't; that is the length of the bytes where a
/// line is missing. `Memory` is want of memory.
pub fn read(alloc: Global, bytes: &[u8], checked: &Checked) -> Result<Image, ParseFault>
    requires { length bytes.now < 2 ^ 32 }
    ensures found { IfOk result (IsImageText (limits_of checked.now.netlist) bytes.now) }
    ensures only { (image : Image) → IsImageText (limits_of checked.now.netlist) bytes.now image →
        MatchResult result (λ found. found ≡ image) (λ fault. fault ≡ ParseFault.Memory) }
    ensures refused { IfErr result (IsImageRefusal (limits_of checked.now.netlist) bytes.now) }
{
    let limits = Limits::of(checked);
    let image = read_within(alloc, limits, bytes)?;
    Ok(image)
}
