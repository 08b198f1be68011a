//! From a text to an image with remarks.

ghost use Rattle.std.specs.Prelude.{◌≡◌, ◌<◌, ◌≤◌, ◌^◌, List, length, IfOk, IfErr, MatchResult, map};
ghost use Rattle.code_model.specs.declared.image.Image.{Image as CodeImage};
ghost use Rattle.rec_bits.specs.declared.fault.ParseFault.{ParseFault as CodeFault};
ghost use Rattle.view_lines.specs.Remarks.{RemarkModel, model_of_remark};
ghost use Rattle.viewed_text.specs.Inner.Behind.{AreReadOf, StopOf};
ghost use Rattle.viewed_text.specs.Texts.{IsImageRead, IsRemarkedRefusal, IsRemarkedText};

use crate::behind::remarks_behind;
use crate::parting::parted;
use code_model::{Image, Limits};
use image_text::read_within;
use net_model::Checked;
use rec_bits::ParseFault;
use std::alloc::Global;
use view_lines::Remark;

/// An image, and the remarks on it in the order of their lines.
#[derive(Drop)]
pub struct Remarked {
    pub image: Image,
    pub remarks: Vec<Remark>,
}

// The remarks on an image in the bytes behind it, which end at the byte `end`.
fn remarks_of(
    alloc: Global,
    checked: &Checked,
    image: &Image,
    text: &[u8],
    end: usize,
) -> Result<Vec<Remark>, ParseFault>
    requires { length text.now ≤ end }
    ensures read { IfOk result (λ remarks. AreReadOf checked.now.netlist image.now text.now (map model_of_remark remarks.items)) }
    ensures stops { IfErr result (StopOf checked.now.netlist image.now text.now end) }
{
    let storages = checked.netlist().storages.as_slice();
    let word = checked.memory_width();
    remarks_behind(alloc, storages, image, word, text, end)
}

/// The image and the remarks whose text the bytes are, where they fit the netlist. `Text` comes
/// exactly where they aren't such a text, with the offset of the first line such that the lines before
/// it begin one and with it they don't; that is the length of the bytes where a line is missing.
/// `Memory` is want of memory.
pub fn read(alloc: Global, bytes: &[u8], checked: &Checked) -> Result<Remarked, ParseFault>
    requires { length bytes.now < 2 ^ 32 }
    ensures found { IfOk result (λ found. IsRemarkedText checked.now.netlist bytes.now found.image
        (map model_of_remark found.remarks.items)) }
    ensures only { (image : CodeImage) (remarks : List RemarkModel) → IsRemarkedText checked.now.netlist bytes.now image remarks →
        MatchResult result (λ found. (found.image ≡ image) × (map model_of_remark found.remarks.items ≡ remarks))
        (λ fault. fault ≡ CodeFault.Memory) }
    ensures refused { IfErr result (IsRemarkedRefusal checked.now.netlist bytes.now) }
{
    let (front, rest) = parted(bytes);
    let image = read_within(alloc, Limits::of(checked), front)?;
    let remarks = remarks_of(alloc, checked, &image, rest, bytes.len())?;
    Ok(Remarked { image, remarks })
}

/// The image whose text the bytes are, for those who pass over the remarks. It refuses as `read` does.
pub fn read_image(alloc: Global, bytes: &[u8], checked: &Checked) -> Result<Image, ParseFault>
    requires { length bytes.now < 2 ^ 32 }
    ensures found { IfOk result (IsImageRead checked.now.netlist bytes.now) }
    ensures refused { IfErr result (IsRemarkedRefusal checked.now.netlist bytes.now) }
{
    let Remarked { image, remarks } = read(alloc, bytes, checked)?;
    drop(remarks);
    Ok(image)
}
