//! From three texts to what is written of an image.

ghost use Rattle.std.specs.Prelude.{◌≡◌, ◌≤◌, ◌<◌, ◌^◌, IfOk, IfErr, None, Some, length, map};
ghost use Rattle.net_model.specs.Nets.{memory_width};
ghost use Rattle.src_model.specs.Written.{model_of_program};
ghost use Rattle.src_front.specs.Fronts.{IsSrcFile};
ghost use Rattle.code_model.specs.ImageFits.{IsFitting, limits_of};
ghost use Rattle.view_lines.specs.Remarks.{model_of_remark};
ghost use Rattle.viewed_text.specs.Texts.{AreRemarks};
ghost use Rattle.view_parts.specs.Said.{hidden_said, model_of_view, views_said};
ghost use Rattle.followed.specs.Inner.Ascending.{ComeFrom};
ghost use Rattle.check_command.specs.Checked.{IsAccepted, IsCheckStop, IsChecked};
ghost use Rattle.check_command.specs.Inner.Readings.{IsFollowStop, IsNetRead, IsNetStop, IsPassed, IsReadStop, IsSrcStop, IsViewedStop};
ghost use Rattle.check_command.specs.Inner.Stops.{IsTaskStop, task_of};
ghost use Rattle.check_command.specs.Tasks.{IsCheckTask, IsViewedText};

use crate::fault::{CheckFault, CheckStop};
use crate::hints::Remarks;
use crate::report::report;
use crate::rules::broken_rule;
use crate::trees::Memory;
use code_model::{Image, Viewed};
use followed::{Claim, Passed, addr_width, passes};
use net_front::read_taken;
use net_model::Checked;
use rec_bits::NoMemory;
use src_front::read_src;
use src_model::Typed;
use std::alloc::Global;
use sym_expr::Pool;
use view_lines::Remark;
use view_parts::viewed_of;
use view_terms::Stop;
use viewed_text::{Remarked, read};

// The newest edition of the netlist texts for which images are checked: those of a later one have a
// mode register, or a bank.
const NEWEST: u8 = 2;

// The netlist, checked.
fn netlist(alloc: Global, net: &[u8]) -> Result<Checked, CheckFault>
    requires { length net.now < 2 ^ 32 }
    ensures found { IfOk result (λ checked. IsNetRead net.now checked.netlist) }
    ensures refused { IfErr result (IsNetStop net.now) }
{
    let (_, checked) = read_taken(alloc, net, NEWEST)?;
    Ok(checked)
}

// The program, checked for words of so many bits.
fn program(alloc: Global, src: &[u8], width: u8) -> Result<Typed, CheckFault>
    requires short { length src.now < 2 ^ 32 }
    requires some { 1 ≤ width }
    requires most { width ≤ 64 }
    ensures found { IfOk result (λ typed. IsSrcFile src.now width (model_of_program typed.program)) }
    ensures width { IfOk result (λ typed. typed.width ≡ width) }
    ensures refused { IfErr result (IsSrcStop src.now width) }
{
    let typed = read_src(alloc, src, width)?;
    Ok(typed)
}

// An image with views, and the remarks that say them.
#[derive(Drop)]
struct ViewedImage {
    viewed: Viewed,
    remarks: Vec<Remark>,
}

// An image with the views and the hidden variables of its remarks, which fit the netlist.
fn viewed(
    alloc: Global,
    checked: &Checked,
    image: Image,
    remarks: &[Remark],
) -> Result<Viewed, NoMemory>
    requires { AreRemarks checked.now.netlist.storages image (memory_width checked.now.netlist.storages) None (map model_of_remark remarks.now) }
    ensures views { IfOk result (λ viewed. views_said checked.now.netlist.storages (map model_of_remark remarks.now) ≡ Some (map model_of_view viewed.views)) }
    ensures image { IfOk result (λ viewed. viewed.image ≡ image) }
    ensures hidden { IfOk result (λ viewed. viewed.hidden ≡ hidden_said (map model_of_remark remarks.now)) }
{
    let netlist = checked.netlist();
    match viewed_of(alloc, netlist.storages.as_slice(), image, remarks) {
        Ok(viewed) => Ok(viewed),
        Err(Stop::Memory) => Err(NoMemory),
        // The term of a view that fits stands for an expression.
        Err(Stop::Form) => unreachable!(),
    }
}

// The image, its views and what it hides.
fn image(alloc: Global, img: &[u8], checked: &Checked) -> Result<ViewedImage, CheckFault>
    requires { length img.now < 2 ^ 32 }
    ensures found { IfOk result (λ found. IsViewedText checked.now.netlist img.now found.viewed) }
    ensures refused { IfErr result (IsViewedStop checked.now.netlist img.now) }
{
    let Remarked { image, remarks } = read(alloc, img, checked)?;
    let viewed = viewed(alloc, checked, image, &remarks)?;
    Ok(ViewedImage { viewed, remarks })
}

// What was read of the three texts.
#[derive(Drop)]
struct Read {
    checked: Checked,
    typed: Typed,
    found: ViewedImage,
}

// The netlist, the program and the image.
fn read_all(alloc: Global, net: &[u8], src: &[u8], img: &[u8]) -> Result<Read, CheckFault>
    requires net { length net.now < 2 ^ 32 }
    requires src { length src.now < 2 ^ 32 }
    requires img { length img.now < 2 ^ 32 }
    ensures read { IfOk result (λ read. IsCheckTask net.now src.now img.now (task_of read.checked.netlist read.typed read.found.viewed)) }
    ensures refused { IfErr result (IsReadStop net.now src.now img.now) }
{
    let checked = netlist(alloc, net)?;
    let typed = program(alloc, src, checked.memory_width())?;
    let found = image(alloc, img, &checked)?;
    Ok(Read {
        checked,
        typed,
        found,
    })
}

impl Read {
    // What hints are made from.
    fn remarks(&self) -> Remarks<'_> {
        Remarks {
            storages: self.checked.netlist().storages.as_slice(),
            viewed: &self.found.viewed,
            memory: Memory {
                vars: self.typed.program().vars.as_slice(),
                places: self.found.viewed.image.places.as_slice(),
                word: self.checked.memory_width(),
                addr: addr_width(&self.checked),
            },
            remarks: &self.found.remarks,
        }
    }

    // The ways of the image's words, where it is right by its views.
    fn passed(&self, alloc: Global) -> Result<Passed, CheckStop>
        requires { IsFitting (limits_of self.now.checked.netlist) self.now.found.viewed.image }
        ensures passed { IfOk result (IsPassed (task_of self.now.checked.netlist self.now.typed self.now.found.viewed)) }
        ensures refused { IfErr result IsFollowStop }
    {
        let remarks = self.remarks();
        let mut pool = Pool::new(alloc)?;
        let hints = remarks.hints(alloc, &mut pool)?;
        let claim = Claim {
            checked: &self.checked,
            typed: &self.typed,
            viewed: &self.found.viewed,
            hints: hints.as_slice(),
        };
        match passes(alloc, &claim, &mut pool) {
            Ok(passed) => Ok(passed),
            Err(fault) => Err(remarks.stop(alloc, fault)?),
        }
    }

    // What is written of the image, where it keeps all rules and is right by its views; `img` is its
    // text.
    fn accepted(&self, alloc: Global, img: &[u8]) -> Result<Vec<u8>, CheckStop>
        requires fits { IsFitting (limits_of self.now.checked.netlist) self.now.found.viewed.image }
        requires word { memory_width self.now.checked.netlist.storages ≡ self.now.typed.width }
        requires views { ComeFrom 0 self.now.found.viewed.views }
        ensures accepted { IfOk result (λ out. IsAccepted img.now out.items (task_of self.now.checked.netlist self.now.typed self.now.found.viewed)) }
        ensures refused { IfErr result (IsTaskStop (task_of self.now.checked.netlist self.now.typed self.now.found.viewed)) }
    {
        let viewed = &self.found.viewed;
        let broken = broken_rule(alloc, &self.checked, &self.typed, viewed)?;
        if let Some(stop) = broken {
            return Err(stop);
        }
        let passed = self.passed(alloc)?;
        let out = report(alloc, img, viewed.image.marks.len(), &passed)?;
        Ok(out)
    }
}

/// What is written of the image with views that `img` is, where it is shown to be right code by its
/// views for the program that `src` is on the netlist that `net` is. Each refusal but `Follow` comes
/// exactly where it is the first that applies, in the order in which they are listed; `Follow` comes
/// where the image keeps all rules, and says nothing of it.
pub fn check(alloc: Global, net: &[u8], src: &[u8], img: &[u8]) -> Result<Vec<u8>, CheckStop>
    requires net { length net.now < 2 ^ 32 }
    requires src { length src.now < 2 ^ 32 }
    requires img { length img.now < 2 ^ 32 }
    ensures checked { IfOk result (λ out. IsChecked net.now src.now img.now out.items) }
    ensures refused { IfErr result (IsCheckStop net.now src.now img.now) }
{
    let read = read_all(alloc, net, src, img)?;
    let out = read.accepted(alloc, img)?;
    Ok(out)
}
