//! From a line to what it says.

ghost use Rattle.std.specs.Prelude.{◌≡◌, IfOk, MatchResult};
ghost use Rattle.view_terms.specs.declared.stop.Stop.{Stop as CodeStop};
ghost use Rattle.view_terms.specs.Inner.Reading.{Gives, whole_term};
ghost use Rattle.view_terms.specs.Terms.{model_of_term};
ghost use Rattle.view_lines.specs.Remarks.{RemarkModel, SaysRemark, model_of_remark};
ghost use Rattle.view_lines.specs.Inner.Reading.{hide_remark, hold_remark, know_remark, remark_in, said_by, view_remark};

use crate::Remark;
use crate::field::{addressed, hide_parts, holder_of, name_of};
use std::alloc::Global;
use text_lines::{cut, number};
use view_terms::{Stop, Term};

// The term that a text is.
fn term_of(alloc: Global, text: &[u8]) -> Result<Term, Stop>
    ensures { Gives model_of_term (whole_term text.now) result }
{
    view_terms::read(alloc, text)
}

#[tactic(auto, unfolding(crate::specs::Inner::Reading::hide_remark))]
fn hide(alloc: Global, text: &[u8]) -> Result<Remark, Stop>
    ensures { Gives model_of_remark (hide_remark text.now) result }
{
    let Some((label, name)) = hide_parts(text) else {
        return Err(Stop::Form);
    };
    let name = name_of(alloc, name)?;
    Ok(Remark::Hide { label, name })
}

#[tactic(auto, unfolding(crate::specs::Inner::Reading::view_remark))]
fn view(alloc: Global, text: &[u8]) -> Result<Remark, Stop>
    ensures { Gives model_of_remark (view_remark text.now) result }
{
    let Some((address, name, value)) = addressed(text) else {
        return Err(Stop::Form);
    };
    let name = name_of(alloc, name)?;
    let value = term_of(alloc, value)?;
    Ok(Remark::View {
        address,
        name,
        value,
    })
}

#[tactic(auto, unfolding(crate::specs::Inner::Reading::hold_remark))]
fn hold(alloc: Global, text: &[u8]) -> Result<Remark, Stop>
    ensures { Gives model_of_remark (hold_remark text.now) result }
{
    let Some((address, holder, value)) = addressed(text) else {
        return Err(Stop::Form);
    };
    let holder = holder_of(alloc, holder)?;
    let value = term_of(alloc, value)?;
    Ok(Remark::Hold {
        address,
        holder,
        value,
    })
}

#[tactic(auto, unfolding(crate::specs::Inner::Reading::know_remark))]
fn know(alloc: Global, text: &[u8]) -> Result<Remark, Stop>
    ensures { Gives model_of_remark (know_remark text.now) result }
{
    let Some((address, name, value)) = addressed(text) else {
        return Err(Stop::Form);
    };
    let Some(value) = number(value) else {
        return Err(Stop::Form);
    };
    let name = name_of(alloc, name)?;
    Ok(Remark::Know {
        address,
        name,
        value,
    })
}

// What a line says that begins with a keyword and a space.
#[tactic(auto, unfolding(crate::specs::Inner::Reading::said_by))]
fn said_by(alloc: Global, keyword: &[u8], text: &[u8]) -> Result<Remark, Stop>
    ensures { Gives model_of_remark (said_by keyword.now text.now) result }
{
    if keyword == b"hide".as_slice() {
        hide(alloc, text)
    } else if keyword == b"view".as_slice() {
        view(alloc, text)
    } else if keyword == b"hold".as_slice() {
        hold(alloc, text)
    } else if keyword == b"know".as_slice() {
        know(alloc, text)
    } else {
        Err(Stop::Form)
    }
}

// What a line says.
#[tactic(auto, unfolding(crate::specs::Inner::Reading::remark_in))]
fn remark_of(alloc: Global, line: &[u8]) -> Result<Remark, Stop>
    ensures { Gives model_of_remark (remark_in line.now) result }
{
    match cut(line, b' ') {
        Some((keyword, text)) => said_by(alloc, keyword, text),
        None => Err(Stop::Form),
    }
}

/// What a line says, with its LF. `Form` comes exactly where no remark is written so.
pub fn read(alloc: Global, line: &[u8]) -> Result<Remark, Stop>
    ensures read { IfOk result (λ found. SaysRemark line.now (model_of_remark found)) }
    ensures only { (said : RemarkModel) → SaysRemark line.now said →
        MatchResult result (λ found. model_of_remark found ≡ said) (λ stop. stop ≡ CodeStop.Memory) }
{
    remark_of(alloc, line)
}
