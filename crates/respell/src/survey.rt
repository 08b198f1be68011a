//! What the operators of a netlist's forms are, by which the search is kept small.

use form_model::Forms;
use law_rounds::{Brings, Gate, Kind};
use net_model::Expr;
use rec_bits::{NoMemory, Op2};
use std::alloc::Global;
use tree_grammar::{expr_width, fits_field, is_field_shape};

/// How many classes, of those that stand for themselves, a table may have before no further law is
/// applied.
pub const CLASSES: u64 = 1500;

/// The kind of an expression of a form, where a field shape is a number. A register and a cell of
/// the file have none.
pub(crate) fn kind_of(e: &Expr) -> Option<Kind> {
    if is_field_shape(e) {
        return Some(Kind::Number);
    }
    match e {
        Expr::Read(..) => Some(Kind::Read),
        Expr::Un(op, _) => Some(Kind::Un(*op)),
        Expr::Bin(op, ..) => Some(Kind::Bin(*op)),
        Expr::Slice(..) => Some(Kind::Slice),
        Expr::Zext(..) => Some(Kind::Zext),
        Expr::Sext(..) => Some(Kind::Sext),
        Expr::Word(_) | Expr::Reg(..) | Expr::Const { .. } => None,
        Expr::Cell(..) | Expr::Cat(..) | Expr::Select(..) => None,
    }
}

/// An extension up to so many bits.
#[derive(Clone, Copy, PartialEq, Eq)]
pub(crate) struct Extension {
    pub signed: bool,
    pub width: u8,
}

impl Extension {
    // What an extension is.
    fn of_expr(e: &Expr) -> Option<Extension> {
        match e {
            Expr::Zext(_, width) => Some(Extension {
                signed: false,
                width: *width,
            }),
            Expr::Sext(_, width) => Some(Extension {
                signed: true,
                width: *width,
            }),
            _ => None,
        }
    }
}

/// An operator one of whose operands is an extension.
#[derive(Clone, Copy, PartialEq, Eq)]
pub(crate) struct Widening {
    pub op: Op2,
    pub by: Extension,
}

/// A shift of a value of so many bits by a number that the form gives.
#[derive(Clone, Copy)]
pub(crate) struct Shift<'a> {
    pub op: Op2,
    pub width: u8,
    by: &'a Expr,
}

impl<'a> Shift<'a> {
    /// Whether the form shifts by so many places.
    pub(crate) fn shows(&self, places: u64) -> bool {
        fits_field(self.by, self.width, places)
    }
}

/// Bits of a value, from the first place down to the second.
#[derive(Clone, Copy, PartialEq, Eq)]
pub(crate) struct Field {
    pub hi: u8,
    pub lo: u8,
}

/// The operators that forms have, and what stands beside an operator in one of them.
#[derive(Drop)]
pub(crate) struct Survey<'a> {
    kinds: Vec<Kind>,
    widenings: Vec<Widening>,
    extensions: Vec<Extension>,
    widths: Vec<u8>,
    shifts: Vec<Shift<'a>>,
    fields: Vec<Field>,
    numbers: Vec<&'a Expr>,
}

impl<'a> Survey<'a> {
    /// The operators of the forms of each mode that can be used.
    pub(crate) fn new(
        alloc: Global,
        forms: &'a [Forms],
        usable: &[bool],
    ) -> Result<Survey<'a>, NoMemory> {
        let mut survey = Survey {
            kinds: Vec::new(alloc),
            widenings: Vec::new(alloc),
            extensions: Vec::new(alloc),
            widths: Vec::new(alloc),
            shifts: Vec::new(alloc),
            fields: Vec::new(alloc),
            numbers: Vec::new(alloc),
        };
        for (mode, can) in forms.iter().zip(usable) {
            if *can {
                survey.note_forms(mode)?;
            }
        }
        Ok(survey)
    }

    /// Whether some form has the operator.
    pub(crate) fn has(&self, kind: Kind) -> bool {
        self.kinds.contains(&kind)
    }

    /// The extensions beside operators.
    pub(crate) fn widenings(&self) -> &[Widening] {
        &self.widenings
    }

    /// The extensions.
    pub(crate) fn extensions(&self) -> &[Extension] {
        &self.extensions
    }

    /// Laws that bring operators of forms alone. The widths of extensions and of what they extend
    /// are tried for a number that nothing else gives.
    pub(crate) fn gate(&self) -> Gate<'_> {
        Gate {
            brings: Brings::These(&self.kinds),
            widths: &self.widths,
            most: CLASSES,
        }
    }

    /// The shifts by numbers.
    pub(crate) fn shifts(&self) -> &[Shift<'a>] {
        &self.shifts
    }

    /// The bits that slices take.
    pub(crate) fn fields(&self) -> &[Field] {
        &self.fields
    }

    /// Whether some form has a number of so many bits with this value.
    pub(crate) fn shows(&self, width: u8, value: u64) -> bool {
        self.numbers.iter().any(|shape| expr_width(shape) == u64::from(width)
            && fits_field(shape, width, value))
    }

    fn note_forms(&mut self, forms: &'a Forms) -> Result<(), NoMemory> {
        for form in &forms.list {
            self.note(&form.value)?;
            if let Some(addr) = &form.addr {
                self.note(addr)?;
            }
        }
        Ok(())
    }

    // Notes the operators of an expression.
    fn note(&mut self, e: &'a Expr) -> Result<(), NoMemory> {
        let Some(kind) = kind_of(e) else {
            return Ok(());
        };
        if !self.has(kind) {
            self.kinds.push(kind)?;
        }
        if kind == Kind::Number {
            self.numbers.push(e)?;
            return Ok(());
        }
        match e {
            Expr::Read(a, _) | Expr::Un(_, a) => self.note(a),
            Expr::Bin(op, a, b) => {
                self.note_widening(*op, a)?;
                self.note_widening(*op, b)?;
                self.note_shift(*op, a, b)?;
                self.note(a)?;
                self.note(b)
            }
            Expr::Slice(a, hi, lo) => {
                self.note_field(Field { hi: *hi, lo: *lo })?;
                self.note(a)
            }
            Expr::Zext(a, _) | Expr::Sext(a, _) => {
                self.note_extension(e, a)?;
                self.note(a)
            }
            _ => Ok(()),
        }
    }

    // Notes an operand that is an extension.
    fn note_widening(&mut self, op: Op2, operand: &Expr) -> Result<(), NoMemory> {
        let Some(by) = Extension::of_expr(operand) else {
            return Ok(());
        };
        let widening = Widening { op, by };
        if !self.widenings.contains(&widening) {
            self.widenings.push(widening)?;
        }
        Ok(())
    }

    // Notes a shift by a number.
    fn note_shift(&mut self, op: Op2, of: &Expr, by: &'a Expr) -> Result<(), NoMemory> {
        let Ok(width) = u8::try_from(expr_width(of)) else {
            return Ok(());
        };
        if matches!(op, Op2::Shl | Op2::Shr | Op2::Sar) && is_field_shape(by) {
            self.shifts.push(Shift { op, width, by })?;
        }
        Ok(())
    }

    // Notes bits that a slice takes.
    fn note_field(&mut self, field: Field) -> Result<(), NoMemory> {
        if !self.fields.contains(&field) {
            self.fields.push(field)?;
        }
        Ok(())
    }

    // Notes an extension, its width and that of what is extended.
    fn note_extension(&mut self, e: &Expr, operand: &Expr) -> Result<(), NoMemory> {
        if let Some(by) = Extension::of_expr(e) {
            if !self.extensions.contains(&by) {
                self.extensions.push(by)?;
            }
        }
        self.note_width(e)?;
        self.note_width(operand)
    }

    // Notes the width of an expression.
    fn note_width(&mut self, e: &Expr) -> Result<(), NoMemory> {
        if let Ok(width) = u8::try_from(expr_width(e)) {
            if !self.widths.contains(&width) {
                self.widths.push(width)?;
            }
        }
        Ok(())
    }
}
