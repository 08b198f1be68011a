//! The least costs of classes by the forms, as far as the search knows them. What waits where is
//! left to `cover`, so these costs only choose.

use crate::survey::kind_of;
use form_model::{Form, Goal};
use law_rounds::{Graph, Index, Kind};
use net_model::Expr;
use rec_bits::NoMemory;
use std::alloc::Global;
use sym_expr::Node;
use tree_grammar::{expr_width, fits_field, is_field_shape};

/// Where the value of a class is: in a register, in the file, or in a temporary cell.
#[derive(Clone, Copy, PartialEq, Eq)]
pub(crate) enum ClassHome {
    Register(u32),
    File,
    Cell,
}

impl ClassHome {
    // Its place in a row, where it has one.
    fn slot(self) -> Option<usize> {
        match self {
            ClassHome::Register(id) if id < 16 => Some(id as usize),
            ClassHome::Register(_) => None,
            ClassHome::File => Some(16),
            ClassHome::Cell => Some(17),
        }
    }
}

/// The registers that forms name are below 16; the file and the cells stand behind them.
const PLACES: usize = 18;

/// How often the costs are gone through at most; a value that needs a longer chain of forms isn't
/// found.
const SWEEPS: usize = 24;

/// A cost of none.
const NONE: u64 = u64::MAX;

/// The least cost of a value in its place, and the form that leaves it there.
#[derive(Clone, Copy)]
pub(crate) struct Least {
    pub cost: u64,
    pub form: usize,
}

/// A job whose trees are listed.
#[derive(Clone, Copy)]
pub(crate) enum Listed {
    Cell { value: u64, address: u32 },
    Store { value: u64, address: u64 },
    Test { value: u64, opposite: u64 },
}

/// The form at the root of a job, what the job costs with it, and the classes that it covers.
#[derive(Clone, Copy)]
pub(crate) struct Root {
    pub cost: u64,
    pub form: usize,
    pub value: u64,
    /// The class of a store's address.
    pub address: Option<u64>,
    /// Whether the value is that of the opposite test.
    pub turned: bool,
}

/// For each class and place the least cost.
#[derive(Drop)]
pub(crate) struct Costs {
    rows: Vec<[Least; PLACES]>,
}

impl Costs {
    /// The least costs of a table's classes by these forms.
    pub(crate) fn new(alloc: Global, graph: Graph<'_>, forms: &[Form]) -> Result<Costs, NoMemory> {
        let none = Least {
            cost: NONE,
            form: 0,
        };
        let mut rows = Vec::new(alloc);
        for _ in 0..graph.table.len() {
            rows.push([none; PLACES])?;
        }
        let mut costs = Costs { rows };
        for _ in 0..SWEEPS {
            if !costs.sweep(graph, forms) {
                break;
            }
        }
        Ok(costs)
    }

    /// The least cost of a class in a place, and the form that leaves it there.
    pub(crate) fn least(&self, class: u64, place: ClassHome) -> Option<Least> {
        let row = self.rows.get(class as usize)?;
        let least = *row.get(place.slot()?)?;
        if least.cost == NONE {
            None
        } else {
            Some(least)
        }
    }

    // Goes through all forms once, each at the classes that have a node of its kind. Whether some
    // cost became less.
    fn sweep(&mut self, graph: Graph<'_>, forms: &[Form]) -> bool {
        let mut changed = false;
        for (place, form) in forms.iter().enumerate() {
            match kind_of(&form.value) {
                Some(Kind::Read) | None => {
                    for class in graph.index.heads() {
                        changed |= self.try_form(graph, *class, place, form);
                    }
                }
                Some(kind) => {
                    for member in graph.index.of_kind(kind) {
                        changed |= self.try_form(graph, member.class, place, form);
                    }
                }
            }
        }
        changed
    }

    // Takes a form for a class where that is less.
    fn try_form(&mut self, graph: Graph<'_>, class: u64, place: usize, form: &Form) -> bool {
        let Some(to) = destination(form).and_then(ClassHome::slot) else {
            return false;
        };
        let cost = self.fit(graph, &form.value, class).saturating_add(1);
        let Some(row) = self.rows.get_mut(class as usize) else {
            return false;
        };
        match row.get_mut(to) {
            Some(least) if cost < least.cost => {
                *least = Least { cost, form: place };
                true
            }
            _ => false,
        }
    }

    /// What an expression of a form costs where it is to have the value of a class.
    #[cycle(fit)]
    pub(crate) fn fit(&self, graph: Graph<'_>, e: &Expr, class: u64) -> u64 {
        let head = graph.table.head(class);
        if is_field_shape(e) {
            return number_cost(graph.index, e, head);
        }
        match e {
            Expr::Reg(id, width) => {
                if graph.table.width(head) == Some(*width) {
                    self.waiting(head, ClassHome::Register(*id))
                } else {
                    NONE
                }
            }
            Expr::Cell(_, width) => {
                if graph.table.width(head) == Some(*width) {
                    self.waiting(head, ClassHome::File)
                } else {
                    NONE
                }
            }
            Expr::Read(addr, width) => self.read(graph, addr, *width, head),
            _ => self.operator(graph, e, head),
        }
    }

    fn waiting(&self, head: u64, place: ClassHome) -> u64 {
        match self.least(head, place) {
            Some(least) => least.cost,
            None => NONE,
        }
    }

    // A read: a cell of the class, or a temporary cell that its value is stored in.
    #[cycle(fit)]
    fn read(&self, graph: Graph<'_>, addr: &Expr, width: u8, head: u64) -> u64 {
        let mut best = NONE;
        if is_field_shape(addr) && graph.table.width(head) == Some(width) {
            best = self.waiting(head, ClassHome::Cell);
        }
        for node in graph.index.nodes(head) {
            if let Node::Read(of, w) = *node {
                if w == width {
                    best = best.min(self.fit(graph, addr, of));
                }
            }
        }
        best
    }

    // An operator: the node of the class that costs least.
    #[cycle(fit)]
    fn operator(&self, graph: Graph<'_>, e: &Expr, head: u64) -> u64 {
        let mut best = NONE;
        for node in graph.index.nodes(head) {
            best = best.min(self.at_node(graph, e, *node));
        }
        best
    }

    /// What an operator's expression costs at a node.
    #[cycle(fit)]
    pub(crate) fn at_node(&self, graph: Graph<'_>, e: &Expr, node: Node) -> u64 {
        match (e, node) {
            (Expr::Un(op, a), Node::Un(other, x)) if *op == other => self.fit(graph, a, x),
            (Expr::Bin(op, a, b), Node::Bin(other, x, y)) if *op == other => self
                .fit(graph, a, x)
                .saturating_add(self.fit(graph, b, y)),
            (Expr::Slice(a, hi, lo), Node::Slice(x, high, low)) if *hi == high && *lo == low => {
                self.fit(graph, a, x)
            }
            (Expr::Zext(a, w), Node::Zext(x, width)) if *w == width => self.fit(graph, a, x),
            (Expr::Sext(a, w), Node::Sext(x, width)) if *w == width => self.fit(graph, a, x),
            _ => NONE,
        }
    }

    /// The form at the root of a job that costs least.
    pub(crate) fn root(&self, graph: Graph<'_>, forms: &[Form], job: Listed) -> Option<Root> {
        let mut best = NONE;
        let mut root = None;
        for (place, form) in forms.iter().enumerate() {
            for turned in [false, true] {
                let tried = self.root_at(graph, form, place, job, turned);
                if tried.cost < best {
                    best = tried.cost;
                    root = Some(tried);
                }
            }
        }
        root
    }

    // A form at the root of a job, or of the opposite test.
    fn root_at(
        &self,
        graph: Graph<'_>,
        form: &Form,
        place: usize,
        job: Listed,
        turned: bool,
    ) -> Root {
        let (value, address) = match job {
            Listed::Cell { value, .. } => (value, None),
            Listed::Store { value, address } => (value, Some(address)),
            Listed::Test { value, opposite } => (if turned { opposite } else { value }, None),
        };
        let at = self.target(graph, form, job, turned);
        Root {
            cost: at.saturating_add(self.fit(graph, &form.value, value)),
            form: place,
            value,
            address,
            turned,
        }
    }

    // What it costs that a form goes to a job's aim.
    fn target(&self, graph: Graph<'_>, form: &Form, job: Listed, turned: bool) -> u64 {
        match (&form.goal, &form.addr, job) {
            (Goal::Memory, Some(addr), Listed::Cell { address, .. }) if !turned => {
                match u8::try_from(expr_width(addr)) {
                    Ok(width) if fits_field(addr, width, u64::from(address)) => 1,
                    _ => NONE,
                }
            }
            (Goal::Memory, Some(addr), Listed::Store { address, .. }) if !turned => {
                self.fit(graph, addr, address).saturating_add(1)
            }
            (Goal::Branch { .. }, _, Listed::Test { .. }) => 1,
            _ => NONE,
        }
    }
}

// Where a form leaves its value, if it isn't a jump or a branch.
fn destination(form: &Form) -> Option<ClassHome> {
    match (&form.goal, &form.addr) {
        (Goal::Reg(id), _) => Some(ClassHome::Register(*id)),
        (Goal::File, _) => Some(ClassHome::File),
        (Goal::Memory, Some(addr)) if is_field_shape(addr) => Some(ClassHome::Cell),
        _ => None,
    }
}

// A number that a field shape shows costs nothing.
fn number_cost(index: &Index, shape: &Expr, head: u64) -> u64 {
    let (Some(value), Ok(width)) = (index.number(head), u8::try_from(expr_width(shape))) else {
        return NONE;
    };
    if fits_field(shape, width, value) {
        0
    } else {
        NONE
    }
}
