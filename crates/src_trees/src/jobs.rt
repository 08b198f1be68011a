//! The jobs of assignments and tests.

ghost use Rattle.std.specs.Prelude.{◌≡◌, ◌+◌, ◌<◌, ◌^◌, IfOk, map, [], ◌∷◌};
ghost use Rattle.net_model.specs.declared.hardware.Space.TheVariants.{Memory as InMemory};
ghost use Rattle.net_model.specs.Exprs.{const, read, bin};
ghost use Rattle.rec_bits.specs.Operators.{IsWidth};
ghost use Rattle.rec_bits.specs.declared.operator.Op2.TheVariants.{Sub, Eq as Equal};
ghost use Rattle.src_model.specs.Written.{model_of_src_node, spot_node, model_of_spot, model_of_src_expr, model_of_src_test};
ghost use Rattle.src_model.specs.Fitting.{Fitting, FitsSides};
ghost use Rattle.form_model.specs.Trees.{model_of_tree};
ghost use Rattle.form_model.specs.Forms.{aim_destination};
ghost use Rattle.src_trees.specs.Lowered.{base_of, tree_of, assigned_destination, job_of_assign, job_of_compare, job_of_test, job_of_start, job_of_counting, job_of_step};
ghost use Rattle.src_trees.specs.Inner.Near.{IsNear};
ghost use Rattle.src_trees.specs.Jobs.{model_of_job};

use crate::memory::DataMemory;
use crate::trees::{computed, keeping, operand, over, tree};
use form_model::{Aim, Job, Tree};
use rec_bits::{Name, NoMemory, Op2};
use src_model::{Cmp, Spot, SrcExpr, SrcTest, number_of, operand_width};
use std::alloc::Global;

// Where an assignment puts its value.
fn aim(alloc: Global, memory: &DataMemory<'_>, spot: &Spot) -> Result<Aim, NoMemory>
    requires fitting { Fitting memory.now.word memory.now.word (spot_node spot.now) }
    requires near { IsNear memory.now.places (spot_node spot.now) }
    ensures { IfOk result (λ made.
        aim_destination made ≡ assigned_destination memory.now (model_of_spot spot.now).name (model_of_spot spot.now).index) }
{
    let first = memory.base(&spot.name);
    match &spot.index {
        None => Ok(Aim::Cell(first)),
        Some(x) => match number_of(x) {
            Some(n) => Ok(Aim::Cell(first + n as u32)),
            None => {
                let index = tree(alloc, memory, memory.word(), x)?;
                let address = computed(alloc, memory, &spot.name, index)?;
                Ok(Aim::Store(address))
            }
        },
    }
}

fn one<T: Drop>(alloc: Global, x: T) -> Result<Vec<T>, NoMemory>
    ensures { IfOk result (λ made. made.items ≡ x ∷ []) }
{
    let mut made = Vec::new(alloc);
    made.push(x)?;
    Ok(made)
}

fn two<T: Drop>(alloc: Global, x: T, y: T) -> Result<Vec<T>, NoMemory>
    ensures { IfOk result (λ made. made.items ≡ x ∷ y ∷ []) }
{
    let mut made = Vec::new(alloc);
    made.push(x)?;
    made.push(y)?;
    Ok(made)
}

// A job of one tree.
fn job(alloc: Global, aim: Aim, tree: Tree) -> Result<Job, NoMemory>
    ensures { IfOk result (λ made.
        model_of_job made ≡ record { destination = aim_destination aim; trees = model_of_tree tree ∷ [] }) }
{
    let (aim, trees) = keeping(aim, one(alloc, tree))?;
    Ok(Job { aim, trees })
}

/// The job of an assignment.
pub(crate) fn assign_job(
    alloc: Global,
    memory: &DataMemory<'_>,
    spot: &Spot,
    value: &SrcExpr,
) -> Result<Job, NoMemory>
    requires place { Fitting memory.now.word memory.now.word (spot_node spot.now) }
    requires value { Fitting memory.now.word memory.now.word (model_of_src_node value.now.node) }
    requires near_place { IsNear memory.now.places (spot_node spot.now) }
    requires near_value { IsNear memory.now.places (model_of_src_node value.now.node) }
    ensures { IfOk result (λ made. model_of_job made ≡ job_of_assign memory.now (model_of_spot spot.now) (model_of_src_expr value.now)) }
{
    let aim = aim(alloc, memory, spot)?;
    let (aim, tree) = keeping(aim, tree(alloc, memory, memory.word(), value))?;
    let made = job(alloc, aim, tree)?;
    Ok(made)
}

// An operator over the trees of two expressions.
fn operated(
    alloc: Global,
    memory: &DataMemory<'_>,
    op: Op2,
    width: u8,
    x: &SrcExpr,
    y: &SrcExpr,
) -> Result<Tree, NoMemory>
    requires width { IsWidth width }
    requires left { Fitting memory.now.word width (model_of_src_node x.now.node) }
    requires right { Fitting memory.now.word width (model_of_src_node y.now.node) }
    requires near_left { IsNear memory.now.places (model_of_src_node x.now.node) }
    requires near_right { IsNear memory.now.places (model_of_src_node y.now.node) }
    ensures { IfOk result (λ made.
        model_of_tree made ≡ bin op (tree_of memory.now width (model_of_src_node x.now.node))
        (tree_of memory.now width (model_of_src_node y.now.node))) }
{
    let left = operand(alloc, memory, width, x)?;
    let (left, right) = keeping(left, operand(alloc, memory, width, y))?;
    Ok(Tree::Bin(op, left, right))
}

// The two trees that tell whether two values are the same: their comparison, and that of their
// difference with 0.
fn equality(alloc: Global, width: u8, same: Tree, difference: Tree) -> Result<Vec<Tree>, NoMemory>
    ensures { IfOk result (λ made.
        map model_of_tree made.items ≡ model_of_tree same ∷ bin Equal (model_of_tree difference) (const width 0) ∷ []) }
{
    let zero = Tree::Lit { width, value: 0 };
    let (same, none) = keeping(same, over(alloc, Op2::Eq, difference, zero))?;
    let trees = two(alloc, same, none)?;
    Ok(trees)
}

// The trees of a comparison for equality.
fn equated(
    alloc: Global,
    memory: &DataMemory<'_>,
    width: u8,
    x: &SrcExpr,
    y: &SrcExpr,
) -> Result<Vec<Tree>, NoMemory>
    requires width { IsWidth width }
    requires left { Fitting memory.now.word width (model_of_src_node x.now.node) }
    requires right { Fitting memory.now.word width (model_of_src_node y.now.node) }
    requires near_left { IsNear memory.now.places (model_of_src_node x.now.node) }
    requires near_right { IsNear memory.now.places (model_of_src_node y.now.node) }
    ensures { IfOk result (λ made.
        map model_of_tree made.items
        ≡ bin Equal (tree_of memory.now width (model_of_src_node x.now.node))
        (tree_of memory.now width (model_of_src_node y.now.node))
        ∷ bin Equal (bin Sub (tree_of memory.now width (model_of_src_node x.now.node))
        (tree_of memory.now width (model_of_src_node y.now.node))) (const width 0) ∷ []) }
{
    let same = operated(alloc, memory, Op2::Eq, width, x, y)?;
    let (same, difference) = keeping(same, operated(alloc, memory, Op2::Sub, width, x, y))?;
    let trees = equality(alloc, width, same, difference)?;
    Ok(trees)
}

// The tree of a comparison for order.
fn ordered(
    alloc: Global,
    memory: &DataMemory<'_>,
    op: Op2,
    width: u8,
    x: &SrcExpr,
    y: &SrcExpr,
) -> Result<Vec<Tree>, NoMemory>
    requires width { IsWidth width }
    requires left { Fitting memory.now.word width (model_of_src_node x.now.node) }
    requires right { Fitting memory.now.word width (model_of_src_node y.now.node) }
    requires near_left { IsNear memory.now.places (model_of_src_node x.now.node) }
    requires near_right { IsNear memory.now.places (model_of_src_node y.now.node) }
    ensures { IfOk result (λ made. map model_of_tree made.items
        ≡ bin op (tree_of memory.now width (model_of_src_node x.now.node))
        (tree_of memory.now width (model_of_src_node y.now.node)) ∷ []) }
{
    let tree = operated(alloc, memory, op, width, x, y)?;
    let trees = one(alloc, tree)?;
    Ok(trees)
}

// The trees of a comparison.
fn compared(
    alloc: Global,
    memory: &DataMemory<'_>,
    cmp: Cmp,
    x: &SrcExpr,
    y: &SrcExpr,
) -> Result<Vec<Tree>, NoMemory>
    requires sides { FitsSides memory.now.word (model_of_src_node x.now.node) (model_of_src_node y.now.node) }
    requires near_left { IsNear memory.now.places (model_of_src_node x.now.node) }
    requires near_right { IsNear memory.now.places (model_of_src_node y.now.node) }
    ensures { IfOk result (λ made.
        map model_of_tree made.items ≡ (job_of_compare memory.now cmp (model_of_src_node x.now.node) (model_of_src_node y.now.node)).trees) }
{
    let width = operand_width(memory.word(), x, y);
    let trees = match cmp {
        Cmp::Eq | Cmp::Ne => equated(alloc, memory, width, x, y)?,
        Cmp::Lt | Cmp::Ge => ordered(alloc, memory, Op2::Ltu, width, x, y)?,
        Cmp::Gt | Cmp::Le => ordered(alloc, memory, Op2::Ltu, width, y, x)?,
        Cmp::Slt | Cmp::Sge => ordered(alloc, memory, Op2::Lts, width, x, y)?,
        Cmp::Sgt | Cmp::Sle => ordered(alloc, memory, Op2::Lts, width, y, x)?,
    };
    Ok(trees)
}

/// The job of a test.
pub(crate) fn test_job(
    alloc: Global,
    memory: &DataMemory<'_>,
    test: &SrcTest,
) -> Result<Job, NoMemory>
    requires sides { FitsSides memory.now.word (model_of_src_node test.now.left.node) (model_of_src_node test.now.right.node) }
    requires near_left { IsNear memory.now.places (model_of_src_node test.now.left.node) }
    requires near_right { IsNear memory.now.places (model_of_src_node test.now.right.node) }
    ensures { IfOk result (λ made. model_of_job made ≡ job_of_test memory.now (model_of_src_test test.now)) }
{
    let trees = compared(alloc, memory, test.cmp, &test.left, &test.right)?;
    Ok(Job {
        aim: Aim::Test,
        trees,
    })
}

// The counter of a `for`.
fn counter_tree(alloc: Global, memory: &DataMemory<'_>, counter: &Name) -> Result<Tree, NoMemory>
    ensures { IfOk result (λ made. model_of_tree made
        ≡ read InMemory (const memory.now.addr (base_of memory.now.places counter.now)) memory.now.word) }
{
    let at = Tree::Lit {
        width: memory.addr(),
        value: u64::from(memory.base(counter)),
    };
    let at = Box::new(alloc, at)?;
    Ok(Tree::Read(at, memory.word()))
}

// A number of a cell's width.
fn number(memory: &DataMemory<'_>, value: u64) -> Tree
    ensures { model_of_tree result ≡ const memory.now.word value }
{
    Tree::Lit {
        width: memory.word(),
        value,
    }
}

// An operator over the counter of a `for` and a number.
fn counted(
    alloc: Global,
    memory: &DataMemory<'_>,
    op: Op2,
    counter: &Name,
    value: u64,
) -> Result<Tree, NoMemory>
    ensures { IfOk result (λ made.
        model_of_tree made
        ≡ bin op (read InMemory (const memory.now.addr (base_of memory.now.places counter.now)) memory.now.word)
        (const memory.now.word value)) }
{
    let count = counter_tree(alloc, memory, counter)?;
    let made = over(alloc, op, count, number(memory, value))?;
    Ok(made)
}

/// The job that starts a `for`.
pub(crate) fn start_job(
    alloc: Global,
    memory: &DataMemory<'_>,
    counter: &Name,
    from: u64,
) -> Result<Job, NoMemory>
    ensures { IfOk result (λ made. model_of_job made ≡ job_of_start memory.now counter.now from) }
{
    let aim = Aim::Cell(memory.base(counter));
    let made = job(alloc, aim, number(memory, from))?;
    Ok(made)
}

/// The job of a `for`'s test.
pub(crate) fn counting_job(
    alloc: Global,
    memory: &DataMemory<'_>,
    counter: &Name,
    to: u64,
) -> Result<Job, NoMemory>
    requires { to + 1 < 2 ^ 64 }
    ensures { IfOk result (λ made. model_of_job made ≡ job_of_counting memory.now counter.now 0 to) }
{
    let same = counted(alloc, memory, Op2::Eq, counter, to + 1)?;
    let (same, difference) = keeping(same, counted(alloc, memory, Op2::Sub, counter, to + 1))?;
    let trees = equality(alloc, memory.word(), same, difference)?;
    Ok(Job {
        aim: Aim::Test,
        trees,
    })
}

/// The job that adds 1 to the counter of a `for`.
pub(crate) fn step_job(
    alloc: Global,
    memory: &DataMemory<'_>,
    counter: &Name,
) -> Result<Job, NoMemory>
    ensures { IfOk result (λ made. model_of_job made ≡ job_of_step memory.now counter.now) }
{
    let next = counted(alloc, memory, Op2::Add, counter, 1)?;
    let aim = Aim::Cell(memory.base(counter));
    let made = job(alloc, aim, next)?;
    Ok(made)
}
