//! The jobs of a program over two memories.

ghost use Rattle.std.specs.Prelude.{◌≡◌, ◌≤◌, IfOk, IfNone, IfSome, Ok, map};
ghost use Rattle.rec_bits.specs.declared.operator.Op2.TheVariants.{Add};
ghost use Rattle.net_model.specs.Exprs.{bin, const, slice, zext};
ghost use Rattle.form_model.specs.Trees.{model_of_tree};
ghost use Rattle.form_model.specs.Forms.{aim_destination};
ghost use Rattle.src_trees.specs.Jobs.{model_of_job, models_of_jobs};
ghost use Rattle.dual_bank.specs.Banked.{banked_address, banked_destination, banked_tree, job_of_banked, in_memory, summed};
ghost use Rattle.dual_bank.specs.Inner.Sums.{IsSum, IsNoSum};

use form_model::{Aim, Blocks, Job, Tree};
use rec_bits::{NoMemory, Op2};
use std::alloc::Global;

// A sum of an index and the address of an array, cut to an address: the index, and the width and the
// value of the array's address.
#[derive(Drop)]
struct Sum<'a> {
    index: &'a Tree,
    width: u8,
    base: u64,
}

// The sum that an address is, where it is one.
fn sum_of(address: &Tree) -> Option<Sum<'_>>
    ensures some { IfSome result (λ sum. IsSum (model_of_tree address.now) (model_of_tree sum.index.now) sum.width sum.base) }
    ensures none { IfNone result (IsNoSum (model_of_tree address.now)) }
{
    let Tree::Slice(sum, _, _) = address else {
        return None;
    };
    let Tree::Bin(Op2::Add, index, base) = &**sum else {
        return None;
    };
    let Tree::Lit { width, value } = &**base else {
        return None;
    };
    Some(Sum {
        index,
        width: *width,
        base: *value,
    })
}

// The value beside what was made behind it. The value is let go here where nothing was made,
// whatever its type, so that a maker has only its own ways out.
fn keeping<T: Drop, R>(value: T, made: Result<R, NoMemory>) -> Result<(T, R), NoMemory>
    ensures kept { IfOk result (λ x. x.0 ≡ value) }
    ensures made { IfOk result (λ x. made ≡ Ok x.1) }
{
    let made = made?;
    Ok((value, made))
}

fn boxes<T: Drop>(alloc: Global, x: T, y: T) -> Result<(Box<T>, Box<T>), NoMemory>
    ensures left { IfOk result (λ made. made.0.value ≡ x) }
    ensures right { IfOk result (λ made. made.1.value ≡ y) }
{
    let left = Box::new(alloc, x)?;
    let right = Box::new(alloc, y)?;
    Ok((left, right))
}

fn sliced(alloc: Global, tree: Tree, hi: u8) -> Result<Tree, NoMemory>
    ensures { IfOk result (λ made. model_of_tree made ≡ slice (model_of_tree tree) hi 0) }
{
    let of = Box::new(alloc, tree)?;
    Ok(Tree::Slice(of, hi, 0))
}

fn widened(alloc: Global, tree: Tree, width: u8) -> Result<Tree, NoMemory>
    ensures { IfOk result (λ made. model_of_tree made ≡ zext (model_of_tree tree) width) }
{
    let of = Box::new(alloc, tree)?;
    Ok(Tree::Zext(of, width))
}

// A tree and a number, added.
fn plus(alloc: Global, tree: Tree, width: u8, value: u64) -> Result<Tree, NoMemory>
    ensures { IfOk result (λ made. model_of_tree made ≡ bin Add (model_of_tree tree) (const width value)) }
{
    let (left, right) = boxes(alloc, tree, Tree::Lit { width, value })?;
    Ok(Tree::Bin(Op2::Add, left, right))
}

// An address of `k` bits in the memory that has the cell `base`.
fn in_memory(alloc: Global, k: u8, base: u64, address: Tree) -> Result<Tree, NoMemory>
    requires { k ≤ 15 }
    ensures { IfOk result (λ made. model_of_tree made ≡ in_memory k base (model_of_tree address)) }
{
    let wide = widened(alloc, address, k + 1)?;
    let first = 1u64 << k;
    if base < first {
        Ok(wide)
    } else {
        plus(alloc, wide, k + 1, first)
    }
}

// The sum of an index and the cell `base` at which its array begins, in `width` bits.
fn summed(alloc: Global, k: u8, width: u8, index: Tree, base: u64) -> Result<Tree, NoMemory>
    requires some { 1 ≤ k }
    requires most { k ≤ 15 }
    ensures { IfOk result (λ made. model_of_tree made ≡ summed k width (model_of_tree index) base) }
{
    let sum = plus(alloc, index, width, base % (1u64 << k))?;
    let low = sliced(alloc, sum, k - 1)?;
    in_memory(alloc, k, base, low)
}

// An address, over both memories.
#[cycle(trees)]
fn banked_address(alloc: Global, k: u8, address: &Tree) -> Result<Tree, NoMemory>
    requires some { 1 ≤ k }
    requires most { k ≤ 15 }
    ensures { IfOk result (λ made. model_of_tree made ≡ banked_address k (banked_tree k (model_of_tree address.now))) }
{
    match sum_of(address) {
        Some(sum) => {
            let index = banked_tree(alloc, k, sum.index)?;
            summed(alloc, k, sum.width, index, sum.base)
        }
        None => banked_tree(alloc, k, address),
    }
}

#[cycle(trees)]
fn boxed(alloc: Global, k: u8, tree: &Tree) -> Result<Box<Tree>, NoMemory>
    requires some { 1 ≤ k }
    requires most { k ≤ 15 }
    ensures { IfOk result (λ made. model_of_tree made.value ≡ banked_tree k (model_of_tree tree.now)) }
{
    let tree = banked_tree(alloc, k, tree)?;
    let made = Box::new(alloc, tree)?;
    Ok(made)
}

// A tree, whose addresses are over both memories.
#[cycle(trees)]
fn banked_tree(alloc: Global, k: u8, tree: &Tree) -> Result<Tree, NoMemory>
    requires some { 1 ≤ k }
    requires most { k ≤ 15 }
    ensures { IfOk result (λ made. model_of_tree made ≡ banked_tree k (model_of_tree tree.now)) }
{
    match tree {
        Tree::Lit { width, value } => Ok(Tree::Lit {
            width: *width,
            value: *value,
        }),
        Tree::Read(address, width) => {
            let address = Box::new(alloc, banked_address(alloc, k, address)?)?;
            Ok(Tree::Read(address, *width))
        }
        Tree::Un(op, x) => Ok(Tree::Un(*op, boxed(alloc, k, x)?)),
        Tree::Bin(op, x, y) => {
            let left = boxed(alloc, k, x)?;
            let (left, right) = keeping(left, boxed(alloc, k, y))?;
            Ok(Tree::Bin(*op, left, right))
        }
        Tree::Slice(x, hi, lo) => Ok(Tree::Slice(boxed(alloc, k, x)?, *hi, *lo)),
        Tree::Zext(x, width) => Ok(Tree::Zext(boxed(alloc, k, x)?, *width)),
        Tree::Sext(x, width) => Ok(Tree::Sext(boxed(alloc, k, x)?, *width)),
    }
}

fn banked_aim(alloc: Global, k: u8, aim: &Aim) -> Result<Aim, NoMemory>
    requires some { 1 ≤ k }
    requires most { k ≤ 15 }
    ensures { IfOk result (λ made. aim_destination made ≡ banked_destination k (aim_destination aim.now)) }
{
    match aim {
        Aim::Cell(address) => Ok(Aim::Cell(*address)),
        Aim::Store(address) => Ok(Aim::Store(banked_address(alloc, k, address)?)),
        Aim::Test => Ok(Aim::Test),
        Aim::Temp => Ok(Aim::Temp),
    }
}

fn banked_trees(alloc: Global, k: u8, trees: &[Tree]) -> Result<Vec<Tree>, NoMemory>
    requires some { 1 ≤ k }
    requires most { k ≤ 15 }
    ensures { IfOk result (λ made. map model_of_tree made.items ≡ map (banked_tree k) (map model_of_tree trees.now)) }
{
    let mut made = Vec::new(alloc);
    for tree in trees {
        made.push(banked_tree(alloc, k, tree)?)?;
    }
    Ok(made)
}

fn banked_job(alloc: Global, k: u8, job: &Job) -> Result<Job, NoMemory>
    requires some { 1 ≤ k }
    requires most { k ≤ 15 }
    ensures { IfOk result (λ made. model_of_job made ≡ job_of_banked k (model_of_job job.now)) }
{
    let trees = banked_trees(alloc, k, &job.trees)?;
    let (trees, aim) = keeping(trees, banked_aim(alloc, k, &job.aim))?;
    Ok(Job { aim, trees })
}

fn banked_jobs(alloc: Global, k: u8, jobs: &[Job]) -> Result<Vec<Job>, NoMemory>
    requires some { 1 ≤ k }
    requires most { k ≤ 15 }
    ensures { IfOk result (λ made. models_of_jobs made.items ≡ map (job_of_banked k) (models_of_jobs jobs.now)) }
{
    let mut made = Vec::new(alloc);
    for job in jobs {
        made.push(banked_job(alloc, k, job)?)?;
    }
    Ok(made)
}

/// The flow and the jobs of a program over two memories, from those over one that `lower` gives for
/// the places of `bind_banks` and addresses of one bit more than `addr_width`, which is from 1 to
/// 15: the address of an element at a computed index is made to lie in its own memory. The only
/// error is want of memory.
pub fn banked(alloc: Global, blocks: Blocks, addr_width: u8) -> Result<Blocks, NoMemory>
    requires some { 1 ≤ addr_width }
    requires most { addr_width ≤ 15 }
    ensures flow { IfOk result (λ made. made.flow ≡ blocks.flow) }
    ensures jobs { IfOk result (λ made. models_of_jobs made.jobs.items
        ≡ map (job_of_banked addr_width) (models_of_jobs blocks.jobs.items)) }
{
    let made = banked_jobs(alloc, addr_width, &blocks.jobs);
    let (blocks, jobs) = keeping(blocks, made)?;
    Ok(Blocks {
        flow: blocks.flow,
        jobs,
    })
}
