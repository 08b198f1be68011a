//! Where the words lead from a mark.

ghost use Rattle.std.specs.Prelude.{◌≡◌, ℕ, is_none, true, false, Some, length, map, slice_get, IfOk};
ghost use Rattle.rec_bits.specs.Operators.{IsWidth, bit_of};
ghost use Rattle.form_model.specs.Trees.{model_of_tree};
ghost use Rattle.net_model.specs.Nets.{memory_width};
ghost use Rattle.src_trees.specs.Doing.{AllAre};
ghost use Rattle.src_trees.specs.Seen.{tree_value};
ghost use Rattle.src_trees.specs.Jobs.{model_of_job};
ghost use Rattle.sym_run.specs.Walks.{AreAllWithin};
ghost use Rattle.tree_laws.specs.Classes.{cell_bits};
ghost use Rattle.net_model.specs.declared.hardware.Netlist.{Netlist};
ghost use Rattle.src_model.specs.Written.{ProgramModel};
ghost use Rattle.code_model.specs.declared.views.Viewed.{Viewed};
ghost use Rattle.src_trees.specs.Lowered.{MemoryMap};
ghost use Rattle.follow.specs.Paths.{Path};
ghost use Rattle.follow.specs.Relations.{Relation};
ghost use Rattle.segment.specs.Asked.{ArePlaces, IsAskedOf, IsHintOf};
ghost use Rattle.segment.specs.Proved.{ComesFrom, ComesHere, ComesOn, HasCome, HasEnded, IfFound, IsAtOne, IsFoundFirst, IsFoundWay};
ghost use Rattle.segment.specs.Timed.{IsFirstWay, IsWay};
ghost use Rattle.mark_start.specs.Marked.{AllHeld, AreViewless, IsFirst};
ghost use Rattle.segment.specs.Runs.{IsAgreed};
ghost use Rattle.mark_start.specs.Runs.{IsAtStart, IsLearnt};

use crate::arrive::align;
use crate::path::job_at;
use crate::run::Segment;
use crate::way::{End, Way, Why, way_to};
use class_values::{is_full, number_of};
use form_model::{Job, Tree};
use mark_start::{Hint, Run, are_viewless, bit};
use rec_bits::{Items, NoMemory};
use std::alloc::Global;
use std::mem;
use sym_run::{Arrival, Image, Known, Walked};
use tree_laws::Classes;

/// How often laws may tell what a branch asks, and of how many tests they are asked for one.
const BRANCHES: u8 = 2;

const TESTS: u8 = 8;

// Whether two labels are one.
fn is_label(a: Option<u32>, b: Option<u32>) -> bool
    ensures { result ≡ true → a ≡ b }
{
    a == b
}

// Whether a hint at the first word says nothing but where the variables stand.
fn is_first(hint: &Hint) -> bool
    ensures { result ≡ true → IsFirst hint.now }
{
    hint.address == 0 && hint.holdings.is_empty() && hint.numbers.is_empty()
}

// Nothing known of a machine's state.
fn nothing(alloc: Global) -> Known {
    Known {
        regs: Items::new(alloc),
        cells: Items::new(alloc),
        inside: Items::new(alloc),
        puts: Items::new(alloc),
        file: Items::new(alloc),
    }
}

impl Segment<'_> {
    // Whether a tree of the test can't have the answer.
    fn is_denied(&self, table: &mut Classes, run: &Run, tree: &Tree) -> Result<bool, NoMemory>
        ensures { IfOk result (IsAgreed run.now (λ s now. tree_value now (model_of_tree tree.now) ≡ bit_of self.now.start.answer → ⊥) table.old table.new) }
    {
        let found = self.start.tree(table, run, tree)?;
        let Some(class) = found else {
            return Ok(false);
        };
        match number_of(table, run.facts.as_slice(), class) {
            Some(number) => Ok(number != bit(self.start.answer)),
            None => Ok(false),
        }
    }

    // Whether one of all trees can't.
    fn are_denied(&self, table: &mut Classes, run: &Run, trees: &[Tree]) -> Result<bool, NoMemory>
        ensures { IfOk result (IsAgreed run.now (λ s now. AllAre (bit_of self.now.start.answer) now (map model_of_tree trees.now) → ⊥) table.old table.new) }
    {
        let Some((tree, rest)) = trees.split_first() else {
            return Ok(false);
        };
        if self.is_denied(table, run, tree)? {
            return Ok(true);
        }
        self.are_denied(table, run, rest)
    }

    // Why a state at an address isn't as the first of the hints with the label says, if it isn't known to
    // be so.
    fn unlike(
        &self,
        alloc: Global,
        table: &mut Classes,
        run: &Run,
        address: u64,
        hints: &[Hint],
    ) -> Result<Option<Why>, NoMemory>
        ensures { IfOk result (λ why. IsAgreed run.now (IsAtOne self.now.start.pool.now address self.now.label hints.now) table.old table.new (is_none why)) }
    {
        let Some((hint, rest)) = hints.split_first() else {
            return Ok(Some(Why::Mark(address)));
        };
        if u64::from(hint.address) == address && is_label(hint.label, self.label) {
            if let Some(what) = self.first_unlike(alloc, table, run, hint)? {
                return Ok(Some(Why::Unlike { at: address, what }));
            }
            return Ok(None);
        }
        self.unlike(alloc, table, run, address, rest)
    }

    // The mark of an address, with so many clocks left, if all is there as a hint says.
    fn meets(
        &self,
        alloc: Global,
        table: &mut Classes,
        run: &Run,
        address: u64,
        left: u64,
    ) -> Result<End, NoMemory>
        ensures { IfOk result (λ end. IfFound end (λ to rest. HasCome self.now run.now.facts run.now.vars
            (record { address = address; known = run.now.machine; left = left }) to rest table.old table.new)) }
    {
        match self.unlike(alloc, table, run, address, self.hints)? {
            Some(why) => Ok(End::Lost(why)),
            None => Ok(End::Mark { address, left }),
        }
    }

    // The mark to which words came, if the run's machine, as it is known there, is as a hint says.
    fn comes(
        &self,
        alloc: Global,
        table: &mut Classes,
        run: &mut Run,
        arrival: Arrival,
    ) -> Result<End, NoMemory>
        ensures { IfOk result (λ end. IfFound end (λ address left. HasCome self.now run.old.facts run.old.vars arrival address left table.old table.new)) }
    {
        let Arrival {
            address,
            known,
            left,
        } = arrival;
        run.machine = known;
        align(alloc, table, run)?;
        self.meets(alloc, table, run, address, left)
    }

    // Where words that were walked end.
    fn ends(
        &self,
        alloc: Global,
        table: &mut Classes,
        run: &mut Run,
        walked: Walked,
    ) -> Result<End, NoMemory>
        ensures { IfOk result (λ end. IfFound end (λ address left. HasEnded self.now run.old.facts run.old.vars walked address left table.old table.new)) }
    {
        match walked {
            Walked::Arrives(arrival) => self.comes(alloc, table, run, arrival),
            Walked::Lost(at) => Ok(End::Lost(Why::Word(at))),
            Walked::Late => Ok(End::Lost(Why::Clocks)),
        }
    }

    // Where the words lead behind a first one from where what is known stands: so often, laws may tell
    // what a branch asks.
    #[cycle(cross)]
    fn crosses(
        &self,
        alloc: Global,
        table: &mut Classes,
        run: &mut Run,
        branches: u8,
    ) -> Result<End, NoMemory>
        requires { AreAllWithin (length self.now.start.pool.now) self.now.start.code.now }
        ensures { IfOk result (λ end. IfFound end (ComesOn self.now table.old run.old)) }
    {
        let image = Image {
            pool: self.start.pool,
            facts: run.facts.as_slice(),
            code: self.start.code,
            marks: self.marks,
            counter: self.start.counter,
            memory: self.start.memory,
            file: self.start.file,
        };
        let from = u64::from(self.start.from.address);
        match image.cross(alloc, table, &run.machine, self.clocks, from)? {
            Walked::Arrives(arrival) => self.comes(alloc, table, run, arrival),
            Walked::Lost(at) => self.branches(alloc, table, run, at, branches),
            Walked::Late => Ok(End::Lost(Why::Clocks)),
        }
    }

    // The same behind a word of which it isn't known what comes next, where laws tell what it asks.
    #[cycle(cross)]
    fn branches(
        &self,
        alloc: Global,
        table: &mut Classes,
        run: &mut Run,
        at: u64,
        branches: u8,
    ) -> Result<End, NoMemory>
        requires { AreAllWithin (length self.now.start.pool.now) self.now.start.code.now }
        ensures { IfOk result (λ end. IfFound end (ComesOn self.now table.old run.old)) }
    {
        if branches == 0 {
            return Ok(End::Lost(Why::Word(at)));
        }
        let classes = table.len();
        if !self.tell_tests(alloc, table, run, classes, TESTS)? {
            return Ok(End::Lost(Why::Word(at)));
        }
        self.crosses(alloc, table, run, branches - 1)
    }

    // Where the words lead from where what is known stands.
    fn leads(&self, alloc: Global, table: &mut Classes, run: &mut Run) -> Result<End, NoMemory>
        requires { AreAllWithin (length self.now.start.pool.now) self.now.start.code.now }
        ensures { IfOk result (λ end. IfFound end (ComesFrom self.now table.old run.old)) }
    {
        if !self.over_path(alloc, table, run)? {
            return Ok(End::Lost(Why::Path));
        }
        self.crosses(alloc, table, run, BRANCHES)
    }

    // Where they lead without a first clock.
    fn walks(&self, alloc: Global, table: &mut Classes, run: &mut Run) -> Result<End, NoMemory>
        requires { AreAllWithin (length self.now.start.pool.now) self.now.start.code.now }
        ensures { IfOk result (λ end. IfFound end (ComesHere self.now table.old run.old)) }
    {
        if !self.over_path(alloc, table, run)? {
            return Ok(End::Lost(Why::Path));
        }
        let machine = mem::replace(&mut run.machine, nothing(alloc));
        let image = Image {
            pool: self.start.pool,
            facts: run.facts.as_slice(),
            code: self.start.code,
            marks: self.marks,
            counter: self.start.counter,
            memory: self.start.memory,
            file: self.start.file,
        };
        let walked = image.walk(alloc, table, machine, self.clocks, 0)?;
        self.ends(alloc, table, run, walked)
    }

    // Tells a run that a job's test has the answer, and the mark's holdings, and says whether the
    // answer can be.
    fn admits(&self, table: &mut Classes, run: &mut Run, job: &Job) -> Result<bool, NoMemory>
        ensures learnt { IfOk result (λ can. can ≡ true → IsLearnt self.now.start (λ s cells. AllAre (bit_of self.now.start.answer) cells (model_of_job job.now).trees × AllHeld self.now.start.pool.now self.now.start.from.now.holdings s cells)
            table.old table.new run.old run.new) }
        ensures denied { IfOk result (λ can. can ≡ false → IsAgreed run.old (λ s now. AllAre (bit_of self.now.start.answer) now (model_of_job job.now).trees → ⊥) table.old table.new true) }
    {
        if self.are_denied(table, run, job.trees.as_slice())? {
            return Ok(false);
        }
        self.start.answers(table, run, job.trees.as_slice())?;
        self.start
            .holdings(table, run, self.start.from.holdings.as_slice())?;
        Ok(true)
    }

    // The way from the mark, where the test of a job has the answer, by what is known there without its
    // hint.
    fn way_from(
        &self,
        alloc: Global,
        table: &mut Classes,
        run: &mut Run,
        job: &Job,
    ) -> Result<Way, NoMemory>
        requires begun { IsAtStart self.now.start table.old run.old }
        requires code { AreAllWithin (length self.now.start.pool.now) self.now.start.code.now }
        requires job { slice_get self.now.jobs.now self.now.test ≡ Some job.now }
        ensures { IfOk result (IsFoundWay self.now) }
    {
        self.start.tell(table, run, job)?;
        if !self.admits(table, run, job)? {
            return Ok(Way::Never);
        }
        let end = self.leads(alloc, table, run)?;
        Ok(way_to(end, is_full(table), self.clocks, 1))
    }

    // The way from the mark, where the test of a job has the answer.
    fn way_of(&self, alloc: Global, table: &mut Classes, job: &Job) -> Result<Way, NoMemory>
        requires bits { cell_bits table.old ≡ self.now.start.word }
        requires viewless { AreViewless self.now.start.from.now.spots }
        requires code { AreAllWithin (length self.now.start.pool.now) self.now.start.code.now }
        requires job { slice_get self.now.jobs.now self.now.test ≡ Some job.now }
        ensures { IfOk result (IsFoundWay self.now) }
    {
        let mut run = self.start.begin(alloc)?;
        self.way_from(alloc, table, &mut run, job)
    }

    /// The way from the mark, where the test has the answer: from each state there that is related to
    /// the program's cells, the words do what the path does, and come in so many clocks, the mark's own
    /// included, to a mark with the label, where all is related again. Where it isn't known, nothing is
    /// said.
    pub fn way(&self, alloc: Global) -> Result<Way, NoMemory>
        requires width { IsWidth self.now.start.word }
        requires code { AreAllWithin (length self.now.start.pool.now) self.now.start.code.now }
        ensures { IfOk result (λ way.
            (netlist : Netlist) (viewed : Viewed) (relation : ℕ → Relation) (m : MemoryMap) (temps : ℕ) (l : ProgramModel) (path : Path) →
            IsAskedOf netlist viewed relation m temps l path self.now → IsHintOf viewed relation m l.vars self.now.start.pool.now self.now.start.from.now →
            IsWay netlist viewed relation m temps l self.now.clocks self.now.start.from.now.address self.now.test self.now.start.answer path way) }
    {
        let Some(job) = job_at(self.jobs, self.test) else {
            return Ok(Way::Unknown(Why::Test));
        };
        if !are_viewless(self.start.from.spots.as_slice()) {
            return Ok(Way::Unknown(Why::Array));
        }
        let mut table = Classes::new(alloc, self.start.word);
        self.way_of(alloc, &mut table, job)
    }

    // The way from the first word, by what is known there without its hint.
    fn first_way_from(
        &self,
        alloc: Global,
        table: &mut Classes,
        run: &mut Run,
    ) -> Result<Way, NoMemory>
        requires begun { IsAtStart self.now.start table.old run.old }
        requires code { AreAllWithin (length self.now.start.pool.now) self.now.start.code.now }
        ensures { IfOk result (IsFoundFirst self.now) }
    {
        self.start.count(table, run)?;
        let end = self.walks(alloc, table, run)?;
        Ok(way_to(end, is_full(table), self.clocks, 0))
    }

    // The way from the first word, in a table of no trees yet.
    fn first_way_in(&self, alloc: Global, table: &mut Classes) -> Result<Way, NoMemory>
        requires bits { cell_bits table.old ≡ self.now.start.word }
        requires viewless { AreViewless self.now.start.from.now.spots }
        requires code { AreAllWithin (length self.now.start.pool.now) self.now.start.code.now }
        ensures { IfOk result (IsFoundFirst self.now) }
    {
        let mut run = self.start.begin(alloc)?;
        self.first_way_from(alloc, table, &mut run)
    }

    /// The way from the first word, where all variables stand in their places, to a mark of the label.
    /// Where it isn't known, nothing is said.
    pub fn first_way(&self, alloc: Global) -> Result<Way, NoMemory>
        requires width { IsWidth self.now.start.word }
        requires code { AreAllWithin (length self.now.start.pool.now) self.now.start.code.now }
        ensures { IfOk result (λ way.
            (netlist : Netlist) (viewed : Viewed) (relation : ℕ → Relation) (m : MemoryMap) (temps : ℕ) (l : ProgramModel) (path : Path) →
            IsAskedOf netlist viewed relation m temps l path self.now → ArePlaces m l.vars self.now.start.pool.now self.now.start.from.now.spots →
            memory_width netlist.storages ≡ m.word → IsFirstWay netlist viewed relation m temps l self.now.clocks path way) }
    {
        if !is_first(self.start.from) || !are_viewless(self.start.from.spots.as_slice()) {
            return Ok(Way::Unknown(Why::Array));
        }
        let mut table = Classes::new(alloc, self.start.word);
        self.first_way_in(alloc, &mut table)
    }
}
