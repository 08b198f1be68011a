//! From the text of a netlist to that of its self-test.

ghost use Rattle.std.specs.Prelude.{◌≡◌, ◌*◌, ◌-◌, ◌<◌, ◌≤◌, ◌^◌, IfErr, IfOk, None, OnOk, length};
ghost use Rattle.fault_sim.specs.Reports.{bits_of};
ghost use Rattle.form_model.specs.Forms.{models_of_forms};
ghost use Rattle.compaction.specs.Tables.{KnowsReads};
ghost use Rattle.form_set.specs.Listing.{AreForms};
ghost use Rattle.net_model.specs.declared.hardware.Space.TheVariants.{File as InFile};
ghost use Rattle.net_model.specs.CheckedRules.{KeepsRules, code_size};
ghost use Rattle.net_model.specs.Nets.{size_in};
ghost use Rattle.net_model.specs.Patterns.{ArePatterns};
ghost use Rattle.isa_extract.specs.Extraction.{IsExtractedFrom};
ghost use Rattle.transfer_set.specs.Machines.{IsReadyFor};
ghost use Rattle.transfer_set.specs.Rows.{row_patterns};
ghost use Rattle.code_gen.specs.Machines.{known_netlist, known_patterns};
ghost use Rattle.self_test.specs.Told.{IsTold};
ghost use Rattle.test_command.specs.Inner.Codes.{AreTestJobs, IsTestCode};
ghost use Rattle.test_command.specs.Refusals.{HasForms, IsTestText, test_count, test_limit};
ghost use Rattle.test_command.specs.Texts.{IsTestFault, IsTested, LacksTest};

use crate::fault::TestFault;
use binding::BindFault;
use bit_bdd::Book;
use code_gen::only_control;
use compaction::{KnownMachine, tables_of};
use form_model::Forms;
use form_set::forms;
use isa_extract::{Isa, read_extracted_taken};
use net_model::{Checked, Net, Netlist};
use rec_bits::{Items, NoMemory};
use self_test::{TestJobs, candidates};
use std::alloc::Global;
use test_code::{TestCode, code_of};
use test_run::report;
use transfer_set::Machine;

// The newest edition of the netlist texts that are tested.
const EDITION: u8 = 1;

// The most evaluations of nets that a self-test may take: one for each fault, word and net.
const LIMIT: u64 = 100_000_000;

// A count as it is. One that stands at the end of its type is told as want of memory.
fn exact(count: u64) -> Result<u64, NoMemory>
    ensures { IfOk result (λ n. (n ≡ count) × (n < 2 ^ 64 - 1)) }
{
    if count == u64::MAX {
        return Err(NoMemory);
    }
    Ok(count)
}

// The jobs of the self-test, by the netlist's forms.
fn jobs(alloc: Global, known: &KnownMachine<'_>, forms: &Forms) -> Result<TestJobs, TestFault>
    requires told { IsTold (known_netlist known.now) known.now.machine.pool.now known.now.machine.patterns.now }
    requires forms { HasForms (known_netlist known.now) (known_patterns known.now)
        (models_of_forms forms.now.list.items) }
    ensures jobs { IfOk result (AreTestJobs (known_netlist known.now)
        (models_of_forms forms.now.list.items) (known_patterns known.now)) }
    ensures refused { IfErr result (LacksTest (known_netlist known.now)) }
{
    match candidates(alloc, &known.machine, forms) {
        Ok(tests) => Ok(tests),
        Err(BindFault::DataFull { need, have }) => {
            let need = exact(need)?;
            Err(TestFault::DataFull { need, have })
        }
        Err(BindFault::Memory) => Err(TestFault::Memory),
    }
}

// The code of the self-test, by the netlist's forms, of which one is no jump and no branch.
fn code(
    alloc: Global,
    known: &KnownMachine<'_>,
    book: &mut Book,
    forms: &Forms,
) -> Result<TestCode, TestFault>
    requires ready { IsReadyFor known.now.machine book.old }
    requires tables { KnowsReads known.now }
    requires patterns { ArePatterns (known_netlist known.now) (known_patterns known.now) }
    requires forms { AreForms (known_netlist known.now) (known_patterns known.now)
        (models_of_forms forms.now.list.items) forms.now.reach }
    requires file { forms.now.file ≡ size_in InFile (known_netlist known.now).storages }
    requires plain { (known_netlist known.now).special ≡ None }
    ensures code { IfOk result (IsTestCode (known_netlist known.now)) }
    ensures refused { IfErr result (LacksTest (known_netlist known.now)) }
{
    let tests = jobs(alloc, known, forms)?;
    if only_control(&forms.list) {
        return Err(TestFault::NoStep);
    }
    let code = code_of(alloc, known, book, forms, &tests)?;
    Ok(code)
}

// How many bits nets have.
fn all_bits(nets: &[Net]) -> u64
    requires { length nets.now ≤ 4096 }
    ensures bits { result ≡ bits_of nets.now }
    ensures few { result ≤ 255 * length nets.now }
{
    let mut bits = 0;
    for net in nets {
        bits += u64::from(net.width);
    }
    bits
}

// How many evaluations so many words take: one for each fault, word and net.
fn evaluations(netlist: &Netlist, words: u64) -> u64
    requires nets { length netlist.now.nets ≤ 4096 }
    requires words { words ≤ 65536 }
    ensures { result ≡ test_count netlist.now words }
{
    let bits = all_bits(netlist.nets.as_slice());
    2 * bits * words * netlist.nets.len() as u64
}

// Whether the netlist's code has room for the words, and these take no more evaluations than the
// limit.
fn check_words(checked: &Checked, code: &TestCode) -> Result<(), TestFault>
    requires code { IsTestCode checked.now.netlist code.now }
    ensures room { OnOk result (length code.now.words.items ≤ code_size checked.now.netlist.codes) }
    ensures few { OnOk result (test_count checked.now.netlist (length code.now.words.items) ≤ test_limit) }
    ensures refused { IfErr result (LacksTest checked.now.netlist) }
{
    let netlist = checked.netlist();
    let len = code.words.len() as u64;
    let size = u64::from(netlist.code_size());
    if len > size {
        let bound = exact(code.cost)?;
        return Err(TestFault::ImageFull { len, size, bound });
    }
    let count = evaluations(netlist, len);
    if count > LIMIT {
        return Err(TestFault::TestLimit {
            count,
            bound: LIMIT,
        });
    }
    Ok(())
}

// The text of what the code's words show.
fn text(alloc: Global, checked: &Checked, code: &TestCode) -> Result<Items<u8>, TestFault>
    requires rules { KeepsRules checked.now.netlist checked.now.order }
    requires code { IsTestCode checked.now.netlist code.now }
    ensures text { IfOk result (IsTestText checked.now.netlist) }
    ensures refused { IfErr result (LacksTest checked.now.netlist) }
{
    check_words(checked, code)?;
    match report(alloc, checked, code.tested, code.skipped, &code.words)? {
        Some(text) => Ok(text),
        // without a fault the words don't clash
        None => unreachable!(),
    }
}

// The text of the self-test of a netlist, by what is extracted from it.
fn text_of(alloc: Global, checked: &Checked, extracted: &mut Isa) -> Result<Items<u8>, TestFault>
    requires rules { KeepsRules checked.now.netlist checked.now.order }
    requires plain { checked.now.netlist.special ≡ None }
    requires extracted { IsExtractedFrom checked.now.netlist extracted.old }
    requires patterns { ArePatterns checked.now.netlist (row_patterns extracted.old.pool extracted.old.patterns.rows) }
    ensures text { IfOk result (IsTestText checked.now.netlist) }
    ensures refused { IfErr result (LacksTest checked.now.netlist) }
{
    let Isa {
        book,
        pool,
        patterns,
        ..
    } = extracted;
    let machine = Machine {
        checked,
        pool: &*pool,
        patterns: &*patterns,
    };
    let forms = forms(alloc, &machine, book)?;
    let tables = tables_of(alloc, machine.pool)?;
    let known = KnownMachine {
        machine,
        registers: tables.registers.as_slice(),
        memory: tables.memory.as_slice(),
    };
    let code = code(alloc, &known, book, &forms)?;
    text(alloc, checked, &code)
}

/// The text of the self-test of the netlist that `net` is: words made of the netlist's own forms,
/// and which stuck-at faults a run of them shows in the memory. A text that tells an edition is
/// refused as one that breaks N6. Each refusal comes exactly where it
/// is the first that applies, in the order in which they are listed; whether the words are too many
/// is said of the words that are made.
pub fn test(alloc: Global, net: &[u8]) -> Result<Items<u8>, TestFault>
    requires { length net.now < 2 ^ 32 }
    ensures tested { IfOk result (IsTested net.now) }
    ensures refused { IfErr result (IsTestFault net.now) }
{
    let (checked, mut extracted) = read_extracted_taken(alloc, net, EDITION)?;
    text_of(alloc, &checked, &mut extracted)
}
