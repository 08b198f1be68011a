//! From a self-test's words and findings to its text.

ghost use Rattle.std.specs.Prelude.{◌≡◌, ◌++◌, ◌≤◌, IfOk, OnOk, string_bytes};
ghost use Rattle.std.specs.List.{flat_map};
ghost use Rattle.text_lines.specs.Digits.{hex_of};
ghost use Rattle.test_run.specs.Text.{detected_count, end_lines, fault_line, fault_lines, finding_line, head_lines, is_detected, report_text, word_line, word_lines};

use fault_sim::{Fault, Finding};
use rec_bits::NoMemory;
use std::alloc::Global;
use text_lines::bytes_of;

// The bytes of the widest word.
const WORD_BYTES: usize = 8;

fn head_lines(alloc: Global, tested: u64, skipped: u64, words: usize) -> Result<String, NoMemory>
    ensures { IfOk result (λ lines. string_bytes lines ≡ head_lines tested skipped words) }
{
    Ok(format!(in alloc; "tested {tested}\nskipped {skipped}\nwords {words}\n")?)
}

fn word_digits(alloc: Global, word: u64, bytes: usize) -> Result<String, NoMemory>
    requires { bytes ≤ WORD_BYTES }
    ensures { IfOk result (λ digits. string_bytes digits ≡ hex_of bytes word) }
{
    Ok(hex::encode(alloc, &word.to_be_bytes()[WORD_BYTES - bytes..])?)
}

fn put_word(
    alloc: Global,
    out: &mut Vec<u8>,
    address: usize,
    word: u64,
    bytes: usize,
) -> Result<(), NoMemory>
    requires { bytes ≤ WORD_BYTES }
    ensures { OnOk result (out.new.items ≡ out.old.items ++ word_line bytes address word) }
{
    let digits = word_digits(alloc, word, bytes)?;
    out.extend_from_slice(format!(in alloc; "word {address} {digits}\n")?.as_bytes())?;
    Ok(())
}

fn put_words(alloc: Global, out: &mut Vec<u8>, words: &[u64], bytes: usize) -> Result<(), NoMemory>
    requires { bytes ≤ WORD_BYTES }
    ensures { OnOk result (out.new.items ≡ out.old.items ++ word_lines bytes 0 words.now) }
{
    for (address, word) in words.iter().enumerate() {
        put_word(alloc, out, address, *word, bytes)?;
    }
    Ok(())
}

fn fault_line(alloc: Global, faults: usize) -> Result<String, NoMemory>
    ensures { IfOk result (λ line. string_bytes line ≡ fault_line faults) }
{
    Ok(format!(in alloc; "faults {faults}\n")?)
}

// The line of a fault that is detected or clashes; nothing for any other.
fn finding_text(alloc: Global, fault: Fault, finding: Finding) -> Result<String, NoMemory>
    ensures { IfOk result (λ line. string_bytes line ≡ finding_line fault finding) }
{
    let net = fault.net;
    let bit = fault.bit;
    let value = u8::from(fault.value);
    match finding {
        Finding::Detected(cell) => { Ok(format!(in alloc; "detect {net} {bit} {value} {cell}\n")?) }
        Finding::Clash => Ok(format!(in alloc; "clash {net} {bit} {value}\n")?),
        Finding::Unseen => Ok(String::new(alloc)),
    }
}

fn put_findings(
    alloc: Global,
    out: &mut Vec<u8>,
    found: &[(Fault, Finding)],
) -> Result<(), NoMemory>
    ensures { OnOk result (out.new.items ≡ out.old.items ++ flat_map fault_lines found.now) }
{
    for (fault, finding) in found {
        out.extend_from_slice(finding_text(alloc, *fault, *finding)?.as_bytes())?;
    }
    Ok(())
}

fn is_detected(finding: Finding) -> bool
    ensures { result ≡ is_detected finding }
{
    matches!(finding, Finding::Detected(_))
}

fn count_detected(found: &[(Fault, Finding)]) -> usize
    ensures { result ≡ detected_count found.now }
{
    let mut count = 0;
    for (_, finding) in found {
        if is_detected(*finding) {
            count += 1;
        }
    }
    count
}

fn end_lines(alloc: Global, detected: usize) -> Result<String, NoMemory>
    ensures { IfOk result (λ lines. string_bytes lines ≡ end_lines detected) }
{
    Ok(format!(in alloc; "detected {detected}\ndone\n")?)
}

/// The text of a self-test of words of so many bits: how many candidates are tested and how many
/// are skipped, the words, and what they show of all faults.
pub fn write(
    alloc: Global,
    bits: u8,
    tested: u64,
    skipped: u64,
    words: &[u64],
    found: &[(Fault, Finding)],
) -> Result<Vec<u8>, NoMemory>
    requires { bits ≤ 64 }
    ensures { IfOk result (λ text. text.items ≡ report_text bits tested skipped words.now found.now) }
{
    let mut out = Vec::new(alloc);
    out.extend_from_slice(head_lines(alloc, tested, skipped, words.len())?.as_bytes())?;
    put_words(alloc, &mut out, words, bytes_of(bits))?;
    out.extend_from_slice(fault_line(alloc, found.len())?.as_bytes())?;
    put_findings(alloc, &mut out, found)?;
    out.extend_from_slice(end_lines(alloc, count_detected(found))?.as_bytes())?;
    Ok(out)
}
