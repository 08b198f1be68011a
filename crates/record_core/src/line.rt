//! The lines of the faults.
ghost use Rattle.std.specs.Prelude.{◌≡◌, ◌+◌, ◌<◌, IfOk, drop, length, string_bytes, take_while};
ghost use Rattle.lexing.specs.Bytes.{is_name_byte};
ghost use Rattle.record_core.specs.CheckLines.{answer_text, cause_text, follow_line, mark_line, origin_text, rule_line};
ghost use Rattle.record_core.specs.Lines.{name_offset, status_line, name_of_file, told_name};
ghost use Rattle.record_core.specs.NetLines.{name_from, name_place, net_line, net_rule_text, net_kind_text, role_text};
ghost use Rattle.record_core.specs.SrcLines.{src_line, src_kind_text};
ghost use Rattle.record_core.specs.Words.{texts_of};

use crate::Status;
use crate::stop::Told;
use check_command::{Cause, Origin, RuleFault};
use follow::MarkFault;
use net_model::{NetFault, NetKind, Role};
use src_model::{SrcFault, SrcKind};
use std::alloc::{AllocError, Global};

/// The word that names this file.
pub fn file_name(words: &[String], file: u8) -> &str
    ensures { result.now ≡ name_of_file (texts_of words.now) file }
{
    match words.get(file as usize + 1) {
        Some(word) => word.as_str(),
        None => "",
    }
}

fn role_name(role: Role) -> &'static str
    ensures { result.now ≡ role_text role }
{
    match role {
        Role::Code => "code",
        Role::Memory => "memory",
        Role::Pc => "pc",
        Role::Size => "size",
        Role::Addr => "addr",
        Role::File => "file",
        Role::Mode => "mode",
        Role::Bank => "bank",
    }
}

fn net_kind_name(kind: NetKind) -> &'static str
    ensures { result.now ≡ net_kind_text kind }
{
    match kind {
        NetKind::Nets => "nets",
        NetKind::Registers => "registers",
        NetKind::Cells => "cells",
        NetKind::Words => "words",
        NetKind::File => "file",
    }
}

fn src_kind_name(kind: SrcKind) -> &'static str
    ensures { result.now ≡ src_kind_text kind }
{
    match kind {
        SrcKind::Length => "length",
        SrcKind::Statements => "statements",
        SrcKind::Nodes => "nodes",
    }
}

/// The offset at which the name stands that the line of a netlist's rule tells, if it tells one.
pub fn name_place(fault: NetFault) -> Option<u64>
    ensures { result ≡ name_place fault }
{
    match fault {
        NetFault::Duplicate(at)
        | NetFault::Unknown(at)
        | NetFault::Width(at)
        | NetFault::Driver(at)
        | NetFault::Cycle(at)
        | NetFault::Enable(at)
        | NetFault::ControlOp(at)
        | NetFault::WideSelect(at)
        | NetFault::PatternLarge(at)
        | NetFault::TooMany(at)
        | NetFault::FileAddr(at) => Some(at),
        NetFault::Role(_) | NetFault::AlwaysClash | NetFault::Limit { .. } => None,
    }
}

fn is_name_byte(byte: u8) -> bool
    ensures { result ≡ is_name_byte byte }
{
    byte.is_ascii_alphabetic() || byte == b'_' || byte.is_ascii_digit()
}

// How many letters and digits come first.
fn name_bytes(bytes: &[u8]) -> usize
    ensures { result ≡ length (take_while is_name_byte bytes.now) }
{
    bytes.iter().take_while(|byte| is_name_byte(**byte)).count()
}

// The bytes from an offset on.
fn behind(bytes: &[u8], at: u64) -> &[u8]
    ensures { result.now ≡ drop at bytes.now }
{
    if at < bytes.len() as u64 {
        &bytes[at as usize..]
    } else {
        &[]
    }
}

// Where the name of the item stands that a broken rule of the netlist is about.
fn name_offset(status: Status) -> Option<u64>
    ensures { result ≡ name_offset status }
{
    match status {
        Status::Net(fault) => name_place(fault),
        _ => None,
    }
}

// The name that begins at this place of a text; the empty text where there is no place.
fn name_from(net: &[u8], at: Option<u64>) -> &str
    ensures { result.now ≡ name_from net.now at }
{
    let Some(at) = at else {
        return "";
    };
    let rest = behind(net, at);
    match str::from_utf8(&rest[..name_bytes(rest)]) {
        Ok(name) => name,
        Err(_) => "",
    }
}

/// The name that the line of a status tells, with what is told beside it.
pub fn told_name<'a>(net: &'a [u8], told: &'a Told, status: Status) -> &'a str
    ensures { result.now ≡ told_name net.now told.now status }
{
    match told {
        Told::Nothing => name_from(net, name_offset(status)),
        Told::Bus(at) => name_from(net, Some(*at)),
        Told::Name(name) => name_from(name.as_slice(), Some(0)),
    }
}

// The number and the name of the rule.
fn net_rule_name(fault: NetFault) -> &'static str
    ensures { result.now ≡ net_rule_text fault }
{
    match fault {
        NetFault::Duplicate(_) => "N1 Duplicate",
        NetFault::Unknown(_) => "N2 Unknown",
        NetFault::Width(_) => "N3 Width",
        NetFault::Driver(_) => "N4 Driver",
        NetFault::Cycle(_) => "N5 Cycle",
        NetFault::Role(_) => "N6 Role",
        NetFault::Enable(_) => "N7 Enable",
        NetFault::ControlOp(_) => "N8 ControlOp",
        NetFault::WideSelect(_) => "N9 WideSelect",
        NetFault::AlwaysClash => "N10 AlwaysClash",
        NetFault::Limit { .. } => "N11 Limit",
        NetFault::PatternLarge(_) => "N12 PatternLarge",
        NetFault::TooMany(_) => "N13 TooMany",
        NetFault::FileAddr(_) => "N14 FileAddr",
    }
}

// `name` is the one at the rule's offset.
fn net_fault_line(alloc: Global, name: &str, fault: NetFault) -> Result<String, AllocError>
    ensures { IfOk result (λ line. string_bytes line ≡ net_line name.now fault) }
{
    match fault {
        NetFault::Role(role) => {
            let role = role_name(role);
            format!(in alloc; "error net N6 Role {role}\n")
        }
        NetFault::AlwaysClash => String::from_str(alloc, "error net N10 AlwaysClash\n"),
        NetFault::Limit { kind, count, bound } => {
            let kind = net_kind_name(kind);
            format!(in alloc; "error net N11 Limit {kind} {count} {bound}\n")
        }
        _ => {
            let rule = net_rule_name(fault);
            format!(in alloc; "error net {rule} {name}\n")
        }
    }
}

fn src_fault_line(alloc: Global, fault: SrcFault) -> Result<String, AllocError>
    ensures { IfOk result (λ line. string_bytes line ≡ src_line fault) }
{
    match fault {
        SrcFault::Duplicate(at) => format!(in alloc; "error source S1 Duplicate {at}\n"),
        SrcFault::Unknown(at) => format!(in alloc; "error source S2 Unknown {at}\n"),
        SrcFault::Width(at) => format!(in alloc; "error source S3 Width {at}\n"),
        SrcFault::Index(at) => format!(in alloc; "error source S4 Index {at}\n"),
        SrcFault::Counter(at) => format!(in alloc; "error source S5 Counter {at}\n"),
        SrcFault::Limit { kind, count, bound } => {
            let kind = src_kind_name(kind);
            format!(in alloc; "error source S6 Limit {kind} {count} {bound}\n")
        }
    }
}

// What is wrong with a mark.
fn mark_fault_line(alloc: Global, fault: MarkFault) -> Result<String, AllocError>
    ensures { IfOk result (λ line. string_bytes line ≡ mark_line fault) }
{
    match fault {
        MarkFault::Unmarked(tree) => format!(in alloc; "error mark {tree}\n"),
        MarkFault::End => String::from_str(alloc, "error mark end\n"),
        MarkFault::Stray { address, tree } => format!(in alloc; "error mark {address} {tree}\n"),
    }
}

// `name` is that of the variable whose place or view is wrong.
fn rule_fault_line(alloc: Global, name: &str, fault: RuleFault) -> Result<String, AllocError>
    ensures { IfOk result (λ line. string_bytes line ≡ rule_line name.now fault) }
{
    match fault {
        RuleFault::Place => format!(in alloc; "error place {name}\n"),
        RuleFault::Temps => String::from_str(alloc, "error place temps\n"),
        RuleFault::Mark(fault) => mark_fault_line(alloc, fault),
        RuleFault::View(address) => format!(in alloc; "error view {address} {name}\n"),
        RuleFault::EndWord => String::from_str(alloc, "error end word\n"),
    }
}

// The answer of a test.
fn answer_digit(answer: bool) -> &'static str
    ensures { result.now ≡ answer_text answer }
{
    if answer { "1" } else { "0" }
}

// Where words begin that don't follow.
fn origin_word(alloc: Global, origin: Origin) -> Result<String, AllocError>
    ensures { IfOk result (λ text. string_bytes text ≡ origin_text origin) }
{
    match origin {
        Origin::Start => String::from_str(alloc, "start"),
        Origin::Mark { address, answer } => {
            let answer = answer_digit(answer);
            format!(in alloc; "{address} {answer}")
        }
    }
}

// Why they don't. `name` is that of a variable or a storage, where the cause is about one.
fn cause_words(alloc: Global, name: &str, cause: Cause) -> Result<String, AllocError>
    ensures { IfOk result (λ text. string_bytes text ≡ cause_text name.now cause) }
{
    match cause {
        Cause::Clash(word) => format!(in alloc; "clash {word}"),
        Cause::Word(word) => format!(in alloc; "word {word}"),
        Cause::Clocks => String::from_str(alloc, "clocks"),
        Cause::Mark(word) => format!(in alloc; "mark {word}"),
        Cause::Variable => format!(in alloc; "var {name}"),
        Cause::Written => format!(in alloc; "written {name}"),
        Cause::Holding(None) => format!(in alloc; "hold {name}"),
        Cause::Holding(Some(cell)) => format!(in alloc; "hold {name}[{cell}]"),
        Cause::Number => format!(in alloc; "know {name}"),
        Cause::Much => String::from_str(alloc, "much"),
    }
}

fn follow_fault_line(
    alloc: Global,
    name: &str,
    origin: Origin,
    cause: Cause,
) -> Result<String, AllocError>
    ensures { IfOk result (λ line. string_bytes line ≡ follow_line name.now origin cause) }
{
    let origin = origin_word(alloc, origin)?;
    let cause = cause_words(alloc, name, cause)?;
    format!(in alloc; "error follow {origin} {cause}\n")
}

/// The line of the fault, with its LF. `Done` and `WriteFault` have none, which is the empty text.
///
/// `name` is the item's, the bus's or the variable's that the status is about, for those that are
/// about one.
pub fn fault_line(
    alloc: Global,
    words: &[String],
    name: &str,
    status: Status,
) -> Result<String, AllocError>
    ensures { IfOk result (λ line. string_bytes line ≡ status_line (texts_of words.now) name.now status) }
{
    match status {
        Status::Done | Status::WriteFault => Ok(String::new(alloc)),
        Status::Usage => String::from_str(alloc, "error usage\n"),
        Status::ReadFault { file } => {
            let file = file_name(words, file);
            format!(in alloc; "error read {file}\n")
        }
        Status::TooLong { file, limit } => {
            let file = file_name(words, file);
            format!(in alloc; "error too long {file} {limit}\n")
        }
        Status::NetText(at) => format!(in alloc; "error net text {at}\n"),
        Status::Net(fault) => net_fault_line(alloc, name, fault),
        Status::SrcText(at) => format!(in alloc; "error source text {at}\n"),
        Status::Src(fault) => src_fault_line(alloc, fault),
        Status::NoStep => String::from_str(alloc, "error no step\n"),
        Status::NoJump => String::from_str(alloc, "error no jump\n"),
        Status::NoCover(tree) => format!(in alloc; "error no cover {tree}\n"),
        Status::DataFull { need, have } => format!(in alloc; "error data full {need} {have}\n"),
        Status::NoReach { bound, reach } => {
            format!(in alloc; "error no reach {bound} {reach}\n")
        }
        Status::ImageFull { len, size, bound } => {
            format!(in alloc; "error image full {len} {size} {bound}\n")
        }
        Status::Memory => String::from_str(alloc, "error memory\n"),
        Status::ImageText(at) => format!(in alloc; "error image text {at}\n"),
        Status::MemText(at) => format!(in alloc; "error memory text {at}\n"),
        Status::Clash { cycle, .. } => format!(in alloc; "error clash {cycle} {name}\n"),
        Status::AsmText(at) => format!(in alloc; "error asm text {at}\n"),
        Status::AsmWord(line) => format!(in alloc; "error asm word {line}\n"),
        Status::TestLimit { count, bound } => {
            format!(in alloc; "error test limit {count} {bound}\n")
        }
        Status::PartText(at) => format!(in alloc; "error part text {at}\n"),
        Status::Rule(fault) => rule_fault_line(alloc, name, fault),
        Status::Follow { origin, cause } => follow_fault_line(alloc, name, origin, cause),
    }
}
