//! The words of the command line.
ghost use Rattle.std.specs.Prelude.{◌≡◌, ◌<◌, ◌≤◌, IfSome, length};
ghost use Rattle.record_core.specs.Words.{CommandFits, texts_of, clocks_of, command_of, file_count, job_limit, job_number, pair_command};

use text_lines::number;

/// The most clocks of a run.
const CLOCK_LIMIT: u64 = 1_000_000;

/// The greatest number of a made-up program.
const JOB_LIMIT: u64 = 1_000;

/// What the words ask for.
#[derive(Clone, Copy, PartialEq, Eq)]
pub enum Command {
    /// `compile NET SRC`: the image text of a program for a netlist.
    Compile,
    /// `extract NET`: the text of a netlist's patterns.
    Extract,
    /// `run NET IMG MEM CYCLES`: the state of a netlist after so many clocks on an image, from a
    /// memory text's state.
    Run(u32),
    /// `go NET SRC MEM CYCLES`: the checkpoints that a netlist shows of a program over so many
    /// clocks, from a memory text's state.
    Go(u32),
    /// `make N`: the summary of the made-up netlist and program of this number, compiled and run.
    Make(u32),
    /// `asm NET TEXT`: the image text of an assembler text for a netlist.
    Asm,
    /// `dis NET IMG`: the assembler text of an image for a netlist.
    Dis,
    /// `test NET`: the self-test of a netlist, and what it shows of stuck bits.
    Test,
    /// `explain NET SRC`: what each job of a program is covered by, or why it isn't.
    Explain,
    /// `tune NET SRC`: the image text of a program for a netlist, by equal trees that cost less.
    Tune,
    /// `dual NET SRC PART`: the image text of a program for a netlist with a bank, in which the
    /// variables of a part stand.
    Dual,
    /// `check NET SRC IMG`: the clocks from mark to mark of an image that is right code for a program,
    /// by its views.
    Check,
}

impl Command {
    ghost use Rattle.std.specs.Prelude.{◌≡◌, ◌≤◌};
    ghost use Rattle.record_core.specs.Words.{file_count};

    /// How many files it has; their names are the words after the first.
    pub fn file_count(self) -> usize
        ensures count { result ≡ file_count self }
        ensures few { result ≤ 8 }
    {
        match self {
            Command::Compile | Command::Asm | Command::Dis => 2,
            Command::Explain | Command::Tune => 2,
            Command::Extract | Command::Test => 1,
            Command::Run(_) | Command::Go(_) | Command::Dual | Command::Check => 3,
            Command::Make(_) => 0,
        }
    }
}

// The number of clocks that a word asks for.
fn clocks(word: &str) -> Option<u32>
    ensures { result ≡ clocks_of word.now }
{
    match number(word.as_bytes()) {
        Some(clocks) if clocks <= CLOCK_LIMIT => Some(clocks as u32),
        _ => None,
    }
}

// The number of the made-up program that a word asks for.
fn job(word: &str) -> Option<u32>
    ensures job { result ≡ job_number word.now }
    ensures fits { IfSome result (λ number. (1 ≤ number) × (number ≤ job_limit)) }
{
    match number(word.as_bytes()) {
        Some(job) if 1 <= job && job <= JOB_LIMIT => Some(job as u32),
        _ => None,
    }
}

// The command of one word and another, if they have the form of one.
fn short_command(words: &[String]) -> Option<Command>
    requires { length words.now ≡ 2 }
    ensures command { result ≡ command_of (texts_of words.now) }
    ensures named { IfSome result (λ command. file_count command < 2) }
    ensures fits { IfSome result CommandFits }
{
    if words[0].as_str() == "extract" {
        return Some(Command::Extract);
    }
    if words[0].as_str() == "test" {
        return Some(Command::Test);
    }
    if words[0].as_str() == "make" {
        if let Some(number) = job(words[1].as_str()) {
            return Some(Command::Make(number));
        }
    }
    None
}

// The command of two files that this word names, if it names one.
fn pair_command(word: &str) -> Option<Command>
    ensures command { result ≡ pair_command word.now }
    ensures named { IfSome result (λ command. file_count command < 3) }
    ensures fits { IfSome result CommandFits }
{
    match word {
        "compile" => Some(Command::Compile),
        "asm" => Some(Command::Asm),
        "dis" => Some(Command::Dis),
        "explain" => Some(Command::Explain),
        "tune" => Some(Command::Tune),
        _ => None,
    }
}

// The command of four words, if they have the form of one.
fn triple_command(words: &[String]) -> Option<Command>
    requires { length words.now ≡ 4 }
    ensures command { result ≡ command_of (texts_of words.now) }
    ensures named { IfSome result (λ command. file_count command < 4) }
    ensures fits { IfSome result CommandFits }
{
    if words[0].as_str() == "dual" {
        return Some(Command::Dual);
    }
    if words[0].as_str() == "check" {
        return Some(Command::Check);
    }
    None
}

// The command of five words, if they have the form of one.
fn long_command(words: &[String]) -> Option<Command>
    requires { length words.now ≡ 5 }
    ensures command { result ≡ command_of (texts_of words.now) }
    ensures named { IfSome result (λ command. file_count command < 5) }
    ensures fits { IfSome result CommandFits }
{
    if words[0].as_str() == "run" {
        if let Some(clocks) = clocks(words[4].as_str()) {
            return Some(Command::Run(clocks));
        }
    }
    if words[0].as_str() == "go" {
        if let Some(clocks) = clocks(words[4].as_str()) {
            return Some(Command::Go(clocks));
        }
    }
    None
}

/// The command of the words, or None where they have no form of one.
pub fn command_of(words: &[String]) -> Option<Command>
    ensures command { result ≡ command_of (texts_of words.now) }
    ensures named { IfSome result (λ command. file_count command < length words.now) }
    ensures fits { IfSome result CommandFits }
{
    if words.len() == 2 {
        return short_command(words);
    }
    if words.len() == 3 {
        return pair_command(words[0].as_str());
    }
    if words.len() == 4 {
        return triple_command(words);
    }
    if words.len() == 5 {
        return long_command(words);
    }
    None
}
