//! One call, what it is made over, and what it answers.

use crate::fault::Fault;
use crate::row::number;
use fault_places::told_of;
use rec_io::{MemShelf, MemSink};
use record_core::record_call;
use row_texts::put;
use std::alloc::{AllocError, Global};

// What a sink has room for where the row doesn't say.
const ROOM: usize = 65_536;

/// A call over memory.
#[derive(Drop)]
pub struct Call {
    name: String,
    words: Vec<String>,
    files: Vec<(String, Vec<u8>)>,
    fetch_fails: Vec<u64>,
    put_fails: Vec<u64>,
    step: usize,
    room: usize,
    ends: Option<usize>,
    tells: bool,
}

impl Call {
    /// A call of this name without words and files.
    pub fn new(alloc: Global, name: &str) -> Result<Call, Fault> {
        Ok(Call {
            name: String::from_str(alloc, name)?,
            words: Vec::new(alloc),
            files: Vec::new(alloc),
            fetch_fails: Vec::new(alloc),
            put_fails: Vec::new(alloc),
            step: ROOM,
            room: ROOM,
            ends: None,
            tells: false,
        })
    }

    // More bytes of the last file.
    fn add(&mut self, bytes: &[u8]) -> Result<(), Fault> {
        let Some(file) = self.files.last_mut() else {
            return Err(Fault::Line);
        };
        file.1.extend_from_slice(bytes)?;
        Ok(())
    }

    // More of the last file: the text behind the number so many times, or a space.
    fn fill(&mut self, what: &str) -> Result<(), Fault> {
        let (count, text) = what.split_once(" ").unwrap_or((what, " "));
        for _ in 0..number(count)? {
            self.add(text.as_bytes())?;
        }
        Ok(())
    }

    // One more word.
    fn add_word(&mut self, alloc: Global, word: &str) -> Result<(), Fault> {
        let word = String::from_str(alloc, word)?;
        self.words.push(word)?;
        Ok(())
    }

    // One more file, which is empty.
    fn add_file(&mut self, alloc: Global, name: &str) -> Result<(), Fault> {
        let name = String::from_str(alloc, name)?;
        self.files.push((name, Vec::new(alloc)))?;
        Ok(())
    }

    // One more line of the last file.
    fn add_line(&mut self, line: &str) -> Result<(), Fault> {
        self.add(line.as_bytes())?;
        self.add(b"\n")
    }

    // One more byte of the last file.
    fn byte(&mut self, value: u64) -> Result<(), Fault> {
        match u8::try_from(value) {
            Ok(byte) => self.add(&[byte]),
            Err(_) => Err(Fault::Number),
        }
    }

    /// Takes one line of the row: its first word, and what stands behind it.
    pub fn take(&mut self, alloc: Global, key: &str, rest: &str) -> Result<(), Fault> {
        match key {
            "word" => self.add_word(alloc, rest)?,
            "file" => self.add_file(alloc, rest)?,
            "|" => self.add_line(rest)?,
            "+" => self.add(rest.as_bytes())?,
            "fill" => self.fill(rest)?,
            "byte" => self.byte(number(rest)?)?,
            "step" => self.step = number(rest)? as usize,
            "room" => self.room = number(rest)? as usize,
            "ends" => self.ends = Some(number(rest)? as usize),
            "fail" => self.fail(rest)?,
            "told" => self.tells = true,
            _ => return Err(Fault::Line),
        }
        Ok(())
    }

    fn fail(&mut self, what: &str) -> Result<(), Fault> {
        match what.split_once(" ") {
            Some(("fetch", count)) => self.fetch_fails.push(number(count)?)?,
            Some(("put", count)) => self.put_fails.push(number(count)?)?,
            _ => return Err(Fault::Line),
        }
        Ok(())
    }

    /// Makes the call. The text has the row's name, what the sink took, what is told of it where
    /// the row asks for that, and the status.
    pub fn found(self, alloc: Global) -> Result<String, Fault> {
        let Call {
            name,
            words,
            files,
            fetch_fails,
            put_fails,
            step,
            room,
            ends,
            tells,
        } = self;
        let mut sink = MemSink::new(alloc, step.max(1), room, put_fails)?;
        let mut shelf = MemShelf::new(files, fetch_fails);
        let status = record_call(alloc, &words, &mut shelf, &mut sink);
        let note = if tells {
            told_of(alloc, &mut shelf, &words, status)
        } else {
            None
        };
        drop(words);
        drop(shelf);
        let mut text = answer(alloc, &name, sink.bytes(), ends)?;
        if let Some(bytes) = note {
            put_text(&mut text, String::from_utf8_lossy(alloc, &bytes)?.as_str())?;
        }
        put_status(&mut text, status.code())?;
        Ok(text)
    }
}

// The lines for all that a sink took, or for so many lines of both ends.
fn answer(
    alloc: Global,
    name: &str,
    bytes: &[u8],
    ends: Option<usize>,
) -> Result<String, AllocError> {
    let taken = String::from_utf8_lossy(alloc, bytes)?;
    headed(alloc, name, taken.as_str(), ends)
}

// The row's name, and the lines of a text below it.
fn headed(
    alloc: Global,
    name: &str,
    text: &str,
    ends: Option<usize>,
) -> Result<String, AllocError> {
    let mut told = String::from_str(alloc, "row ")?;
    put_name(&mut told, name)?;
    match ends {
        None => put_text(&mut told, text)?,
        Some(count) => put_ends(&mut told, text, count)?,
    }
    Ok(told)
}

fn put_name(told: &mut String, name: &str) -> Result<(), AllocError> {
    told.push_str(name)?;
    told.push_str("\n")
}

fn put_status(told: &mut String, code: u8) -> Result<(), AllocError> {
    put(told, "status ", u64::from(code))?;
    told.push_str("\n\n")
}

// Adds a text, with a mark where it doesn't end with a line's end.
fn put_text(told: &mut String, text: &str) -> Result<(), AllocError> {
    told.push_str(text)?;
    if !text.is_empty() && !text.ends_with("\n") {
        told.push_str("$\n")?;
    }
    Ok(())
}

// Adds the first lines of a text and its last, so many of both, and how many stand between them.
fn put_ends(told: &mut String, text: &str, count: usize) -> Result<(), AllocError> {
    let lines = text.lines().count();
    let behind = lines.saturating_sub(count);
    for (k, line) in text.lines().enumerate() {
        if k < count || k >= behind {
            told.push_str(line)?;
            told.push_str("\n")?;
        } else if k == count {
            put(told, "(", (behind - count) as u64)?;
            told.push_str(" lines)\n")?;
        }
    }
    Ok(())
}
