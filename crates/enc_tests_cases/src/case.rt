//! A case: its files, and what its runs printed.

use crate::call::{Answer, Call, Kind};
use crate::every::stretches_of;
use crate::faults::faults_of;
use crate::line::Line;
use crate::store::CaseStore;
use std::alloc::{AllocError, Global};

/// The case that is being read.
#[derive(Drop)]
pub struct Case {
    alloc: Global,
    name: String,
    runs: u32,
    store: CaseStore,
    words: Vec<String>,
    watchers: Vec<Kind>,
    is_bad: bool,
}

/// The bytes with some of them replaced from an offset on, as far as they are there.
fn poked(alloc: Global, bytes: &[u8], at: usize, new: &[u8]) -> Result<Vec<u8>, AllocError> {
    let mut all = Vec::new(alloc);
    for (i, b) in bytes.iter().enumerate() {
        let there = if i >= at { new.get(i - at) } else { None };
        all.push(*there.unwrap_or(b))?;
    }
    Ok(all)
}

/// How it is told whether all was as it has to be.
fn verdict(is_kept: bool) -> &'static str {
    if is_kept { "ok" } else { "wrong" }
}

impl Case {
    /// No case yet.
    pub fn begin(alloc: Global) -> Case {
        Case {
            alloc,
            name: String::new(alloc),
            runs: 0,
            store: CaseStore::begin(alloc),
            words: Vec::new(alloc),
            watchers: Vec::new(alloc),
            is_bad: false,
        }
    }

    /// The bytes of a file, none where it isn't there.
    fn bytes_of(&self, name: &str) -> &[u8] {
        self.store.file(name).unwrap_or(&[])
    }

    /// The call of a line's words, behind those that were kept for it, with the watchers that were. It counts as a run.
    fn call_of(&mut self, text: &str) -> Result<Call, AllocError> {
        let mut call = Call {
            alloc: self.alloc,
            words: Vec::new(self.alloc),
            watchers: Vec::new(self.alloc),
        };
        std::mem::swap(&mut call.words, &mut self.words);
        std::mem::swap(&mut call.watchers, &mut self.watchers);
        self.runs = self.runs.wrapping_add(1);
        if text.is_empty() {
            return Ok(call);
        }
        for word in text.split(' ') {
            call.words.push(String::from_str(self.alloc, word)?)?;
        }
        Ok(call)
    }

    /// The line of a run's status, and what it printed.
    fn printed(&self, answer: &Answer) -> Result<Vec<u8>, AllocError> {
        let mut printed = Vec::new(self.alloc);
        let head = format!(in self.alloc;
            "{} {} status {}\n",
            self.name.as_str(),
            self.runs,
            answer.status
        )?;
        printed.extend_from_slice(head.as_bytes())?;
        answer.add_to(&mut printed)?;
        Ok(printed)
    }

    /// Runs the top call over the case's files; the line of its status, and what it printed.
    fn run(&mut self, text: &str) -> Result<Vec<u8>, AllocError> {
        let call = self.call_of(text)?;
        let answer = call.answer(&mut self.store)?;
        self.printed(&answer)
    }

    /// Runs the top call with a file cut at every length; each stretch of equal answers.
    fn run_every(&mut self, name: &str, text: &str) -> Result<Vec<u8>, AllocError> {
        let call = self.call_of(text)?;
        let mut printed = Vec::new(self.alloc);
        for stretch in &stretches_of(&call, &self.store, name)? {
            let head = format!(in self.alloc;
                "{} {} {}..{} status {}\n",
                self.name.as_str(),
                self.runs,
                stretch.from,
                stretch.to,
                stretch.answer.status
            )?;
            printed.extend_from_slice(head.as_bytes())?;
            stretch.answer.add_to(&mut printed)?;
        }
        Ok(printed)
    }

    /// Runs the top call with each call of the store and of the sink failing; one line.
    fn run_faults(&mut self, text: &str) -> Result<Vec<u8>, AllocError> {
        let call = self.call_of(text)?;
        let faults = faults_of(&call, &self.store)?;
        let mut line = format!(in self.alloc; "{} {} store", self.name.as_str(), self.runs)?;
        for status in &faults.statuses {
            line.push_str(format!(in self.alloc; " {status}")?.as_str())?;
        }
        let end = format!(in self.alloc;
            " files {} sink {}\n",
            verdict(faults.keeps_files),
            verdict(faults.prints_parts)
        )?;
        line.push_str(end.as_str())?;
        Ok(line.into_bytes())
    }

    /// Begins the next case.
    fn next(&mut self, name: &str) -> Result<(), AllocError> {
        self.name = String::from_str(self.alloc, name)?;
        self.runs = 0;
        self.store = CaseStore::begin(self.alloc);
        self.words = Vec::new(self.alloc);
        self.watchers = Vec::new(self.alloc);
        self.is_bad = false;
        Ok(())
    }

    /// Changes a file, or keeps a word for the next run. False where the digits aren't hexadecimal.
    fn change(&mut self, line: Line<'_>) -> Result<bool, AllocError> {
        match line {
            Line::File { name, digits } => {
                let Ok(bytes) = hex::decode(self.alloc, digits) else {
                    return Ok(false);
                };
                self.store.set_file(name, &bytes)?;
            }
            Line::Same { name, other } => {
                let bytes = poked(self.alloc, self.bytes_of(other), 0, &[])?;
                self.store.set_file(name, &bytes)?;
            }
            Line::Cut { name, len } => {
                let old = self.bytes_of(name);
                let bytes = poked(self.alloc, old.get(..len).unwrap_or(old), 0, &[])?;
                self.store.set_file(name, &bytes)?;
            }
            Line::Poke { name, at, digits } => {
                let Ok(new) = hex::decode(self.alloc, digits) else {
                    return Ok(false);
                };
                let bytes = poked(self.alloc, self.bytes_of(name), at, &new)?;
                self.store.set_file(name, &bytes)?;
            }
            Line::Word(digits) => return self.keep_word(digits),
            Line::Watchers(kinds) => return self.keep_watchers(kinds),
            _ => return Ok(false),
        }
        Ok(true)
    }

    /// Keeps the watchers for the next run. False where a kind is none.
    fn keep_watchers(&mut self, kinds: &str) -> Result<bool, AllocError> {
        let mut watchers = Vec::new(self.alloc);
        for kind in kinds.split(' ') {
            match Kind::of(kind) {
                Some(kind) => watchers.push(kind)?,
                None => return Ok(false),
            }
        }
        self.watchers = watchers;
        Ok(true)
    }

    /// Keeps a word for the next run. False where the digits aren't those of a text.
    fn keep_word(&mut self, digits: &str) -> Result<bool, AllocError> {
        let Ok(bytes) = hex::decode(self.alloc, digits) else {
            return Ok(false);
        };
        let Ok(word) = String::from_utf8(bytes) else {
            return Ok(false);
        };
        self.words.push(word)?;
        Ok(true)
    }

    /// Does what a line asks for, and gives what is to be printed.
    pub fn take_line(&mut self, text: &str, number: u64) -> Result<Vec<u8>, AllocError> {
        let line = Line::of(text);
        if let Line::Case(name) = line {
            self.next(name)?;
            return Ok(Vec::new(self.alloc));
        }
        if self.is_bad {
            return Ok(Vec::new(self.alloc));
        }
        match line {
            Line::Run(words) => self.run(words),
            Line::Every { name, words } => self.run_every(name, words),
            Line::Faults(words) => self.run_faults(words),
            _ => {
                let mut printed = Vec::new(self.alloc);
                if !self.change(line)? {
                    self.is_bad = true;
                    let text = format!(in self.alloc; "bad line {number}\n")?;
                    printed.extend_from_slice(text.as_bytes())?;
                }
                Ok(printed)
            }
        }
    }
}
