//! What was tried, and what differs.

use crate::stop::Stop;
use fx8::OutOfMemory;
use std::alloc::Global;

/// What was tried so far, and the act that is being tried: what the desk gives, and what it is to give.
#[derive(Debug, Drop)]
pub struct Trial {
    alloc: Global,
    scripts: u32,
    acts: u32,
    differ: u32,
    /// The number of the script that is run.
    script: u32,
    /// The line that is read, and that of the act.
    line: u32,
    act_line: u32,
    given: String,
    wanted: String,
    report: String,
}

impl Trial {
    /// Before anything was tried.
    pub fn new(alloc: Global) -> Trial {
        Trial {
            alloc,
            scripts: 0,
            acts: 0,
            differ: 0,
            script: 0,
            line: 0,
            act_line: 0,
            given: String::new(alloc),
            wanted: String::new(alloc),
            report: String::new(alloc),
        }
    }

    /// How many scripts and acts were tried, and how many differ.
    pub fn counts(&self) -> (u32, u32, u32) {
        (self.scripts, self.acts, self.differ)
    }

    /// What differs.
    pub fn report(&self) -> &str {
        self.report.as_str()
    }

    /// A line is read.
    pub fn count_line(&mut self) {
        self.line = self.line.saturating_add(1);
    }

    /// The script of a number begins.
    pub fn begin_script(&mut self, number: u32) {
        self.scripts = self.scripts.saturating_add(1);
        self.script = number;
        self.act_line = self.line;
    }

    /// The line of this number is read.
    pub fn set_line(&mut self, line: u32) {
        self.line = line;
    }

    /// An act begins: the one before is over.
    pub fn begin_act(&mut self) -> Result<(), OutOfMemory> {
        self.end_act()?;
        self.acts = self.acts.saturating_add(1);
        self.act_line = self.line;
        Ok(())
    }

    /// An act is over.
    pub fn end_act(&mut self) -> Result<(), OutOfMemory> {
        if self.given.as_str() != self.wanted.as_str() {
            self.tell_difference()?;
        }
        self.given.clear();
        self.wanted.clear();
        Ok(())
    }

    /// Tells what an act gives, and in place of what.
    fn tell_difference(&mut self) -> Result<(), OutOfMemory> {
        self.differ = self.differ.saturating_add(1);
        let head = self.head("gives")?;
        self.report.push_str(head.as_str())?;
        self.report.push_str(self.given.as_str())?;
        self.report.push_str("in place of\n")?;
        self.report.push_str(self.wanted.as_str())?;
        Ok(())
    }

    /// Where an act stands, and what is told of it.
    fn head(&self, what: &str) -> Result<String, OutOfMemory> {
        let (script, line) = (self.script, self.act_line);
        Ok(format!(in self.alloc; "script {script}: line {line} {what}\n")?)
    }

    /// Tells why a script stops.
    pub fn tell_stop(&mut self, stop: Stop) -> Result<(), OutOfMemory> {
        self.act_line = self.line;
        self.differ = self.differ.saturating_add(1);
        let head = self.head(match stop {
            Stop::BadLine => "is a bad line",
            Stop::OutOfMemory => return Err(OutOfMemory),
        })?;
        self.report.push_str(head.as_str())?;
        self.given.clear();
        self.wanted.clear();
        Ok(())
    }

    /// A line that the act is to give.
    pub fn want(&mut self, line: &str) -> Result<(), OutOfMemory> {
        self.wanted.push_str(line)?;
        self.wanted.push('\n')?;
        Ok(())
    }

    /// What the act gave so far is told no more.
    pub fn forget_given(&mut self) {
        self.given.clear();
    }

    /// A word that the act gives.
    pub fn give(&mut self, word: &str) -> Result<(), OutOfMemory> {
        self.given.push_str(word)?;
        Ok(())
    }

    /// A text that the act gives.
    pub fn give_units(&mut self, units: &[u16]) -> Result<(), OutOfMemory> {
        let word = String::from_utf16_lossy(self.alloc, units)?;
        self.give(word.as_str())
    }

    /// A number that the act gives.
    pub fn give_digits(&mut self, number: i128) -> Result<(), OutOfMemory> {
        let word = format!(in self.alloc; "{number}")?;
        self.give(word.as_str())
    }

    /// Numbers that the act gives behind a word, without a line end.
    pub fn give_numbers(&mut self, word: &str, numbers: &[i128]) -> Result<(), OutOfMemory> {
        self.give(word)?;
        for number in numbers {
            self.give(" ")?;
            self.give_digits(*number)?;
        }
        Ok(())
    }

    /// A line that the act gives.
    pub fn give_line(&mut self, word: &str, numbers: &[i128]) -> Result<(), OutOfMemory> {
        self.give_numbers(word, numbers)?;
        self.give("\n")
    }

    pub fn alloc(&self) -> Global {
        self.alloc
    }
}
