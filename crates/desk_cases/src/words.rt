//! The words of a line.
ghost use Rattle.std.specs.Prelude.{◌≤◌, ◌≤ℤ◌, IfOk};

use crate::stop::Stop;
use fx8::{Fix8, OutOfMemory, Text};
use std::alloc::Global;

/// The words of a line that were not taken yet, parted by blanks.
#[derive(Clone, Copy, Debug)]
pub struct Words<'a> {
    rest: &'a str,
}

impl<'a> Words<'a> {
    pub fn of(line: &'a str) -> Words<'a> {
        Words { rest: line }
    }

    /// Takes the next word, empty where none is left.
    pub fn word(&mut self) -> &'a str {
        match self.rest.split_once(" ") {
            Some((word, rest)) => {
                self.rest = rest;
                word
            }
            None => {
                let word = self.rest;
                self.rest = "";
                word
            }
        }
    }

    /// What is left.
    pub fn rest(&self) -> &'a str {
        self.rest
    }

    /// Takes the next word as a whole number that lies between two, both included.
    pub fn number(&mut self, low: i64, high: i64) -> Result<i64, Stop>
        ensures { IfOk result (λ n. (low ≤ℤ n) × (n ≤ℤ high)) }
    {
        let Ok(number) = self.word().parse::<i64>() else {
            return Err(Stop::BadLine);
        };
        if number < low || high < number {
            return Err(Stop::BadLine);
        }
        Ok(number)
    }

    /// Takes the next word as a small number that lies between two, both included.
    pub fn small(&mut self, low: u32, high: u32) -> Result<u32, Stop>
        ensures { IfOk result (λ n. (low ≤ n) × (n ≤ high)) }
    {
        let Ok(number) = self.word().parse::<u32>() else {
            return Err(Stop::BadLine);
        };
        if number < low || high < number {
            return Err(Stop::BadLine);
        }
        Ok(number)
    }

    /// Takes the next word as any small number.
    pub fn code(&mut self) -> Result<u32, Stop> {
        self.small(0, u32::MAX)
    }

    /// Takes the next word as a ticket or a number of an expert.
    pub fn ticket(&mut self) -> Result<u64, Stop> {
        self.word().parse::<u64>().map_err(|_error| Stop::BadLine)
    }

    /// Takes the next word as any price or volume, in units of 10^-8.
    pub fn units(&mut self) -> Result<Fix8, Stop> {
        let units = self.number(i64::MIN, i64::MAX)?;
        Ok(Fix8::of_units(units))
    }

    /// Takes the next word as a text.
    pub fn text(&mut self, alloc: Global) -> Result<Text, OutOfMemory> {
        let mut text = Text::new(alloc);
        for byte in self.word().as_bytes() {
            text.push(u16::from(*byte))?;
        }
        Ok(text)
    }
}
