//! A worked case, and how a file of cases is read.
use fx8::{Numbers, OutOfMemory, Text8};
use std::alloc::Global;

/// A file of a case.
#[derive(Debug, Drop)]
pub struct Held {
    pub name: Text8,
    pub bytes: Text8,
}

/// What the lines with bytes of a case belong to.
#[derive(Clone, Copy, Debug)]
enum Open {
    Nothing,
    File,
    Wanted,
}

/// A case: what is to be done over which files, and what it is to give.
#[derive(Debug, Drop)]
pub struct Case {
    /// What the case is called, empty before the first.
    pub title: String,
    /// What is done: the words of a command line, or the name of a stage.
    pub words: Vec<String>,
    pub files: Vec<Held>,
    /// The numbers of the calls of the files, and of the sink, that fail.
    pub fails: Numbers,
    pub refused: Numbers,
    /// Whether files and sink are those that never fail.
    pub calm: bool,
    pub wanted: Text8,
    open: Open,
}

/// The value of a hexadecimal digit.
fn digit(byte: u8) -> Option<u8> {
    match byte {
        b'0'..=b'9' => Some(byte - b'0'),
        b'a'..=b'f' => Some(byte - b'a' + 10),
        _ => None,
    }
}

/// The byte that two hexadecimal digits are.
fn byte_of(word: &str) -> Option<u8> {
    let [high, low] = word.as_bytes() else {
        return None;
    };
    let (high, low) = (digit(*high)?, digit(*low)?);
    Some(high.wrapping_mul(16).wrapping_add(low))
}

impl Case {
    /// A case without a word, a file and a want.
    pub fn new(alloc: Global, title: &str) -> Result<Case, OutOfMemory> {
        Ok(Case {
            title: String::from_str(alloc, title)?,
            words: Vec::new(alloc),
            files: Vec::new(alloc),
            fails: Numbers::new(alloc),
            refused: Numbers::new(alloc),
            calm: false,
            wanted: Text8::new(alloc),
            open: Open::Nothing,
        })
    }

    /// Adds bytes to the file or the want that is open.
    fn add(&mut self, bytes: &[u8]) -> Result<(), OutOfMemory> {
        match self.open {
            Open::Nothing => {}
            Open::Wanted => self.wanted.extend_from_slice(bytes)?,
            Open::File => {
                if let Some(held) = self.files.last_mut() {
                    held.bytes.extend_from_slice(bytes)?;
                }
            }
        }
        Ok(())
    }

    /// Adds the bytes that these words are.
    fn add_bytes(&mut self, words: &str) -> Result<(), OutOfMemory> {
        for word in words.split(' ') {
            if let Some(byte) = byte_of(word) {
                self.add(&[byte])?;
            }
        }
        Ok(())
    }

    /// Adds a text so many times; the number and the text are parted by a blank.
    fn add_times(&mut self, words: &str) -> Result<(), OutOfMemory> {
        let Some((number, text)) = words.split_once(" ") else {
            return Ok(());
        };
        if let Ok(count) = number.parse::<u32>() {
            for _ in 0..count {
                self.add(text.as_bytes())?;
            }
        }
        Ok(())
    }

    /// Opens a file.
    fn open_file(&mut self, alloc: Global, name: &str) -> Result<(), OutOfMemory> {
        let name = Text8::from_slice(alloc, name.as_bytes())?;
        self.files.push(Held {
            name,
            bytes: Text8::new(alloc),
        })?;
        self.open = Open::File;
        Ok(())
    }

    /// Takes the words of a command line, parted by blanks.
    fn set_words(&mut self, alloc: Global, line: &str) -> Result<(), OutOfMemory> {
        for word in line.split(' ') {
            if !word.is_empty() {
                self.words.push(String::from_str(alloc, word)?)?;
            }
        }
        Ok(())
    }

    /// Takes a line of a file of cases that begins no case. Lines that begin with `|` or `+` are text, with and
    /// without a line end behind it; other lines begin with a word. A line of no such form says nothing.
    pub fn take(&mut self, alloc: Global, line: &str) -> Result<(), OutOfMemory> {
        if let Some(text) = line.strip_prefix("|") {
            self.add(text.as_bytes())?;
            return self.add(b"\n");
        }
        if let Some(text) = line.strip_prefix("+") {
            return self.add(text.as_bytes());
        }
        if let Some(words) = line.strip_prefix("bytes ") {
            return self.add_bytes(words);
        }
        if let Some(words) = line.strip_prefix("times ") {
            return self.add_times(words);
        }
        if let Some(name) = line.strip_prefix("file ") {
            return self.open_file(alloc, name);
        }
        if let Some(words) = line.strip_prefix("do ") {
            return self.set_words(alloc, words);
        }
        match line {
            "want" => self.open = Open::Wanted,
            "calm" => self.calm = true,
            _ => {}
        }
        self.take_failure(line)
    }

    /// Takes the number of a call that fails.
    fn take_failure(&mut self, line: &str) -> Result<(), OutOfMemory> {
        if let Some(word) = line.strip_prefix("fail ") {
            if let Ok(call) = word.parse::<u32>() {
                self.fails.push(call)?;
            }
        }
        if let Some(word) = line.strip_prefix("refuse ") {
            if let Ok(call) = word.parse::<u32>() {
                self.refused.push(call)?;
            }
        }
        Ok(())
    }
}
