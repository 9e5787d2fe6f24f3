//! A row: its words, its input, and how the streams behave.

use crate::fault::RowsFault;
use crate::gate::GatePlan;
use crate::line::{Line, RowField, cut_piece, cut_text};
use crate::plans::plan_of;
use sleep_base::Mem;
use std::alloc::Global;

/// How the streams behave. A call whose number is 0 is none.
#[derive(Clone, Copy)]
pub struct Streams {
    /// The most bytes that a read or a write takes.
    pub chunk: usize,
    /// The most bytes that standard output takes in all.
    pub room: usize,
    /// The read that fails.
    pub read_fails: usize,
    /// The write of standard output that fails.
    pub write_fails: usize,
    /// The write of standard error that fails.
    pub error_fails: usize,
}

/// Streams that take 4,096 bytes a call, and of which no call fails.
const GOOD: Streams = Streams {
    chunk: 4_096,
    room: 1 << 23,
    read_fails: 0,
    write_fails: 0,
    error_fails: 0,
};

/// A row that is read.
#[derive(Drop)]
pub struct Row {
    pub words: Vec<String>,
    pub input: Vec<u8>,
    pub streams: Streams,
    /// The gate that its workers pass, if it names one.
    pub plan: Option<GatePlan>,
    /// How often the input has the next piece.
    repeat: usize,
}

/// The words as texts.
fn texts(alloc: Global, words: &[&str]) -> Result<Vec<String>, Mem> {
    let mut texts = Vec::new(alloc);
    for word in words {
        texts.push(String::from_str(alloc, word)?)?;
    }
    Ok(texts)
}

impl Row {
    /// A row of these words over that input, over good streams.
    fn over(words: Vec<String>, input: Vec<u8>) -> Self {
        Row {
            words,
            input,
            streams: GOOD,
            plan: None,
            repeat: 1,
        }
    }

    /// A row without words and input.
    pub fn new(alloc: Global) -> Self {
        Self::over(Vec::new(alloc), Vec::new(alloc))
    }

    /// A row of these words over that input.
    pub fn of(alloc: Global, words: &[&str], input: Vec<u8>) -> Result<Self, Mem> {
        let words = texts(alloc, words)?;
        Ok(Self::over(words, input))
    }

    /// Takes the word of the next line off `left`. What is left then.
    fn take_word<'a>(&mut self, alloc: Global, left: &'a [u8]) -> Result<&'a [u8], RowsFault> {
        let (text, after) = cut_text(left).ok_or(RowsFault::Form)?;
        let word = String::from_str(alloc, text)?;
        self.words.push(word)?;
        Ok(after)
    }

    /// Takes the words of that many lines off `left`. What is left then.
    fn take_words<'a>(
        &mut self,
        alloc: Global,
        count: usize,
        left: &'a [u8],
    ) -> Result<&'a [u8], RowsFault> {
        let mut left = left;
        for _ in 0..count {
            left = self.take_word(alloc, left)?;
        }
        Ok(left)
    }

    /// Adds a piece to the input, as often as `repeat` says.
    fn add_piece(&mut self, piece: &[u8]) -> Result<(), RowsFault> {
        for _ in 0..self.repeat {
            self.input.extend_from_slice(piece)?;
        }
        self.repeat = 1;
        Ok(())
    }

    /// Takes a piece of that many bytes off `left`. What is left then.
    fn take_piece<'a>(&mut self, count: usize, left: &'a [u8]) -> Result<&'a [u8], RowsFault> {
        let (piece, after) = cut_piece(left, count).ok_or(RowsFault::Form)?;
        self.add_piece(piece)?;
        Ok(after)
    }

    /// Takes a line, and off `left` what belongs to it. What is left then.
    pub fn take<'a>(
        &mut self,
        alloc: Global,
        line: Line,
        left: &'a [u8],
    ) -> Result<&'a [u8], RowsFault> {
        match line.verb {
            RowField::Words => return self.take_words(alloc, line.number, left),
            RowField::Input => return self.take_piece(line.number, left),
            RowField::Repeat => self.repeat = line.number,
            RowField::Chunk => self.streams.chunk = line.number,
            RowField::WriteRoom => self.streams.room = line.number,
            RowField::ReadFails => self.streams.read_fails = line.number,
            RowField::WriteFails => self.streams.write_fails = line.number,
            RowField::ErrorFails => self.streams.error_fails = line.number,
            RowField::Gate => {
                let plan = plan_of(line.number).ok_or(RowsFault::Form)?;
                self.plan = Some(plan);
            }
            RowField::End(_) => {}
        }
        Ok(left)
    }
}
