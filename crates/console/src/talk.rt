// The console's input, read in blocks, and its output, written before it waits for more input.

use anyhow::Result;
use commands::{Command, LONGEST, Unread, read_line};
use std::alloc::Global;
use std::fmt;
use std::io::{BufRead, BufReader, Read, Write};

// So much text is written at once, and not held back.
const MUCH: usize = 65_536;

/// Where commands come from and answers go.
#[derive(Drop)]
pub struct Talk<R: Read + Drop, W: Write + Drop> {
    alloc: Global,
    reader: BufReader<R>,
    writer: W,
    // The answers that are still to be written.
    answers: String,
}

impl<R: Read + Drop, W: Write + Drop> Talk<R, W> {
    pub fn new(alloc: Global, reader: R, writer: W) -> Result<Talk<R, W>> {
        Ok(Talk {
            alloc,
            reader: BufReader::new(alloc, reader)?,
            writer,
            answers: String::new(alloc),
        })
    }

    /// Whether there is nothing more to read.
    pub fn is_over(&mut self) -> Result<bool> {
        Ok(self.reader.fill_buf()?.is_empty())
    }

    /// Writes the answers so far.
    pub fn flush(&mut self) -> Result<()> {
        self.writer.write_all(self.answers.as_bytes())?;
        self.writer.flush()?;
        self.answers.clear();
        Ok(())
    }

    /// Takes a text for an answer, without the end of its line.
    pub fn write<D: fmt::Display + Drop>(&mut self, text: D) -> Result<()> {
        write!(self.answers, "{text}")?;
        Ok(())
    }

    /// The text of the answers, for what is written piece by piece.
    pub fn answers(&mut self) -> &mut String {
        &mut self.answers
    }

    /// Ends the line of an answer.
    pub fn end_line(&mut self) -> Result<()> {
        self.answers.push_str("\n")?;
        if self.answers.len() > MUCH {
            self.flush()?;
        }
        Ok(())
    }

    /// Takes an answer of one line.
    pub fn answer<D: fmt::Display + Drop>(&mut self, text: D) -> Result<()> {
        self.write(text)?;
        self.end_line()
    }

    // Adds what the next block has of a line, and says whether the line ends there; none at the end of the input. Of a line that is too
    // long it keeps a byte more than may be.
    fn add_block(&mut self, line: &mut Vec<u8>) -> Result<Option<bool>> {
        if self.reader.buffer().is_empty() {
            self.flush()?;
        }
        let block = self.reader.fill_buf()?;
        if block.is_empty() {
            return Ok(None);
        }
        let end = block.iter().position(|byte| *byte == b'\n');
        let piece = &block[..end.unwrap_or(block.len())];
        let room = (LONGEST + 1).saturating_sub(line.len());
        line.extend_from_slice(&piece[..piece.len().min(room)])?;
        let used = piece.len() + usize::from(end.is_some());
        self.reader.consume(used);
        Ok(Some(end.is_some()))
    }

    // Reads the next line, and says whether a newline ends it; none at the end of the input.
    fn next_line(&mut self, line: &mut Vec<u8>) -> Result<Option<bool>> {
        line.clear();
        for _ in 0..u64::MAX {
            match self.add_block(line)? {
                Some(true) => return Ok(Some(true)),
                Some(false) => {}
                None => break,
            }
        }
        Ok(if line.is_empty() { None } else { Some(false) })
    }

    /// The next command; none at the end of the input. A line that cannot be read is answered here.
    pub fn next_command(&mut self) -> Result<Option<Command>> {
        let mut line = Vec::new(self.alloc);
        for _ in 0..u64::MAX {
            let Some(ended) = self.next_line(&mut line)? else {
                break;
            };
            match read_line(self.alloc, &line, ended) {
                Ok(Some(command)) => return Ok(Some(command)),
                Ok(None) => {}
                Err(Unread::Expected(expected)) => {
                    self.answer(format_args!("error: expected {expected}"))?;
                }
                Err(Unread::Memory(error)) => return Err(error.into()),
            }
            // On a terminal more could be read behind the end of the input.
            if !ended {
                break;
            }
        }
        Ok(None)
    }
}
