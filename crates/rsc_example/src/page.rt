//! Lines as they are printed.

use crate::error::GrepError;
use std::alloc::Global;
use std::io::Write;

const COLORED: &[u8] = b"\x1b[1;31m";

const PLAIN: &[u8] = b"\x1b[m";

/// Where lines are printed, and what stands before them.
#[derive(Drop)]
pub struct Page<W> {
    out: W,
    // The name of the input and a colon, if inputs are named.
    name: Vec<u8>,
    has_numbers: bool,
    /// Whether matches are coloured.
    pub is_colored: bool,
}

impl<W: Write> Page<W> {
    /// A page on which no input is named yet.
    pub fn new(alloc: Global, out: W, has_numbers: bool, is_colored: bool) -> Page<W> {
        Page {
            out,
            name: Vec::new(alloc),
            has_numbers,
            is_colored,
        }
    }

    /// Names the input in the lines that follow.
    pub fn set_name(&mut self, name: &str) -> Result<(), GrepError> {
        self.name.clear();
        self.name.extend_from_slice(name.as_bytes())?;
        Ok(self.name.push(b':')?)
    }

    /// Prints what stands before a line.
    pub fn begin_line(&mut self, number: u64) -> Result<(), GrepError> {
        self.out.write_all(&self.name).map_err(GrepError::of_write)?;
        if self.has_numbers {
            write!(self.out, "{number}:").map_err(GrepError::of_write)?;
        }
        Ok(())
    }

    /// Prints bytes as they are.
    pub fn print(&mut self, bytes: &[u8]) -> Result<(), GrepError> {
        self.out.write_all(bytes).map_err(GrepError::of_write)
    }

    /// Prints the bytes of a match, or what stands for it.
    pub fn print_match(&mut self, bytes: &[u8]) -> Result<(), GrepError> {
        if !self.is_colored || bytes.is_empty() {
            return self.print(bytes);
        }
        self.print(COLORED)?;
        self.print(bytes)?;
        self.print(PLAIN)
    }

    /// Prints a line as it is.
    pub fn print_line(&mut self, number: u64, line: &[u8]) -> Result<(), GrepError> {
        self.begin_line(number)?;
        self.print(line)?;
        self.print(b"\n")
    }

    /// Prints how many lines of an input are selected.
    pub fn print_count(&mut self, count: u64) -> Result<(), GrepError> {
        self.out.write_all(&self.name).map_err(GrepError::of_write)?;
        writeln!(self.out, "{count}").map_err(GrepError::of_write)
    }

    /// Gives what was printed so far to the reader.
    pub fn flush(&mut self) -> Result<(), GrepError> {
        self.out.flush().map_err(GrepError::of_write)
    }
}
