//! Inputs, read in blocks of whole lines.

use crate::error::GrepError;
use memchr::memrchr;
use std::alloc::Global;
use std::io::Read;
use std::mem;

// How many bytes are read at once.
const CHUNK: usize = 262_144;

/// An input in blocks. It has room for a chunk, and for the longest line.
#[derive(Drop)]
pub struct Blocks {
    // The bytes of a read.
    chunk: Vec<u8>,
    // Whole lines, and what was read of the line after them.
    lines: Vec<u8>,
    rest: Vec<u8>,
    is_over: bool,
}

impl Blocks {
    /// Nothing yet.
    pub fn new(alloc: Global) -> Result<Blocks, GrepError> {
        Ok(Blocks {
            chunk: vec![in alloc; 0; CHUNK]?,
            lines: Vec::new(alloc),
            rest: Vec::new(alloc),
            is_over: false,
        })
    }

    /// The next lines of the input, with their line feeds; the last one may have none. Empty at the end.
    pub fn next<R: Read>(&mut self, input: &mut R) -> Result<&[u8], GrepError> {
        self.lines.clear();
        mem::swap(&mut self.lines, &mut self.rest);
        for _ in 0..u64::MAX {
            if self.is_over {
                break;
            }
            let count = input
                .read(self.chunk.as_mut_slice())
                .map_err(GrepError::Read)?;
            let read = self.chunk.get(..count).unwrap_or(&[]);
            if let Some(at) = memrchr(b'\n', read) {
                self.lines.extend_from_slice(&read[..at + 1])?;
                self.rest.extend_from_slice(&read[at + 1..])?;
                break;
            }
            self.is_over = read.is_empty();
            self.lines.extend_from_slice(read)?;
        }
        Ok(self.lines.as_slice())
    }
}
