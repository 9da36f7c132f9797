//! The input as a whole.

use crate::error::BenchError;
use std::alloc::Allocator;
use std::io::Read;

/// An input that hasn't ended after this many reads counts as one that can't be read.
pub const MAX_READS: u32 = 1_048_576;

/// All bytes of the input, up to its end.
pub fn read_all<A: Allocator + Copy + Drop, R: Read>(
    alloc: A,
    input: &mut R,
) -> Result<Vec<u8, A>, BenchError> {
    let mut bytes = Vec::new(alloc);
    let mut buffer = [0u8; 4096];
    for _ in 0..MAX_READS {
        let count = input.read(&mut buffer).map_err(|_| BenchError::Read)?;
        if count == 0 {
            return Ok(bytes);
        }
        bytes
            .extend_from_slice(&buffer[..count])
            .map_err(|_| BenchError::OutOfMemory)?;
    }
    Err(BenchError::Read)
}
