//! A watch over an arena, which tells the calls that ask it for memory, whether they keep the memory or give it back.
use bumpalo::Bump;
use std::alloc::{AllocError, Global};

/// Which calls asked an arena for memory.
///
/// An arena keeps its chunks. So where the last chunk has no room, each request shows: it takes one more chunk.
#[derive(Drop)]
pub struct Watch<'a> {
    alloc: Global,
    arena: &'a Bump,
    bytes: usize,
    asking: String,
    is_out_of_memory: bool,
}

impl<'a> Watch<'a> {
    /// A watch that begins now.
    pub fn new(alloc: Global, arena: &'a Bump) -> Watch<'a> {
        let mut watch = Watch {
            alloc,
            arena,
            bytes: 0,
            asking: String::new(alloc),
            is_out_of_memory: false,
        };
        watch.restart();
        watch
    }

    /// Begins again: what was asked for since the last note stays unnoted.
    pub fn restart(&mut self) {
        match filled(self.alloc, self.arena) {
            Ok(bytes) => self.bytes = bytes,
            Err(_) => self.is_out_of_memory = true,
        }
    }

    /// Notes a call by its name, if the arena was asked for memory since the last note.
    pub fn note(&mut self, call: &str) {
        if self.arena.chunk_capacity() > 0 || self.arena.allocated_bytes() != self.bytes {
            let is_noted = self.asking.push_str(call).is_ok() && self.asking.push_str("; ").is_ok();
            self.is_out_of_memory = self.is_out_of_memory || !is_noted;
            self.restart();
        }
    }

    /// The calls that were noted, or that memory ran out for the watch itself.
    pub fn asking(&self) -> &str {
        if self.is_out_of_memory {
            "no memory for the watch"
        } else {
            self.asking.as_str()
        }
    }
}

// Takes what is left of the arena's last chunk, and returns how many bytes all chunks have.
fn filled(alloc: Global, arena: &Bump) -> Result<usize, AllocError> {
    let filler: Vec<u8> = vec![in alloc; 0u8; arena.chunk_capacity()]?;
    let _kept = arena.try_alloc_slice_copy(filler.as_slice())?;
    Ok(arena.allocated_bytes())
}
