//! Readers and writers that fail, that never end, or that move one byte at a time.
use rsc_commands::{BenchError, run};
use std::io;
use std::io::{Read, Write};
use std::test::Fail;

const LINES: &[u8] = b"ranges\nranges 61-7a\nranges\n";

const ANSWERS: &[u8] = b"alphabet 2: 00\nalphabet 4: 00 61 7b\nalphabet 2: 00\n";

// Gives the bytes that are left, one a call; after that many calls, if a number is set, it fails once, in that way.
#[derive(Drop)]
struct ByteReader<'a> {
    left: &'a [u8],
    fails_after: Option<u32>,
    kind: io::ErrorKind,
}

impl<'a> Read for ByteReader<'a> {
    fn read(&mut self, buf: &mut [u8]) -> io::Result<usize> {
        match self.fails_after {
            Some(0) => {
                self.fails_after = None;
                return Err(io::Error::from(self.kind));
            }
            Some(calls) => self.fails_after = Some(calls - 1),
            None => {}
        }
        let left = self.left;
        let [first, rest @ ..] = left else {
            return Ok(0);
        };
        match buf.first_mut() {
            Some(byte) => {
                *byte = *first;
                self.left = rest;
                Ok(1)
            }
            None => Ok(0),
        }
    }
}

// Gives `\n` for ever, one byte a call.
#[derive(Drop)]
struct EndlessReader;

impl Read for EndlessReader {
    fn read(&mut self, buf: &mut [u8]) -> io::Result<usize> {
        match buf.first_mut() {
            Some(byte) => {
                *byte = b'\n';
                Ok(1)
            }
            None => Ok(0),
        }
    }
}

// Counts its calls: it gives one byte a call up to the call that tells the end.
#[derive(Drop)]
struct CountingReader {
    calls: u32,
    ends_at: u32,
}

impl Read for CountingReader {
    fn read(&mut self, buf: &mut [u8]) -> io::Result<usize> {
        self.calls = self.calls.saturating_add(1);
        match buf.first_mut() {
            Some(byte) if self.calls < self.ends_at => {
                *byte = b'x';
                Ok(1)
            }
            _ => Ok(0),
        }
    }
}

// Takes one byte a call, as long as there is room, and then fails in that way, or takes nothing where none is set; if it fails
// once, it has room from then on.
#[derive(Drop)]
struct ByteWriter {
    taken: Vec<u8>,
    room: usize,
    kind: Option<io::ErrorKind>,
    is_once: bool,
}

impl Write for ByteWriter {
    fn write(&mut self, buf: &[u8]) -> io::Result<usize> {
        let Some(byte) = buf.first() else {
            return Ok(0);
        };
        if self.taken.len() >= self.room {
            if self.is_once {
                self.room = 1000;
            }
            return match self.kind {
                Some(kind) => Err(io::Error::from(kind)),
                None => Ok(0),
            };
        }
        self.taken.push(*byte)?;
        Ok(1)
    }

    fn flush(&mut self) -> io::Result<()> {
        Ok(())
    }
}

#[test]
fn a_read_that_fails_once_writes_nothing(rt: HostRuntime) {
    for kind in [
        io::ErrorKind::BrokenPipe,
        io::ErrorKind::Interrupted,
        io::ErrorKind::UnexpectedEof,
    ] {
        for calls in 0..=20u32 {
            let mut reader = ByteReader {
                left: LINES,
                fails_after: Some(calls),
                kind,
            };
            let mut writer = Vec::new(rt.alloc());
            let ended = run(rt.alloc(), &mut reader, &mut writer);
            assert!(rt; ended == Err(BenchError::Read) && writer.is_empty());
        }
    }
}

// A read that fails after 90,000 bytes.
#[test]
fn a_late_read_that_fails_writes_nothing(rt: HostRuntime) -> Result<(), Fail> {
    let mut input = Vec::new(rt.alloc());
    for _ in 0..100_000 {
        input.push(b'\n')?;
    }
    let mut reader = ByteReader {
        left: input.as_slice(),
        fails_after: Some(90_000),
        kind: io::ErrorKind::BrokenPipe,
    };
    let mut writer = Vec::new(rt.alloc());
    let ended = run(rt.alloc(), &mut reader, &mut writer);
    assert!(rt; ended == Err(BenchError::Read) && writer.is_empty());
    Ok(())
}

#[test]
fn an_input_without_end_is_refused(rt: HostRuntime) {
    let mut writer = Vec::new(rt.alloc());
    let ended = run(rt.alloc(), &mut EndlessReader, &mut writer);
    assert!(rt; ended == Err(BenchError::Read) && writer.is_empty());
}

#[test]
fn at_most_1048576_reads_are_made(rt: HostRuntime) {
    let mut reader = CountingReader {
        calls: 0,
        ends_at: 1_048_576,
    };
    let mut writer = Vec::new(rt.alloc());
    let ended = run(rt.alloc(), &mut reader, &mut writer);
    assert!(rt; ended == Ok(()) && reader.calls == 1_048_576);
    assert!(rt; writer.as_slice() == b"bad line\n".as_slice());

    let mut reader = CountingReader {
        calls: 0,
        ends_at: 1_048_577,
    };
    let mut writer = Vec::new(rt.alloc());
    let ended = run(rt.alloc(), &mut reader, &mut writer);
    assert!(rt; ended == Err(BenchError::Read) && reader.calls == 1_048_576);
    assert!(rt; writer.is_empty());
}

#[test]
fn short_reads_and_writes_give_the_full_answer(rt: HostRuntime) {
    let mut reader = ByteReader {
        left: LINES,
        fails_after: None,
        kind: io::ErrorKind::BrokenPipe,
    };
    let mut writer = ByteWriter {
        taken: Vec::new(rt.alloc()),
        room: 1000,
        kind: None,
        is_once: false,
    };
    assert!(rt; run(rt.alloc(), &mut reader, &mut writer).is_ok());
    assert!(rt; writer.taken.as_slice() == ANSWERS);
}

// The answers take 15, 21 and 15 bytes: the writer fails at each byte of them.
#[test]
fn a_failed_write_leaves_what_was_written(rt: HostRuntime) {
    for kind in [
        Some(io::ErrorKind::BrokenPipe),
        Some(io::ErrorKind::WouldBlock),
        Some(io::ErrorKind::StorageFull),
        None,
    ] {
        for room in 0..102usize {
            let (room, is_once) = (room / 2, room % 2 == 1);
            let mut reader = LINES;
            let mut writer = ByteWriter {
                taken: Vec::new(rt.alloc()),
                room,
                kind,
                is_once,
            };
            let ended = run(rt.alloc(), &mut reader, &mut writer);
            assert!(rt; ended == Err(BenchError::Write) && room < ANSWERS.len());
            assert!(rt; writer.taken.as_slice() == &ANSWERS[..room]);
        }
    }
}
