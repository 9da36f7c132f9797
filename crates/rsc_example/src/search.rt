//! The search of inputs for lines.
ghost use Rattle.std.specs.Prelude.{◌≤◌, length};

use crate::arguments::Request;
use crate::blocks::Blocks;
use crate::error::GrepError;
use crate::page::Page;
use crate::pieces::Pieces;
use memchr::memchr_iter;
use rsc_engine::{Dfa, Lines, Program};
use rsc_look::AsciiWord;
use rsc_search::Span;
use std::alloc::Global;
use std::io::{Read, Write};

// How many rows a DFA has at most.
const MOST_ROWS: usize = 10_000;

/// The search of inputs, one after the other.
#[derive(Drop)]
pub struct Search<'a, W> {
    alloc: Global,
    request: &'a Request,
    program: &'a Program<AsciiWord>,
    // None before the first block.
    dfa: Option<Dfa<'a, AsciiWord>>,
    pieces: Pieces<'a>,
    page: Page<W>,
    // How many lines of the input were seen, and how many of them are selected. Where nobody asks for numbers only those with a match are seen.
    seen: u64,
    selected: u64,
}

impl<'a, W: Write + Drop> Search<'a, W> {
    /// The search for what is asked for, by the program of it.
    pub fn new(
        alloc: Global,
        request: &'a Request,
        program: &'a Program<AsciiWord>,
        page: Page<W>,
    ) -> Result<Search<'a, W>, GrepError> {
        Ok(Search {
            alloc,
            request,
            program,
            dfa: None,
            pieces: Pieces::new(alloc, request, program)?,
            page,
            seen: 0,
            selected: 0,
        })
    }

    /// Names the input in the lines that follow.
    pub fn set_name(&mut self, name: &str) -> Result<(), GrepError> {
        self.page.set_name(name)
    }

    /// Prints the selected lines of an input, or their number, and returns whether there is one.
    pub fn search<R: Read>(&mut self, input: &mut R) -> Result<bool, GrepError> {
        self.seen = 0;
        self.selected = 0;
        let mut blocks = Blocks::new(self.alloc)?;
        for _ in 0..u64::MAX {
            let text = blocks.next(input)?;
            if text.is_empty() {
                break;
            }
            self.search_block(text)?;
            self.page.flush()?;
        }
        if self.request.counts {
            self.page.print_count(self.selected)?;
            self.page.flush()?;
        }
        Ok(self.selected > 0)
    }

    fn search_block(&mut self, text: &[u8]) -> Result<(), GrepError> {
        let dfa = match self.dfa.take() {
            Some(dfa) => dfa,
            None => Dfa::new(self.alloc, self.program, MOST_ROWS),
        };
        let mut lines = Lines::new(dfa, text);
        let mut from = 0;
        while let Some(line) = lines.next()? {
            self.pass(&text[from..line.start])?;
            self.meet(text, line)?;
            from = text.len().min(line.end + 1);
        }
        self.pass(&text[from..])?;
        self.dfa = Some(lines.into_dfa());
        Ok(())
    }

    // Takes lines without a match.
    fn pass(&mut self, lines: &[u8]) -> Result<(), GrepError> {
        if !self.request.inverted {
            if self.request.numbers {
                let count = memchr_iter(b'\n', lines).count();
                self.seen = self.seen.saturating_add(count as u64);
            }
            return Ok(());
        }
        if lines.is_empty() {
            return Ok(());
        }
        let lines = lines.strip_suffix(b"\n").unwrap_or(lines);
        for line in lines.split(|byte| *byte == b'\n') {
            self.seen = self.seen.saturating_add(1);
            self.selected = self.selected.saturating_add(1);
            if !self.request.counts && !self.request.only_matches {
                self.page.print_line(self.seen, line)?;
            }
        }
        Ok(())
    }

    // Takes a line with a match.
    fn meet(&mut self, text: &[u8], line: Span) -> Result<(), GrepError>
        requires order { line.start ≤ line.end }
        requires within { line.end ≤ length text.now }
    {
        self.seen = self.seen.saturating_add(1);
        if self.request.inverted {
            return Ok(());
        }
        self.selected = self.selected.saturating_add(1);
        if self.request.counts {
            return Ok(());
        }
        if self.request.only_matches || self.request.template.is_some() || self.page.is_colored {
            return self
                .pieces
                .print_line(text, line, self.seen, &mut self.page);
        }
        self.page.print_line(self.seen, &text[line.start..line.end])
    }
}
