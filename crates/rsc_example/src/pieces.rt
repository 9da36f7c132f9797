//! Lines piece by piece: their matches, or what stands for these, and what is between them.
ghost use Rattle.std.specs.Prelude.{◌≤◌, length};

use crate::arguments::Request;
use crate::error::GrepError;
use crate::page::Page;
use rsc_captures::Captures;
use rsc_engine::{Cache, Matches, Program, laws};
use rsc_look::AsciiWord;
use rsc_replace::expand;
use rsc_search::{Input, Span};
use std::alloc::Global;
use std::io::Write;

/// What prints lines piece by piece.
#[derive(Drop)]
pub struct Pieces<'a> {
    alloc: Global,
    request: &'a Request,
    program: &'a Program<AsciiWord>,
    // None before the first line.
    cache: Option<Cache<'a, AsciiWord>>,
    captures: Captures,
    // What stands for a match.
    piece: Vec<u8>,
}

impl<'a> Pieces<'a> {
    /// What prints lines with the matches of a program.
    pub fn new(
        alloc: Global,
        request: &'a Request,
        program: &'a Program<AsciiWord>,
    ) -> Result<Pieces<'a>, GrepError> {
        Ok(Pieces {
            alloc,
            request,
            program,
            cache: None,
            captures: program.captures(alloc)?,
            piece: Vec::new(alloc),
        })
    }

    /// Prints a line of a text: all of it, or the matches alone, each on a line.
    pub fn print_line<W: Write>(
        &mut self,
        text: &[u8],
        line: Span,
        number: u64,
        page: &mut Page<W>,
    ) -> Result<(), GrepError>
        requires order { line.start ≤ line.end }
        requires within { line.end ≤ length text.now }
    {
        let cache = match self.cache.take() {
            Some(cache) => cache,
            None => Cache::new(self.alloc, self.program)?,
        };
        let mut matches = cache.matches(Input::new(text).span(line))?;
        if self.request.only_matches {
            self.print_matches(text, &mut matches, number, page)?;
        } else {
            page.begin_line(number)?;
            let from = self.print_until_last(text, line.start, &mut matches, page)?;
            page.print(between(text, from, line.end))?;
            page.print(b"\n")?;
        }
        self.cache = Some(matches.into_cache());
        Ok(())
    }

    // Prints each match on a line, but for empty ones.
    fn print_matches<W: Write>(
        &mut self,
        text: &[u8],
        matches: &mut Matches<'_, '_, AsciiWord>,
        number: u64,
        page: &mut Page<W>,
    ) -> Result<(), GrepError> {
        laws::an_iteration_ends();
        while let Some(found) = matches.next(&mut self.captures)? {
            if !found.is_empty() {
                self.fill_piece(text, found.span())?;
                page.begin_line(number)?;
                page.print_match(&self.piece)?;
                page.print(b"\n")?;
            }
        }
        Ok(())
    }

    // Prints what is before each match, and the match, and returns where the last one ends.
    fn print_until_last<W: Write>(
        &mut self,
        text: &[u8],
        start: usize,
        matches: &mut Matches<'_, '_, AsciiWord>,
        page: &mut Page<W>,
    ) -> Result<usize, GrepError> {
        laws::an_iteration_ends();
        let mut from = start;
        while let Some(found) = matches.next(&mut self.captures)? {
            self.fill_piece(text, found.span())?;
            page.print(between(text, from, found.start()))?;
            page.print_match(&self.piece)?;
            from = found.end();
        }
        Ok(from)
    }

    // Writes a match, or what the template stands for there.
    fn fill_piece(&mut self, text: &[u8], span: Span) -> Result<(), GrepError> {
        self.piece.clear();
        match &self.request.template {
            None => self
                .piece
                .extend_from_slice(between(text, span.start, span.end))?,
            Some(template) => expand(&mut self.piece, text, &self.captures, template.as_bytes())?,
        }
        Ok(())
    }
}

// The bytes of a text from a position to another; none if there are no such positions.
fn between(text: &[u8], start: usize, end: usize) -> &[u8] {
    Span { start, end }.get(text).unwrap_or(&[])
}
