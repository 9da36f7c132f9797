//! The lines of a haystack in which a program matches.
ghost use Rattle.std.specs.Prelude.{◌≡◌, ◌≢◌, ◌+◌, ◌<◌, ◌≤◌, ℕ, IfOk, IfErr, IfSome, IfNone, OnErr, length, slice_index};
ghost use Rattle.rsc_look.specs.Looks.{line_feed};
ghost use Rattle.rsc_engine.specs.declared.error.Error.TheVariants.{OutOfMemory};
ghost use Rattle.rsc_engine.specs.Preferred.{HasNoFirstMatch};
ghost use Rattle.rsc_engine.specs.Lines.{BeginsLine, IsLine, NoSuchLine, HasMatchIn, IsNextLine, HasNoMatchingLine, after_line};
ghost use Rattle.rsc_engine.specs.LinesLayout.{IsCandidate, EndsFrom, search_from};

use crate::{AsciiCompatible, Dfa, Error};
use rsc_look::WordClass;
use rsc_search::{Input, Span};
use std::marker::Model;

const LINE_FEED: u8 = b'\n';

/// The lines of a haystack in which a program matches, one after the other, by a table alone, with no memory per position.
///
/// A line is what stands between line feeds, without them; after a last one there is no line. It matches if a search in its span does: a match
/// lies within the line, and assertions see the bytes around it.
///
/// # Examples
///
/// ```
/// // b[a-z]
/// let builder = Builder::new(rt.alloc());
/// let letter = builder.literal(b"b")?;
/// let pair = builder.then(letter, builder.range(b'a', b'z'))?;
/// let program = builder.build(AsciiWord, true, pair)?;
/// let dfa = Dfa::new(rt.alloc(), &program, 1000);
/// let mut lines = Lines::new(dfa, b"ab\nabc\nbd");
/// assert!(rt; lines.next()? == Some(Span { start: 3, end: 6 }));
/// assert!(rt; lines.next()? == Some(Span { start: 7, end: 9 }));
/// assert!(rt; lines.next()? == None);
/// ```
pub struct Lines<'p, 'h, W: WordClass> {
    dfa: Dfa<'p, W>,
    haystack: &'h [u8],
    // Where the next line may begin; past the haystack's end if there is none.
    at: usize,
    ghost begins: { at < length haystack.now → BeginsLine haystack.now at },
}

// Written out, so that a caller's proof has one step where they are dropped.
impl<W: WordClass> Drop for Lines<'_, '_, W> {
    fn drop(self) {
        let Lines {
            dfa: _,
            haystack: _,
            at: _,
        } = self;
    }
}

impl<'p, 'h, W: WordClass> Model for Lines<'p, 'h, W> {
    ghost use Rattle.rsc_engine.specs.Lines.{LinesLeft};

    ghost Value = { LinesLeft W };

    ghost view = { λ l. record { program = l.dfa; haystack = l.haystack.now; from = l.at } };
}

impl<'p, 'h, W: WordClass + AsciiCompatible> Lines<'p, 'h, W> {
    /// The lines of a haystack in which the program of a DFA matches.
    pub fn new(dfa: Dfa<'p, W>, haystack: &'h [u8]) -> Lines<'p, 'h, W>
        ensures { result ≡ record { program = dfa.entry; haystack = haystack.now; from = 0 } }
    {
        Lines {
            dfa,
            haystack,
            at: 0,
        }
    }

    /// The DFA with the rows that it has by now, for the next haystack.
    pub fn into_dfa(self) -> Dfa<'p, W>
        ensures { result ≡ self.entry.program }
    {
        // No wrong body: the clause is of the program, and no other one is at hand.
        let Lines {
            dfa,
            haystack: _,
            at: _,
        } = self;
        dfa
    }

    /// The span of the next line in which there is a match. After the last one each call returns `None`, or an error.
    ///
    /// # Errors
    ///
    /// Out of memory. The next call looks for the same line.
    pub fn next(&mut self) -> Result<Option<Span>, Error>
        ensures found { IfOk result (λ found. IfSome found (IsNextLine W.word_chars self.old)) }
        ensures none { IfOk result (λ found. IfNone found (HasNoMatchingLine W.word_chars self.old)) }
        ensures advanced { IfOk result (λ found. IfSome found (λ line. self.new ≡ after_line self.old line)) }
        ensures exhausted { IfOk result (λ found. IfNone found (self.new ≡ record self.old { from = length self.old.haystack })) }
        ensures kept { OnErr result (self.new ≡ self.old) }
        ensures within { IfOk result (λ found. IfSome found (λ line.
            (self.old.from ≤ line.start) × (line.start ≤ line.end) × (line.end ≤ length self.old.haystack))) }
        ensures refused { IfErr result (λ e. e ≡ OutOfMemory) }
    {
        let found = first_line(&mut self.dfa, self.haystack, self.at)?;
        self.at = match found {
            Some(line) => line.end + 1,
            None => self.haystack.len(),
        };
        Ok(found)
    }
}

// The first line with a match, of the lines that begin at a position or later.
fn first_line<W: WordClass + AsciiCompatible>(
    dfa: &mut Dfa<'_, W>,
    haystack: &[u8],
    from: usize,
) -> Result<Option<Span>, Error>
    requires { from < length haystack.now → BeginsLine haystack.now from }
    ensures kept { dfa.new ≡ dfa.old }
    ensures found { IfOk result (λ found. IfSome found
        (IsNextLine W.word_chars (record { program = dfa.old; haystack = haystack.now; from = from }))) }
    ensures none { IfOk result (λ found. IfNone found
        (HasNoMatchingLine W.word_chars (record { program = dfa.old; haystack = haystack.now; from = from }))) }
    ensures refused { IfErr result (λ e. e ≡ OutOfMemory) }
{
    let mut at = from;
    while at < haystack.len() {
        let Some(line) = candidate(dfa, haystack, at)? else {
            return Ok(None);
        };
        if dfa.is_match(&Input::new(haystack).span(line))? {
            return Ok(Some(line));
        }
        at = line.end + 1;
    }
    Ok(None)
}

// A line before which none has a match, of the lines that begin at a line's start or later; `None` only if none of these has one.
fn candidate<W: WordClass + AsciiCompatible>(
    dfa: &mut Dfa<'_, W>,
    haystack: &[u8],
    from: usize,
) -> Result<Option<Span>, Error>
    requires begins { BeginsLine haystack.now from }
    requires within { from < length haystack.now }
    ensures kept { dfa.new ≡ dfa.old }
    ensures some { IfOk result (λ found. IfSome found (IsCandidate haystack.now (HasMatchIn W.word_chars dfa.old haystack.now) from)) }
    ensures none { IfOk result (λ found. IfNone found
        (NoSuchLine haystack.now (HasMatchIn W.word_chars dfa.old haystack.now) from (length haystack.now))) }
    ensures refused { IfErr result (λ e. e ≡ OutOfMemory) }
{
    let Some(at) = end_bound(dfa, haystack, from)? else {
        return Ok(None);
    };
    Ok(line_around(haystack, from, at))
}

// A position before which no match ends that begins at a line's start or later; `None` only if there is none.
fn end_bound<W: WordClass + AsciiCompatible>(
    dfa: &mut Dfa<'_, W>,
    haystack: &[u8],
    from: usize,
) -> Result<Option<usize>, Error>
    requires begins { BeginsLine haystack.now from }
    requires within { from < length haystack.now }
    ensures kept { dfa.new ≡ dfa.old }
    ensures some { IfOk result (λ found. IfSome found (EndsFrom (search_from W.word_chars dfa.old haystack.now from))) }
    ensures none { IfOk result (λ found. IfNone found (HasNoFirstMatch (search_from W.word_chars dfa.old haystack.now from))) }
    ensures refused { IfErr result (λ e. e ≡ OutOfMemory) }
{
    let rest = Input::new(haystack).span(Span {
        start: from,
        end: haystack.len(),
    });
    match dfa.earliest_end(&rest)? {
        None => Ok(None),
        Some(at) => Ok(Some(at)),
    }
}

// The line with a position, if it isn't after a last line feed.
fn line_around(haystack: &[u8], from: usize, at: usize) -> Option<Span>
    requires begins { BeginsLine haystack.now from }
    requires from { from ≤ at }
    requires within { at ≤ length haystack.now }
    ensures some { IfSome result (λ line. IsLine haystack.now line) }
    ensures there { IfSome result (λ line. (from ≤ line.start) × (line.start ≤ at)) }
    ensures none { IfNone result (BeginsLine haystack.now (length haystack.now) × (length haystack.now ≤ at)) }
{
    let start = start_of(haystack, from, at);
    if start == haystack.len() {
        return None;
    }
    Some(Span {
        start,
        end: end_of(haystack, at),
    })
}

// Where the line with a position begins, if one begins at `from`.
fn start_of(haystack: &[u8], from: usize, at: usize) -> usize
    requires begins { BeginsLine haystack.now from }
    requires from { from ≤ at }
    requires within { at ≤ length haystack.now }
    ensures begins { BeginsLine haystack.now result }
    ensures from { from ≤ result }
    ensures before { result ≤ at }
    ensures inner { (i : ℕ) → result ≤ i → i < at → slice_index haystack.now i ≢ line_feed }
{
    let mut start = at;
    while start > from {
        if haystack[start - 1] == LINE_FEED {
            return start;
        }
        start -= 1;
    }
    start
}

// The first line feed from a position on, or the haystack's end.
fn end_of(haystack: &[u8], at: usize) -> usize
    requires { at ≤ length haystack.now }
    ensures after { at ≤ result }
    ensures within { result ≤ length haystack.now }
    ensures inner { (i : ℕ) → at ≤ i → i < result → slice_index haystack.now i ≢ line_feed }
    ensures ends { result < length haystack.now → slice_index haystack.now result ≡ line_feed }
{
    for end in at..haystack.len() {
        if haystack[end] == LINE_FEED {
            return end;
        }
    }
    haystack.len()
}
