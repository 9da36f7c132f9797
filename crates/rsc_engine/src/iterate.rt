//! All matches one after the other.
ghost use Rattle.std.specs.Prelude.{◌≡◌, ◌+◌, ◌-◌, ◌*◌, ◌^◌, ◌<◌, ◌≤◌, IfOk, IfErr, IfSome, IfNone, OnErr, MatchOption, None, Some, false, true, length};
ghost use Rattle.std.specs.Option.{ForSome};
ghost use Rattle.rsc_search.specs.declared.anchored.Anchored.TheVariants.{No};
ghost use Rattle.rsc_primitives.specs.Decoding.{IsCharBoundary};
ghost use Rattle.rsc_engine.specs.declared.error.Error.TheVariants.{OutOfMemory};
ghost use Rattle.rsc_engine.specs.Searches.{search_in};
ghost use Rattle.rsc_engine.specs.Preferred.{IsFirstMatch, HasNoFirstMatch, IsCleared, IsInSpan};
ghost use Rattle.rsc_engine.specs.NextMatches.{IsOver, IsNextMatch, with_start};
ghost use Rattle.rsc_engine.specs.AheadLayout.{IsRestOf};

use crate::dfa::Ahead;
use crate::{AsciiCompatible, Cache, Dfa, Error, Program};
use rsc_captures::Captures;
use rsc_look::WordClass;
use rsc_search::{Input, Match};
use std::alloc::Global;
use std::marker::Model;

// How many bytes the passes may read behind the ends of matches at first.
const SPARE: usize = 4096;

// How many more for each byte that an iteration goes on.
const SPARE_FOR_A_BYTE: usize = 4;

/// The matches in an input that are left, in order.
///
/// The passes of a [`Dfa`] find the next match, as long as what they read behind the ends of matches is little beside what the iteration has gone past. Then
/// one pass back over what is left logs where matches begin, in 4 bytes for each byte, and all others are found along that log.
///
/// # Examples
///
/// ```
/// // [a-z]+
/// let builder = Builder::new(rt.alloc());
/// let letters = builder.plus(builder.range(b'a', b'z'))?;
/// let program = builder.build(AsciiWord, true, letters)?;
/// let mut captures = program.captures(rt.alloc())?;
/// let mut matches = Matches::new(rt.alloc(), &program, Input::new(b"ab 12 c"))?;
/// let ab = matches.next(&mut captures)?;
/// assert!(rt; ab.map(|it| it.span()) == Some(Span { start: 0, end: 2 }));
/// let c = matches.next(&mut captures)?;
/// assert!(rt; c.map(|it| it.span()) == Some(Span { start: 6, end: 7 }));
/// assert!(rt; matches.next(&mut captures)?.is_none());
/// ```
pub struct Matches<'p, 'h, W: WordClass> {
    iteration: Iteration<'p, 'h, W>,
}

// Written out, so that a caller's proof has one step where they are dropped.
impl<W: WordClass> Drop for Matches<'_, '_, W> {
    fn drop(self) {
        let Matches { iteration: _ } = self;
    }
}

impl<'p, 'h, W: WordClass> Model for Matches<'p, 'h, W> {
    ghost use Rattle.rsc_engine.specs.NextMatches.{MatchesLeft};

    ghost Value = { MatchesLeft W };

    ghost view = { λ m. record { program = m.iteration.program.now; input = m.iteration.input; last = m.iteration.last_end } };
}

impl<'p, 'h, W: WordClass + AsciiCompatible> Matches<'p, 'h, W> {
    /// All matches in an input's span.
    ///
    /// # Errors
    ///
    /// Out of memory. Today it asks for none.
    pub fn new(
        alloc: Global,
        program: &'p Program<W>,
        input: Input<'h>,
    ) -> Result<Matches<'p, 'h, W>, Error>
        ensures made { IfOk result (λ m. m ≡ record { program = program.now; input = input.entry; last = None }) }
        ensures refused { IfErr result (λ e. e ≡ OutOfMemory) }
    {
        Cache::new(alloc, program)?.matches(input)
    }

    // The same over a cache.
    pub(crate) fn of_cache(cache: Cache<'p, W>, input: Input<'h>) -> Matches<'p, 'h, W>
        ensures { result ≡ record { program = cache.entry; input = input.entry; last = None } }
    {
        let Cache {
            alloc,
            program,
            dfa,
        } = cache;
        Matches {
            iteration: Iteration {
                alloc,
                program,
                input,
                dfa,
                spare: SPARE,
                ahead: None,
                last_end: None,
            },
        }
    }

    /// What the iteration has in memory, for the next one by the same program.
    pub fn into_cache(self) -> Cache<'p, W>
        ensures { result ≡ self.entry.program }
    {
        // No wrong body: the clause is of the program, and no other one is at hand.
        let Matches { iteration } = self;
        Cache {
            alloc: iteration.alloc,
            program: iteration.program,
            dfa: iteration.dfa,
        }
    }

    /// The next match, whose groups are in the captures afterwards; without one, and after an error, no slot is set. As in the original, an empty match
    /// where the last one ended is left out, and if the program's haystacks are text, an empty match within a character. After the last match each
    /// call returns `None`, or an error.
    ///
    /// # Errors
    ///
    /// Out of memory, as of [`find`](crate::find). The next call looks for the same match.
    pub fn next(&mut self, captures: &mut Captures) -> Result<Option<Match>, Error>
        ensures found { IfOk result (λ found. IfSome found (IsNextMatch (search_in W.word_chars self.old.program self.old.input) self.old.last captures.new)) }
        ensures none { IfOk result (λ found. IfNone found (IsOver (search_in W.word_chars self.old.program self.old.input) self.old.last)) }
        ensures advanced { IfOk result (λ found. IfSome found (λ m.
            self.new ≡ record self.old { input = with_start self.old.input m.span.end; last = Some m.span.end })) }
        ensures exhausted { IfOk result (λ found. IfNone found
            (self.new ≡ record self.old { input = with_start self.old.input (self.old.input.span.end + 1) })) }
        ensures kept { OnErr result (self.new ≡ self.old) }
        ensures refused { IfErr result (λ e. e ≡ OutOfMemory) }
        ensures order { IfOk result (λ found. IfSome found (λ m. ForSome self.old.last (λ end. end < m.span.end))) }
        ensures kept_groups { captures.new.groups ≡ captures.old.groups }
        ensures kept_slots { length captures.new.offsets ≡ length captures.old.offsets }
        ensures cleared { IfOk result (λ found. IfNone found (IsCleared captures.old captures.new)) }
        ensures cleared_by_error { OnErr result (IsCleared captures.old captures.new) }
        ensures within { IfOk result (λ found. IfSome found (IsInSpan self.old.input)) }
    {
        self.iteration.next(captures)
    }
}

// What is left of an iteration.
#[derive(Drop)]
struct Iteration<'p, 'h, W: WordClass> {
    alloc: Global,
    program: &'p Program<W>,
    input: Input<'h>,
    dfa: Dfa<'p, W>,
    // How many bytes the passes may yet read behind the ends of matches.
    spare: usize,
    // When there is none to spare, all matches that are left.
    ahead: Option<Ahead<'p, 'h, W>>,
    last_end: Option<usize>,
    ghost table: { dfa ≡ program.now },
    ghost left: { ForSome ahead (λ a. IsRestOf (search_in W.word_chars a.program a.input) (search_in W.word_chars program.now input)) },
    ghost order: { ForSome last_end (λ end. end ≤ input.span.start) },
}

impl<'p, 'h, W: WordClass + AsciiCompatible> Iteration<'p, 'h, W> {
    // The next match.
    fn next(&mut self, captures: &mut Captures) -> Result<Option<Match>, Error>
        ensures found { IfOk result (λ found. IfSome found
            (IsNextMatch (search_in W.word_chars self.old.program.now self.old.input) self.old.last_end captures.new)) }
        ensures none { IfOk result (λ found. IfNone found (IsOver (search_in W.word_chars self.old.program.now self.old.input) self.old.last_end)) }
        ensures advanced { IfOk result (λ found. IfSome found (λ m. self.new.input ≡ with_start self.old.input m.span.end)) }
        ensures exhausted { IfOk result (λ found. IfNone found (self.new.input ≡ with_start self.old.input (self.old.input.span.end + 1))) }
        ensures kept { OnErr result (self.new.input ≡ self.old.input) }
        ensures program { self.new.program ≡ self.old.program }
        ensures refused { IfErr result (λ e. e ≡ OutOfMemory) }
        ensures order { IfOk result (λ found. IfSome found (λ m. ForSome self.old.last_end (λ end. end < m.span.end))) }
        ensures last { IfOk result (λ found. MatchOption found (self.new.last_end ≡ self.old.last_end) (λ m. self.new.last_end ≡ Some m.span.end)) }
        ensures last_kept { OnErr result (self.new.last_end ≡ self.old.last_end) }
        ensures kept_groups { captures.new.groups ≡ captures.old.groups }
        ensures kept_slots { length captures.new.offsets ≡ length captures.old.offsets }
        ensures cleared { IfOk result (λ found. IfNone found (IsCleared captures.old captures.new)) }
        ensures cleared_by_error { OnErr result (IsCleared captures.old captures.new) }
        ensures within { IfOk result (λ found. IfSome found (IsInSpan self.old.input)) }
    {
        let start = self.input.start();
        'matches: loop {
            match self.advance(captures) {
                Err(error) => {
                    // The log may be of a later start.
                    self.ahead = None;
                    self.input.set_start(start);
                    return Err(error);
                }
                Ok(None) => {
                    let end = self.input.end();
                    self.input.set_start(end + 1);
                    return Ok(None);
                }
                Ok(Some(found)) => {
                    let end = found.end();
                    if self.repeats(&found) {
                        self.input.set_start(end + 1);
                    } else if self.splits(&found) {
                        let next = self.after_split(end);
                        self.input.set_start(next);
                    } else {
                        self.last_end = Some(end);
                        return Ok(Some(found));
                    }
                }
            }
        }
    }

    // The leftmost-first match from the input's start on. The next one is looked for from its end on.
    fn advance(&mut self, captures: &mut Captures) -> Result<Option<Match>, Error>
        ensures found { IfOk result (λ found. IfSome found (IsFirstMatch (search_in W.word_chars self.old.program.now self.old.input) captures.new)) }
        ensures none { IfOk result (λ found. IfNone found (HasNoFirstMatch (search_in W.word_chars self.old.program.now self.old.input))) }
        ensures within { IfOk result (λ found. IfSome found (IsInSpan self.old.input)) }
        ensures advanced { IfOk result (λ found. IfSome found (λ m. self.new.input ≡ with_start self.old.input m.span.end)) }
        ensures exhausted { IfOk result (λ found. IfNone found (self.new.input ≡ self.old.input)) }
        ensures kept { OnErr result (self.new.input ≡ self.old.input) }
        ensures program { self.new.program ≡ self.old.program }
        ensures refused { IfErr result (λ e. e ≡ OutOfMemory) }
        ensures last { self.new.last_end ≡ self.old.last_end }
        ensures kept_groups { captures.new.groups ≡ captures.old.groups }
        ensures kept_slots { length captures.new.offsets ≡ length captures.old.offsets }
        ensures cleared { IfOk result (λ found. IfNone found (IsCleared captures.old captures.new)) }
        ensures cleared_by_error { OnErr result (IsCleared captures.old captures.new) }
    {
        if self.spare == 0 {
            return self.go_ahead(captures);
        }
        let start = self.input.start();
        let Some(found) = self.dfa.find(&self.input, captures)? else {
            return Ok(None);
        };
        self.spare = spare_after(self.spare, start, found.end(), self.dfa.stopped());
        self.input.set_start(found.end());
        Ok(Some(found))
    }

    // The same along the log of what is left.
    // Not inlined, so that a search by the passes makes no room for what it moves.
    #[inline(never)]
    fn go_ahead(&mut self, captures: &mut Captures) -> Result<Option<Match>, Error>
        ensures found { IfOk result (λ found. IfSome found (IsFirstMatch (search_in W.word_chars self.old.program.now self.old.input) captures.new)) }
        ensures none { IfOk result (λ found. IfNone found (HasNoFirstMatch (search_in W.word_chars self.old.program.now self.old.input))) }
        ensures within { IfOk result (λ found. IfSome found (IsInSpan self.old.input)) }
        ensures advanced { IfOk result (λ found. IfSome found (λ m. self.new.input ≡ with_start self.old.input m.span.end)) }
        ensures exhausted { IfOk result (λ found. IfNone found (self.new.input ≡ self.old.input)) }
        ensures kept { OnErr result (self.new.input ≡ self.old.input) }
        ensures program { self.new.program ≡ self.old.program }
        ensures refused { IfErr result (λ e. e ≡ OutOfMemory) }
        ensures last { self.new.last_end ≡ self.old.last_end }
        ensures kept_groups { captures.new.groups ≡ captures.old.groups }
        ensures kept_slots { length captures.new.offsets ≡ length captures.old.offsets }
        ensures cleared { IfOk result (λ found. IfNone found (IsCleared captures.old captures.new)) }
        ensures cleared_by_error { OnErr result (IsCleared captures.old captures.new) }
    {
        captures.clear();
        if self.input.is_done() {
            return Ok(None);
        }
        let mut ahead = self.take_ahead()?;
        let found = ahead.find(self.input.start(), captures);
        self.ahead = Some(ahead);
        let Some(found) = found? else {
            return Ok(None);
        };
        self.input.set_start(found.end());
        Ok(Some(found))
    }

    // All matches that are left, taken out of this.
    fn take_ahead(&mut self) -> Result<Ahead<'p, 'h, W>, Error>
        requires { self.old.input.span.start ≤ self.old.input.span.end }
        ensures left { IfOk result (λ a. IsRestOf (search_in W.word_chars a.program a.input) (search_in W.word_chars self.old.program.now self.old.input)) }
        ensures input { self.new.input ≡ self.old.input }
        ensures program { self.new.program ≡ self.old.program }
        ensures last { self.new.last_end ≡ self.old.last_end }
        ensures refused { IfErr result (λ e. e ≡ OutOfMemory) }
    {
        match self.ahead.take() {
            Some(ahead) => Ok(ahead),
            None => Ahead::of(self.alloc, self.program, &self.input),
        }
    }

    // Whether a match is empty, and where the last one ended.
    fn repeats(&self, found: &Match) -> bool
        ensures yes { result ≡ true → (found.now.span.start ≡ found.now.span.end) × (self.now.last_end ≡ Some found.now.span.end) }
        ensures no { result ≡ false → found.now.span.start ≡ found.now.span.end → ¬ (self.now.last_end ≡ Some found.now.span.end) }
    {
        found.is_empty() && self.last_end == Some(found.end())
    }

    // Whether the program takes haystacks for text, and a match is empty and within a character.
    fn splits(&self, found: &Match) -> bool
        ensures yes { result ≡ true → (self.now.program.now.utf8 ≡ true) × (found.now.span.start ≡ found.now.span.end)
            × (¬ (IsCharBoundary self.now.input.haystack found.now.span.end)) }
        ensures no { result ≡ false → self.now.program.now.utf8 ≡ true → found.now.span.start ≡ found.now.span.end →
            IsCharBoundary self.now.input.haystack found.now.span.end }
    {
        self.program.is_utf8() && found.is_empty() && !self.input.is_char_boundary(found.end())
    }

    // Where the search goes on after an empty match within a character. As in the original, an anchored one ends there.
    fn after_split(&self, end: usize) -> usize
        requires { end ≤ self.now.input.span.end }
        ensures on { end < result }
        ensures anchored { ¬ (self.now.input.anchored ≡ No) → result ≡ self.now.input.span.end + 1 }
        ensures free { self.now.input.anchored ≡ No → result ≡ end + 1 }
    {
        let last = self.input.end();
        if self.input.get_anchored().is_anchored() {
            last + 1
        } else {
            end + 1
        }
    }
}

// How many bytes are to spare after a search from a position, whose match ends at another and whose pass stopped at a third.
fn spare_after(spare: usize, start: usize, end: usize, stopped: usize) -> usize
    ensures { spare + SPARE_FOR_A_BYTE * (end - start + 1) < 2 ^ 64
        → result ≡ spare + SPARE_FOR_A_BYTE * (end - start + 1) - (stopped - end) }
{
    let gone = end.saturating_sub(start).saturating_add(1);
    let gained = gone.saturating_mul(SPARE_FOR_A_BYTE);
    let read_behind = stopped.saturating_sub(end);
    spare.saturating_add(gained).saturating_sub(read_behind)
}
