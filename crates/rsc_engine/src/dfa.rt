//! A lazy DFA: a table of rows that searches fill as they go.
//!
//! The table serves two passes: forward a row is an ordered list ([`ordered`] looks at it), and says where the leftmost-first match ends, or the first one to
//! end ([`forward`]); backward it has the states from which a match is reached ([`retreat`] goes a step back), and says where the match begins ([`backward`])
//! and, by the rows that were come to, what it records ([`along`]), where that is more than its ends ([`whole`]), until it comes to a [`quiet`] state. One
//! backward pass over a whole span finds all matches [`ahead`]. The [`plan`] has what stays the same. [`needed`] finds bytes that each match has, without which
//! no row is looked at, and [`first_bytes`] those with which each begins, so that a pass begins at the first of them.
ghost use Rattle.std.specs.Prelude.{◌≡◌, ◌+◌, ◌<◌, ◌≤◌, ℕ, IfOk, IfErr, IfSome, IfNone, OnErr, true, false, length};
ghost use Rattle.rsc_primitives.specs.Indices.{max_index};
ghost use Rattle.rsc_search.specs.declared.anchored.Anchored.TheVariants.{No};
ghost use Rattle.rsc_engine.specs.declared.error.Error.TheVariants.{OutOfMemory};
ghost use Rattle.rsc_engine.specs.Searches.{search_in};
ghost use Rattle.rsc_engine.specs.Runs.{HasNoMatchFrom};
ghost use Rattle.rsc_engine.specs.Preferred.{HasNoFirstMatch, IsFirstMatch, IsCleared, IsInSpan};
ghost use Rattle.rsc_engine.specs.Ends.{IsEarliestEnd, IsLeftmostEnd};
ghost use Rattle.rsc_engine.specs.RowsLayout.{machine, IsPlan};
ghost use Rattle.rsc_engine.specs.PassTableLayout.{IsPassTable};
ghost use Rattle.rsc_engine.specs.OrderedLayout.{IsEndOf};

mod ahead;
mod along;
mod backward;
mod backward_steps;
mod begin_rows;
mod beyond;
mod entries;
mod first_bytes;
mod forward;
mod forward_steps;
mod lawful;
mod near;
mod needed;
mod ordered;
mod pass_entries;
mod pass_table;
mod plan;
mod quiet;
mod retreat;
mod whole;

use crate::{AsciiCompatible, Error, Program};
pub(crate) use ahead::Ahead;
use along::{Walk, match_along};
use backward::part_from;
use first_bytes::FirstBytes;
use forward::first_end;
use needed::Needed;
use pass_table::PassTable;
use plan::Plan;
use quiet::loud_states;
use rsc_captures::Captures;
use rsc_look::WordClass;
use rsc_primitives::PatternID;
use rsc_search::{Input, Match};
use std::alloc::Global;
use std::marker::Model;
use whole::records_only_ends;

// A span of fewer bytes is a short one.
const LONG: usize = 4096;

// That many states have numbers.
const MOST_NUMBERED: usize = 2147483646;

/// How many rows a search keeps at most, unless its caller says.
pub(crate) const MOST_ROWS: usize = 1000;

/// A DFA of a program. It makes a row when a search first comes to it, and keeps it for later searches.
///
/// A search takes time in proportion to the bytes that it reads, once the rows that it comes to are there.
///
/// # Examples
///
/// ```
/// // [a-z]+
/// let builder = Builder::new(rt.alloc());
/// let letters = builder.plus(builder.range(b'a', b'z'))?;
/// let program = builder.build(AsciiWord, true, letters)?;
/// let mut dfa = Dfa::new(rt.alloc(), &program, 1000);
/// assert!(rt; dfa.is_match(&Input::new(b"1 ab"))? && !dfa.is_match(&Input::new(b"1"))?);
/// assert!(rt; dfa.leftmost_end(&Input::new(b"1 ab"))? == Some(4));
/// ```
pub struct Dfa<'p, W: WordClass> {
    alloc: Global,
    plan: Plan<'p, W>,
    // As many rows as are kept between searches.
    most_rows: usize,
    passes: PassTable,
    // For each position of the last match the row of the backward pass there, from its end on.
    log: Vec<u32>,
    walk: Walk,
    // Which states are loud, once that was asked.
    loud: Vec<bool>,
    // Where the last forward pass stopped.
    stopped: usize,
    // What each match has, and with which bytes it begins, if that is known, and whether it was looked for.
    needed: Option<Needed>,
    first_bytes: Option<FirstBytes>,
    is_sought: bool,
}

// Written out, so that a caller's proof has one step where a DFA is dropped.
impl<W: WordClass> Drop for Dfa<'_, W> {
    fn drop(self) {
        let Dfa {
            alloc: _,
            plan: _,
            most_rows: _,
            passes: _,
            log: _,
            walk: _,
            loud: _,
            stopped: _,
            needed: _,
            first_bytes: _,
            is_sought: _,
        } = self;
    }
}

impl<'p, W: WordClass> Model for Dfa<'p, W> {
    ghost use Rattle.rsc_engine.specs.Searches.{Compiled};
    ghost use Rattle.std.specs.Prelude.{◌≡◌, IfSome};
    ghost use Rattle.rsc_engine.specs.NeededLayout.{NeedsPair};
    ghost use Rattle.rsc_engine.specs.FirstBytesLayout.{HasFirst};
    ghost use Rattle.rsc_engine.specs.RowsLayout.{machine, IsPlan};
    ghost use Rattle.rsc_engine.specs.PassTableLayout.{IsPassTable};
    ghost use Rattle.rsc_engine.specs.QuietLayout.{AreQuiet};

    ghost Value = { Compiled W };

    ghost view = { λ d. d.plan.program.now };

    ghost invariant = { λ d. IsPlan (machine W.word_chars d.plan.program.now) d.plan.classes d.plan.width d.plan.unicode
        × IsPassTable (machine W.word_chars d.plan.program.now) d.plan.classes d.plan.width d.plan.most_rows d.passes.rows.items d.passes.leads.items
        d.passes.beyond.items
        × AreQuiet d.plan.program.now.automaton.states d.loud.items
        × IfSome d.needed (λ n. NeedsPair (machine W.word_chars d.plan.program.now) n.first n.second)
        × (d.plan.most_rows ≡ d.most_rows)
        × IfSome d.first_bytes (λ f. HasFirst (machine W.word_chars d.plan.program.now) f.range) };
}

impl<'p, W: WordClass + AsciiCompatible> Dfa<'p, W> {
    /// The DFA of a program, with no rows. It keeps at most that many rows, and one at least: when it has as many and a search needs
    /// another, it drops them all and goes on from the new one. Only as long as a search reads back what it kept of a match's bytes, to find
    /// the match's groups, there may be more.
    pub fn new(alloc: Global, program: &'p Program<W>, most_rows: usize) -> Dfa<'p, W>
        ensures { result ≡ program.now }
    {
        // No wrong body: the clause is of the program, and no other one is at hand.
        Dfa {
            alloc,
            plan: Plan::new(program, most_rows),
            most_rows,
            passes: PassTable::new(alloc),
            log: Vec::new(alloc),
            walk: Walk::new(alloc),
            loud: Vec::new(alloc),
            stopped: 0,
            needed: None,
            first_bytes: None,
            is_sought: false,
        }
    }

    // Looks for what each match has, and with what it begins, once.
    fn find_needed(&mut self)
        ensures { self.new ≡ self.old }
    {
        if !self.is_sought {
            self.is_sought = true;
            self.needed = Needed::of(self.plan.program);
            self.first_bytes = FirstBytes::of(self.plan.program);
        }
    }

    // Whether the input lacks what each match has. Only a long span is looked through.
    fn lacks_needed(&mut self, input: &Input<'_>) -> bool
        ensures kept { self.new ≡ self.old }
        ensures none { result ≡ true → HasNoFirstMatch (search_in W.word_chars self.old input.now) }
    {
        if !is_long(input) {
            return false;
        }
        self.find_needed();
        let Some(needed) = self.needed else {
            return false;
        };
        needed.are_missing(self.plan.program, input)
    }

    // Looks for the loud states, once, if the captures are for more than the ends of matches.
    fn find_loud_states(&mut self, captures: &Captures) -> Result<(), Error>
        requires { length self.old.automaton.states ≤ max_index }
        ensures kept { self.new ≡ self.old }
        ensures refused { IfErr result (λ e. e ≡ OutOfMemory) }
    {
        let program = self.plan.program;
        if self.loud.len() == program.state_len() || records_only_ends(program, captures) {
            return Ok(());
        }
        self.loud = loud_states(self.alloc, program)?;
        Ok(())
    }

    /// The least position in the input's span at which a match ends, among the matches that begin where one may; `None` if none begins there.
    ///
    /// # Errors
    ///
    /// Out of memory. Later searches still work.
    ///
    /// # Examples
    ///
    /// ```
    /// // [a-z]+, and \b, which looks at characters.
    /// let mut builder = Builder::new(rt.alloc());
    /// let letters = builder.plus(builder.range(b'a', b'z'))?;
    /// builder.add_pattern(letters)?;
    /// let boundary = builder.assertion(Look::WordUnicode);
    /// let program = builder.build(UnicodeWord, true, boundary)?;
    /// let mut dfa = Dfa::new(rt.alloc(), &program, 1000);
    /// assert!(rt; dfa.earliest_end(&Input::new(b"- a"))? == Some(2));
    /// assert!(rt; dfa.earliest_end(&Input::new(b"--"))? == None);
    /// assert!(rt; dfa.earliest_end(&Input::new("-é".as_bytes()))? == Some(1));
    /// ```
    pub fn earliest_end(&mut self, input: &Input<'_>) -> Result<Option<usize>, Error>
        ensures kept { self.new ≡ self.old }
        ensures found { IfOk result (λ found. IfSome found (IsEarliestEnd (search_in W.word_chars self.old input.now))) }
        ensures none { IfOk result (λ found. IfNone found (HasNoFirstMatch (search_in W.word_chars self.old input.now))) }
        ensures refused { IfErr result (λ e. e ≡ OutOfMemory) }
    {
        match self.end_of(input, true)? {
            None => Ok(None),
            Some(first) => Ok(Some(first.1)),
        }
    }

    /// Whether a match begins where one may, in the span of the input.
    ///
    /// # Errors
    ///
    /// Out of memory.
    pub fn is_match(&mut self, input: &Input<'_>) -> Result<bool, Error>
        ensures kept { self.new ≡ self.old }
        ensures found { IfOk result (λ found. found ≡ true → ¬ (HasNoFirstMatch (search_in W.word_chars self.old input.now))) }
        ensures none { IfOk result (λ found. found ≡ false → HasNoFirstMatch (search_in W.word_chars self.old input.now)) }
        ensures refused { IfErr result (λ e. e ≡ OutOfMemory) }
    {
        match self.earliest_end(input)? {
            None => Ok(false),
            Some(_) => Ok(true),
        }
    }

    /// The leftmost-first match in an input's span, as [`find`](crate::find) answers it. The rows say whether there is one, where it begins and ends, and what
    /// its groups are. Besides its rows a search takes 4 bytes for each byte that it reads back from the match's end.
    ///
    /// # Errors
    ///
    /// Out of memory; so it is, too, where a program of more states than 2,147,483,646 has a match.
    pub fn find(
        &mut self,
        input: &Input<'_>,
        captures: &mut Captures,
    ) -> Result<Option<Match>, Error>
        ensures kept { self.new ≡ self.old }
        ensures found { IfOk result (λ found. IfSome found (IsFirstMatch (search_in W.word_chars self.old input.now) captures.new)) }
        ensures none { IfOk result (λ found. IfNone found (HasNoFirstMatch (search_in W.word_chars self.old input.now))) }
        ensures kept_groups { captures.new.groups ≡ captures.old.groups }
        ensures kept_slots { length captures.new.offsets ≡ length captures.old.offsets }
        ensures cleared { IfOk result (λ found. IfNone found (IsCleared captures.old captures.new)) }
        ensures cleared_by_error { OnErr result (IsCleared captures.old captures.new) }
        ensures within { IfOk result (λ found. IfSome found (IsInSpan input.now)) }
        ensures refused { IfErr result (λ e. e ≡ OutOfMemory) }
    {
        captures.clear();
        let Some(last) = self.end_of(input, false)? else {
            return Ok(None);
        };
        if self.plan.program.state_len() > MOST_NUMBERED {
            // Only states that have numbers are gone back through.
            return Err(Error::OutOfMemory);
        }
        self.find_loud_states(captures)?;
        // No row is dropped that the log names.
        self.plan.most_rows = usize::MAX;
        let found = match_along(
            &self.plan,
            &mut self.passes,
            &mut self.walk,
            &mut self.log,
            input,
            last.0,
            last.1,
            self.loud.as_slice(),
            captures,
        );
        self.plan.most_rows = self.most_rows;
        self.passes.keep_at_most(self.most_rows);
        Ok(Some(found?))
    }

    // The pattern of the leftmost-first match, and where it ends, or of the first match to end; `None` if no match begins where one may.
    fn end_of(
        &mut self,
        input: &Input<'_>,
        earliest: bool,
    ) -> Result<Option<(PatternID, usize)>, Error>
        ensures kept { self.new ≡ self.old }
        ensures some { earliest ≡ false → IfOk result (λ found. IfSome found (λ f. IsEndOf (search_in W.word_chars self.old input.now) f.0 f.1)) }
        ensures earliest { earliest ≡ true → IfOk result (λ found. IfSome found (λ f. IsEarliestEnd (search_in W.word_chars self.old input.now) f.1)) }
        ensures none { IfOk result (λ found. IfNone found (HasNoFirstMatch (search_in W.word_chars self.old input.now))) }
        ensures refused { IfErr result (λ e. e ≡ OutOfMemory) }
    {
        if self.lacks_needed(input) {
            return Ok(None);
        }
        let rest = part_from(input, self.first_begin(input));
        let (found, stopped) = first_end(&self.plan, &mut self.passes, &rest, earliest)?;
        self.stopped = stopped;
        Ok(found)
    }

    // The first position at which a match may begin, as far as the byte tells with which each begins.
    fn first_begin(&self, input: &Input<'_>) -> usize
        ensures low { input.now.span.start ≤ result }
        ensures high { result ≤ input.now.span.end + 1 }
        ensures none { (at : ℕ) → input.now.span.start ≤ at → at < result → HasNoMatchFrom (search_in W.word_chars self.now input.now) at }
        ensures anchored { ¬ (input.now.anchored ≡ No) → result ≡ input.now.span.start }
    {
        let start = input.start();
        let end = input.end();
        if start > end || input.get_anchored().is_anchored() {
            return start;
        }
        match self.first_bytes {
            None => start,
            Some(first) => first.next_in(input.haystack(), start, end),
        }
    }

    /// The position at which the last forward pass stopped.
    pub(crate) fn stopped(&self) -> usize {
        self.stopped
    }

    /// The position at which the leftmost-first match in an input's span ends; `None` if no match begins where one may.
    ///
    /// # Errors
    ///
    /// Out of memory.
    pub fn leftmost_end(&mut self, input: &Input<'_>) -> Result<Option<usize>, Error>
        ensures kept { self.new ≡ self.old }
        ensures found { IfOk result (λ found. IfSome found (IsLeftmostEnd (search_in W.word_chars self.old input.now))) }
        ensures none { IfOk result (λ found. IfNone found (HasNoFirstMatch (search_in W.word_chars self.old input.now))) }
        ensures refused { IfErr result (λ e. e ≡ OutOfMemory) }
    {
        match self.end_of(input, false)? {
            None => Ok(None),
            Some(last) => Ok(Some(last.1)),
        }
    }
}

// Whether an input's span is long, and a match may begin anywhere in it.
fn is_long(input: &Input<'_>) -> bool
    ensures long { result ≡ true → input.now.span.start + LONG ≤ input.now.span.end }
    ensures anywhere { result ≡ true → input.now.anchored ≡ No }
{
    !input.get_anchored().is_anchored() && input.end().saturating_sub(input.start()) >= LONG
}
