//! What searches by a program keep from one to the next.
ghost use Rattle.std.specs.Prelude.{◌≡◌, IfOk, IfErr, IfSome, IfNone, OnErr, None, length};
ghost use Rattle.rsc_engine.specs.declared.error.Error.TheVariants.{OutOfMemory};
ghost use Rattle.rsc_engine.specs.Searches.{search_in};
ghost use Rattle.rsc_engine.specs.Preferred.{HasNoFirstMatch, IsFirstMatch, IsCleared, IsInSpan};

use crate::dfa::MOST_ROWS;
use crate::{AsciiCompatible, Dfa, Error, Matches, Program};
use rsc_captures::Captures;
use rsc_look::WordClass;
use rsc_search::{Input, Match};
use std::alloc::Global;
use std::marker::Model;

/// What searches by a program keep from one to the next: the rows of a DFA, and the memory of its passes. It serves many short haystacks,
/// as the lines of a file.
///
/// # Examples
///
/// ```
/// // [a-z]+
/// let builder = Builder::new(rt.alloc());
/// let letters = builder.plus(builder.range(b'a', b'z'))?;
/// let program = builder.build(AsciiWord, true, letters)?;
/// let mut captures = program.captures(rt.alloc())?;
/// let mut cache = Cache::new(rt.alloc(), &program)?;
/// assert!(rt; cache.find(&Input::new(b"1"), &mut captures)?.is_none());
/// let found = cache.find(&Input::new(b"1 a"), &mut captures)?;
/// assert!(rt; found.is_some_and(|it| it.start() == 2));
/// ```
#[derive(Drop)]
pub struct Cache<'p, W: WordClass> {
    pub(crate) alloc: Global,
    pub(crate) program: &'p Program<W>,
    pub(crate) dfa: Dfa<'p, W>,
}

impl<'p, W: WordClass> Model for Cache<'p, W> {
    ghost use Rattle.std.specs.Prelude.{◌≡◌};
    ghost use Rattle.rsc_engine.specs.Searches.{Compiled};

    ghost Value = { Compiled W };

    ghost view = { λ c. c.program.now };

    ghost invariant = { λ c. c.dfa ≡ c.program.now };
}

impl<'p, W: WordClass + AsciiCompatible> Cache<'p, W> {
    /// An empty cache for searches by the program.
    ///
    /// # Errors
    ///
    /// Out of memory. Today it asks for none.
    pub fn new(alloc: Global, program: &'p Program<W>) -> Result<Cache<'p, W>, Error>
        ensures made { IfOk result (λ c. c ≡ program.now) }
        ensures refused { IfErr result (λ e. e ≡ OutOfMemory) }
    {
        Ok(Cache {
            alloc,
            program,
            dfa: Dfa::new(alloc, program, MOST_ROWS),
        })
    }

    /// The leftmost-first match in an input's span, as [`find`](crate::find) answers it.
    ///
    /// # Errors
    ///
    /// Out of memory, as of [`find`](crate::find). Later searches still work.
    pub fn find(
        &mut self,
        input: &Input<'_>,
        captures: &mut Captures,
    ) -> Result<Option<Match>, Error>
        ensures kept { self.new ≡ self.old }
        ensures found { IfOk result (λ found. IfSome found (IsFirstMatch (search_in W.word_chars self.old input.now) captures.new)) }
        ensures none { IfOk result (λ found. IfNone found (HasNoFirstMatch (search_in W.word_chars self.old input.now))) }
        ensures kept_groups { captures.new.groups ≡ captures.old.groups }
        ensures kept_slots { length captures.new.offsets ≡ length captures.old.offsets }
        ensures cleared { IfOk result (λ found. IfNone found (IsCleared captures.old captures.new)) }
        ensures cleared_by_error { OnErr result (IsCleared captures.old captures.new) }
        ensures within { IfOk result (λ found. IfSome found (IsInSpan input.now)) }
        ensures refused { IfErr result (λ e. e ≡ OutOfMemory) }
    {
        self.dfa.find(input, captures)
    }

    /// All matches in an input's span, over what the cache has. [`Matches::into_cache`] gives it back.
    ///
    /// # Errors
    ///
    /// Out of memory, and the cache is dropped then. Today it asks for none.
    ///
    /// # Examples
    ///
    /// ```
    /// // [a-z]+
    /// let builder = Builder::new(rt.alloc());
    /// let letters = builder.plus(builder.range(b'a', b'z'))?;
    /// let program = builder.build(AsciiWord, true, letters)?;
    /// let mut captures = program.captures(rt.alloc())?;
    /// let mut matches = Cache::new(rt.alloc(), &program)?.matches(Input::new(b"a"))?;
    /// assert!(rt; matches.next(&mut captures)?.is_some());
    /// assert!(rt; matches.next(&mut captures)?.is_none());
    /// // The next haystack.
    /// let mut matches = matches.into_cache().matches(Input::new(b"1"))?;
    /// assert!(rt; matches.next(&mut captures)?.is_none());
    /// ```
    pub fn matches<'h>(self, input: Input<'h>) -> Result<Matches<'p, 'h, W>, Error>
        ensures made { IfOk result (λ m. m ≡ record { program = self.entry; input = input.entry; last = None }) }
        ensures refused { IfErr result (λ e. e ≡ OutOfMemory) }
    {
        Ok(Matches::of_cache(self, input))
    }
}
