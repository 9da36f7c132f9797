//! The first match.
ghost use Rattle.std.specs.Prelude.{◌≡◌, IfOk, IfErr, IfSome, IfNone, OnErr, length};
ghost use Rattle.rsc_engine.specs.declared.error.Error.TheVariants.{OutOfMemory};
ghost use Rattle.rsc_engine.specs.Searches.{search_in};
ghost use Rattle.rsc_engine.specs.Preferred.{IsFirstMatch, HasNoFirstMatch, IsCleared, IsInSpan};

use crate::dfa::MOST_ROWS;
use crate::{AsciiCompatible, Dfa, Error, Program};
use rsc_captures::Captures;
use rsc_look::WordClass;
use rsc_search::{Input, Match};
use std::alloc::Global;

/// The leftmost-first match in an input's span: of the matches that begin first, the preferred one. Its groups are in
/// the captures afterwards; without a match, and after an error, no slot is set.
///
/// The match may be empty, and then within a character: only an iteration leaves such matches out.
///
/// An anchored input's match begins at the span's start, and with `Anchored::Pattern` only that pattern may match.
///
/// # Errors
///
/// Out of memory; so it is, too, where a program of more states than 2,147,483,646 has a match.
///
/// # Examples
///
/// ```
/// // [a-z]+
/// let builder = Builder::new(rt.alloc());
/// let letters = builder.plus(builder.range(b'a', b'z'))?;
/// let program = builder.build(AsciiWord, true, letters)?;
/// let mut captures = program.captures(rt.alloc())?;
/// let found = find(rt.alloc(), &program, &Input::new(b"12 ab"), &mut captures)?;
/// assert!(rt; found.map(|it| it.span()) == Some(Span { start: 3, end: 5 }));
/// assert!(rt; find(rt.alloc(), &program, &Input::new(b"12"), &mut captures)?.is_none());
/// ```
pub fn find<W: WordClass + AsciiCompatible>(
    alloc: Global,
    program: &Program<W>,
    input: &Input<'_>,
    captures: &mut Captures,
) -> Result<Option<Match>, Error>
    ensures found { IfOk result (λ found. IfSome found (IsFirstMatch (search_in W.word_chars program.now input.now) captures.new)) }
    ensures none { IfOk result (λ found. IfNone found (HasNoFirstMatch (search_in W.word_chars program.now input.now))) }
    ensures kept_groups { captures.new.groups ≡ captures.old.groups }
    ensures kept_slots { length captures.new.offsets ≡ length captures.old.offsets }
    ensures cleared { IfOk result (λ found. IfNone found (IsCleared captures.old captures.new)) }
    ensures cleared_by_error { OnErr result (IsCleared captures.old captures.new) }
    ensures within { IfOk result (λ found. IfSome found (IsInSpan input.now)) }
    ensures refused { IfErr result (λ e. e ≡ OutOfMemory) }
{
    let mut dfa = Dfa::new(alloc, program, MOST_ROWS);
    dfa.find(input, captures)
}
