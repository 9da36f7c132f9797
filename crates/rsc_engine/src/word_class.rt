//! Word predicates that are those of ASCII below 128.
ghost use Rattle.rsc_look.specs.Keeping.{AgreesWithAscii};

use rsc_look::{AsciiWord, UnicodeWord, WordClass};

/// A word predicate whose word characters below 128 are the word bytes. A DFA is made of a program with such a predicate, so that beside ASCII
/// it can answer an assertion about characters by the bytes.
///
/// # Examples
///
/// ```
/// // The searches take a program over `UnicodeWord`, since it is such a predicate.
/// let builder = Builder::new(rt.alloc());
/// let start = builder.assertion(Look::WordStartUnicode);
/// let program = builder.build(UnicodeWord, true, start)?;
/// let mut captures = program.captures(rt.alloc())?;
/// let found = find(
///     rt.alloc(),
///     &program,
///     &Input::new("-é".as_bytes()),
///     &mut captures,
/// )?;
/// assert!(rt; found.is_some_and(|it| it.start() == 1));
/// ```
pub trait AsciiCompatible: WordClass {
    /// States that the word characters below 128 are the word bytes, for a proof. It does nothing.
    fn agrees_with_ascii()
        ensures { (word_class : Self) → AgreesWithAscii (Self.word_chars word_class) };
}

impl AsciiCompatible for AsciiWord {
    fn agrees_with_ascii() {
        rsc_look::laws::words_agree_with_ascii();
    }
}

impl AsciiCompatible for UnicodeWord {
    fn agrees_with_ascii() {
        rsc_look::laws::words_agree_with_ascii();
    }
}
