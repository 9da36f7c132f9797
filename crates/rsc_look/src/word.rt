//! What counts as a word character.
ghost use Rattle.std.specs.Prelude.{◌≡◌, ℕ, Bool};
ghost use Rattle.rsc_primitives.specs.Utf8.{is_word_byte};
ghost use Rattle.rsc_look.specs.Words.{is_unicode_word};

use rsc_primitives::utf8;
use unicode::perl;

/// A word predicate: which characters are word characters, as the six Unicode assertions ask.
///
/// A contract names a value's word characters by `word_chars`, the test that they pass.
///
/// A predicate of your own is a type with these two members; `rsc_uses::look::Letters` is one.
pub trait WordClass: Drop {
    /// The word characters that the value stands for.
    ghost word_chars: { Self → ℕ → Bool };

    /// Whether a character is a word character.
    fn is_word(&self, c: char) -> bool
        ensures { result ≡ word_chars self.now c };
}

/// The word bytes `0-9`, `A-Z`, `_` and `a-z`, and no character past ASCII.
///
/// # Examples
///
/// ```
/// assert!(rt; AsciiWord.is_word('a') && AsciiWord.is_word('_') && !AsciiWord.is_word('ß'));
/// ```
#[derive(Clone, Copy, Debug, Default)]
pub struct AsciiWord;

impl WordClass for AsciiWord {
    ghost word_chars = { λ _ c. is_word_byte c };

    #[inline(always)]
    fn is_word(&self, c: char) -> bool {
        match u8::try_from(c as u32) {
            Ok(b) => utf8::is_word_byte(b),
            Err(_) => false,
        }
    }
}

/// The word characters of Unicode, by Unicode Technical Standard 18, Annex C: below 128 the word bytes, which no table is
/// asked for; from 128 on what is alphabetic, a mark, a decimal number, connector punctuation or a joiner, by one look-up
/// in the tables of the crate `unicode`.
///
/// # Examples
///
/// ```
/// assert!(rt; UnicodeWord.is_word('ß') && UnicodeWord.is_word('_') && !UnicodeWord.is_word('-'));
/// ```
#[derive(Clone, Copy, Debug, Default)]
pub struct UnicodeWord;

impl WordClass for UnicodeWord {
    ghost word_chars = { λ _ c. is_unicode_word c };

    #[tactic(auto, using(crate::proofs::WordsLemmas::is_word_char_is_unicode_word))]
    #[inline(always)]
    fn is_word(&self, c: char) -> bool {
        let number = c as u32;
        if number < 128 {
            utf8::is_word_byte(number as u8)
        } else {
            perl::is_word_character(c)
        }
    }
}
