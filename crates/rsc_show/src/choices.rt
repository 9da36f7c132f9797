//! What the arguments choose: word characters, and when to use colour.
ghost use Rattle.rsc_look.specs.Keeping.{AgreesWithAscii};
ghost use Rattle.rsc_show.specs.declared.choices.WordPredicate.{WordPredicate};
ghost use Rattle.rsc_show.specs.Chosen.{chosen_word_chars};

use rsc_look::{AsciiWord, UnicodeWord, WordClass};

/// Which characters are word characters.
#[derive(Clone, Copy, Drop)]
pub enum WordPredicate {
    /// The word bytes alone.
    Ascii,
    /// Those of Unicode.
    Unicode,
}

impl WordClass for WordPredicate {
    ghost word_chars = { chosen_word_chars };

    fn is_word(&self, c: char) -> bool {
        match self {
            WordPredicate::Ascii => AsciiWord.is_word(c),
            WordPredicate::Unicode => UnicodeWord.is_word(c),
        }
    }
}

/// Below 128 both choices are the word bytes.
pub fn word_predicates_agree()
    ensures { (predicate : WordPredicate) → AgreesWithAscii (chosen_word_chars predicate) }
{}

/// The choice that an argument names.
pub fn word_predicate_of(argument: &str) -> Option<WordPredicate> {
    if argument == "ascii" {
        Some(WordPredicate::Ascii)
    } else if argument == "unicode" {
        Some(WordPredicate::Unicode)
    } else {
        None
    }
}

/// When to use colour.
#[derive(Clone, Copy, Drop)]
pub enum Color {
    /// Where the output is a terminal that wants it.
    Auto,
    /// Always.
    Always,
    /// Never.
    Never,
}

impl Color {
    /// Whether to use colour, for an output that wants it or not.
    pub fn is_used(self, wanted: bool) -> bool {
        match self {
            Color::Auto => wanted,
            Color::Always => true,
            Color::Never => false,
        }
    }
}

/// The choice that an argument names.
pub fn color_of(argument: &str) -> Option<Color> {
    if argument == "auto" {
        Some(Color::Auto)
    } else if argument == "always" {
        Some(Color::Always)
    } else if argument == "never" {
        Some(Color::Never)
    } else {
        None
    }
}
