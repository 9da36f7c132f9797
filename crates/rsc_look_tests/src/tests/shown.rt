//! Shown values, clones that can be refused, and the traits of each type.
ghost use Rattle.std.specs.Prelude.{true};

use rsc_look::{
    AsciiWord, Look, LookMatcher, LookSet, LookSetIter, UnicodeWord, UnicodeWordBoundaryError,
    WordClass,
};
use std::alloc::{AllocError, Global};
use std::cell::Cell;
use std::error::Error;
use std::fmt;

// Whether a value is shown by this text.
fn is_debug<T: fmt::Debug>(alloc: Global, value: &T, want: &str) -> bool {
    match format!(in alloc; "{value:?}") {
        Ok(text) => text.as_str() == want,
        Err(_) => false,
    }
}

// Whether a set is shown by this text, in lines too.
fn is_set_shown(alloc: Global, set: LookSet, want: &str) -> bool {
    match format!(in alloc; "{set:#?}") {
        Ok(text) => text.as_str() == want && is_debug(alloc, &set, want),
        Err(_) => false,
    }
}

// Whether an assertion is shown by its name, and the set of it by its character.
fn is_shown(alloc: Global, look: Look, name: &str) -> bool {
    let mut buffer = [0u8; 4];
    let character = &*look.as_char().encode_utf8(&mut buffer);
    is_debug(alloc, &look, name) && is_debug(alloc, &LookSet::singleton(look), character)
}

#[test]
fn assertions_are_shown(rt: HostRuntime) {
    for (look, want) in [
        (Look::Start, "Start"),
        (Look::End, "End"),
        (Look::StartLF, "StartLF"),
        (Look::EndLF, "EndLF"),
        (Look::StartCRLF, "StartCRLF"),
        (Look::EndCRLF, "EndCRLF"),
        (Look::WordAscii, "WordAscii"),
        (Look::WordAsciiNegate, "WordAsciiNegate"),
        (Look::WordUnicode, "WordUnicode"),
        (Look::WordUnicodeNegate, "WordUnicodeNegate"),
        (Look::WordStartAscii, "WordStartAscii"),
        (Look::WordEndAscii, "WordEndAscii"),
        (Look::WordStartUnicode, "WordStartUnicode"),
        (Look::WordEndUnicode, "WordEndUnicode"),
        (Look::WordStartHalfAscii, "WordStartHalfAscii"),
        (Look::WordEndHalfAscii, "WordEndHalfAscii"),
        (Look::WordStartHalfUnicode, "WordStartHalfUnicode"),
        (Look::WordEndHalfUnicode, "WordEndHalfUnicode"),
    ] {
        assert!(rt; is_shown(rt.alloc(), look, want), "{want}");
    }
}

#[test]
fn sets_are_shown_by_their_members(rt: HostRuntime) {
    let two = LookSet::singleton(Look::Start).insert(Look::EndLF);
    for (set, want) in [
        (LookSet::empty(), "∅"),
        (two, "A$"),
        (two.insert(Look::WordUnicode), "A$𝛃"),
        (
            two.insert(Look::WordUnicode).insert(Look::WordAscii),
            "A$b𝛃",
        ),
        (LookSet::full().remove(Look::Start), "z^$rRbB𝛃𝚩<>〈〉◁▷◀▶"),
    ] {
        assert!(rt; is_set_shown(rt.alloc(), set, want), "{want}");
    }
}

#[test]
fn matchers_are_shown_with_their_parts(rt: HostRuntime) {
    let mut matcher = LookMatcher::new(AsciiWord);
    matcher.set_line_terminator(7);
    let want = "LookMatcher { line_terminator: 7, word_class: AsciiWord }";
    assert!(rt; is_debug(rt.alloc(), &matcher, want));
    matcher.set_line_terminator(0xFF);
    let want = "LookMatcher { line_terminator: 255, word_class: AsciiWord }";
    assert!(rt; is_debug(rt.alloc(), &matcher, want));
}

fn is_assertion<T: Copy + Eq + fmt::Debug>() {}

fn is_set<T: Copy + Default + Eq + fmt::Debug>() {}

fn is_walked<T: Clone + fmt::Debug + Iterator>() {}

fn is_choice<T: Copy + fmt::Debug + Default + WordClass>() {}

fn is_error<T: Clone + fmt::Debug + fmt::Display + Error>() {}

fn is_matcher<T: Default + fmt::Debug>() {}

#[test]
fn traits_of_each_type(_rt: HostRuntime) {
    is_assertion::<Look>();
    is_set::<LookSet>();
    is_walked::<LookSetIter>();
    is_choice::<AsciiWord>();
    is_choice::<UnicodeWord>();
    is_error::<UnicodeWordBoundaryError>();
    is_matcher::<LookMatcher<UnicodeWord>>();
}

// A word predicate whose clones are counted, and whose second clone is refused.
#[derive(Drop)]
struct OnceCloned<'a> {
    clones: &'a Cell<u8>,
}

impl Clone for OnceCloned<'_> {
    fn clone(&self) -> Result<Self, AllocError> {
        let count = self.clones.get();
        self.clones.set(count.saturating_add(1));
        if count > 0 {
            return Err(AllocError);
        }
        Ok(OnceCloned {
            clones: self.clones,
        })
    }
}

impl WordClass for OnceCloned<'_> {
    ghost word_chars = { λ _ _. true };

    fn is_word(&self, _c: char) -> bool {
        true
    }
}

#[test]
fn a_matcher_clones_its_word_characters_once(rt: HostRuntime) {
    let clones = Cell::new(0);
    let matcher = LookMatcher::new(OnceCloned { clones: &clones });
    assert!(rt; matcher.clone().is_ok() && clones.get() == 1);
    assert!(rt; matcher.clone().is_err() && clones.get() == 2);
}
