//! Classes of assertions, and word predicates, one of them of the tests' own.
ghost use Rattle.std.specs.Prelude.{◌≡◌, true};
ghost use Rattle.rsc_look.specs.Keeping.{IsCoarsestMap};
ghost use Rattle.rsc_look.specs.Words.{is_unicode_word};

use rsc_alphabet::{ByteClassSet, ByteClasses};
use rsc_look::{AsciiWord, Look, LookMatcher, UnicodeWord, WordClass};

#[test]
fn word_characters(rt: HostRuntime) {
    for (c, ascii, unicode) in [
        ('a', true, true),
        ('_', true, true),
        ('-', false, false),
        ('\u{7F}', false, false),
        ('\u{B5}', false, true),
        ('\u{10180}', false, false),
        ('𝛃', false, true),
        ('\u{200C}', false, true),
        ('\u{200D}', false, true),
        ('\u{200B}', false, false),
        ('\u{203F}', false, true),
        ('\u{0300}', false, true),
    ] {
        let are_word_characters = [AsciiWord.is_word(c), UnicodeWord.is_word(c)];
        assert!(rt; are_word_characters == [ascii, unicode], "{c:?}");
    }
}

// The classes with the word characters of Unicode, for another terminator: a caller that meets what `classes_of` asks.
fn unicode_classes(terminator: u8, looks: &[Look]) -> ByteClasses
    ensures { IsCoarsestMap result looks.now terminator is_unicode_word }
{
    let mut matcher = LookMatcher::default();
    matcher.set_line_terminator(terminator).classes_of(looks)
}

// Whether the classes begin at these bytes alone.
fn begin_at(classes: &ByteClasses, first_bytes: &[u8]) -> bool {
    let mut class = 0usize;
    for byte in 0..=255u8 {
        if byte > 0 && first_bytes.contains(&byte) {
            class = class.saturating_add(1);
        }
        if usize::from(classes.get(byte)) != class {
            return false;
        }
    }
    classes.alphabet_len() - 1 == first_bytes.len()
}

#[test]
fn coarsest_classes(rt: HostRuntime) {
    let rows: [(u8, &[Look], &[u8]); 11] = [
        (b'\n', &[], &[0]),
        (b'\n', &[Look::Start, Look::End], &[0]),
        (0, &[Look::StartLF], &[0, 1]),
        (0, &[Look::EndLF], &[0, 1]),
        (255, &[Look::StartLF], &[0, 255]),
        (b'\n', &[Look::StartCRLF], &[0, 0x0A, 0x0B, 0x0D, 0x0E]),
        (
            b'\n',
            &[Look::EndLF, Look::EndCRLF],
            &[0, 0x0A, 0x0B, 0x0D, 0x0E],
        ),
        (
            b'\n',
            &[Look::WordUnicode],
            &[0, 0x30, 0x3A, 0x41, 0x5B, 0x5F, 0x60, 0x61, 0x7B],
        ),
        (
            b'\n',
            &[Look::WordEndHalfAscii, Look::WordEndHalfAscii],
            &[0, 0x30, 0x3A, 0x41, 0x5B, 0x5F, 0x60, 0x61, 0x7B],
        ),
        (
            b'\n',
            &[Look::StartLF, Look::WordAscii],
            &[
                0, 0x0A, 0x0B, 0x30, 0x3A, 0x41, 0x5B, 0x5F, 0x60, 0x61, 0x7B,
            ],
        ),
        (
            b'A',
            &[Look::StartLF, Look::WordAscii],
            &[0, 0x30, 0x3A, 0x41, 0x42, 0x5B, 0x5F, 0x60, 0x61, 0x7B],
        ),
    ];
    for (terminator, looks, first_bytes) in rows {
        let classes = unicode_classes(terminator, looks);
        assert!(rt; begin_at(&classes, first_bytes), "{looks:?}");
    }
}

#[test]
fn boundaries_of_one_assertion(rt: HostRuntime) {
    let mut set = ByteClassSet::empty();
    LookMatcher::new(AsciiWord).add_to_byteset(Look::StartLF, &mut set);
    set.set_range(b'a', b'z');
    assert_eq!(rt; set.byte_classes().alphabet_len(), 6);
}

// Every character is a word character.
#[derive(Drop)]
struct Everything;

impl WordClass for Everything {
    ghost word_chars = { λ _ _. true };

    fn is_word(&self, _c: char) -> bool {
        true
    }
}

#[test]
fn another_choice_of_word_characters(rt: HostRuntime) {
    let every = LookMatcher::new(Everything);
    let is_unicode = every.matches(Look::WordUnicode, b" ", 0);
    let is_ascii = every.matches(Look::WordAscii, b" ", 0);
    let len = every.classes_of(&[Look::WordUnicode]).alphabet_len();
    assert!(rt; is_unicode && !is_ascii && len == 10);
}
