//! Which bytes the assertions can tell apart.
//!
//! An automaton over bytes needs one column for each class of bytes. The fewer boundaries an assertion adds, the fewer columns there
//! are: so no more are added than the assertion needs, and those of the word assertions are the ends of the four runs of word bytes.
ghost use Rattle.std.specs.Prelude.{◌≡◌, ◌<◌, ◌≤◌, ◌&&◌, ◌||◌, nat_le, true, ℕ};
ghost use Rattle.std.specs.List.{list_any};
ghost use Rattle.std.specs.FinSet as sets;
ghost use Rattle.std.specs.Int.{is_in_range};
ghost use Rattle.rsc_primitives.specs.Utf8.{is_word_byte};
ghost use Rattle.rsc_alphabet.specs.Partitions.{LastClassIsGreatest, class_map};
ghost use Rattle.rsc_look.specs.Looks.{is_unicode};
ghost use Rattle.rsc_look.specs.Boundaries.{word_byte_boundaries, boundaries_of_look, boundaries_of_looks};
ghost use Rattle.rsc_look.specs.Keeping.{AgreesWithAscii, AgreesWhereAsked, IsCoarsestMap, HasNeededBoundaries};

use crate::matcher::{CARRIAGE_RETURN, LINE_FEED};
use crate::{Look, LookMatcher, WordClass};
use rsc_alphabet::{ByteClassSet, ByteClasses, ByteSet};

impl<W: WordClass> LookMatcher<W> {
    /// Adds to a set the boundaries between bytes that an assertion can tell apart, and no others.
    ///
    /// A partition with these boundaries keeps the assertion: replacing bytes within their intervals changes it at no
    /// position of any haystack. For a Unicode assertion this holds for replacements within ASCII, and if the matcher's
    /// word characters below 128 are the word bytes.
    ///
    /// # Examples
    ///
    /// ```
    /// let mut set = ByteClassSet::empty();
    /// set.set_range(b'a', b'c');
    /// LookMatcher::new(AsciiWord).add_to_byteset(Look::EndLF, &mut set);
    /// let classes = set.byte_classes();
    /// assert!(rt; classes.get(b'c') != classes.get(b'd') && classes.get(b'\n') != classes.get(b'\r'));
    /// ```
    pub fn add_to_byteset(&self, look: Look, set: &mut ByteClassSet)
        ensures value { set.new ≡ sets.union set.old (boundaries_of_look look self.now.0) }
        ensures members { (b : ℕ) → sets.contains set.new b ≡ (sets.contains set.old b || sets.contains (boundaries_of_look look self.now.0) b) }
        ensures boundaries { (is_unicode look ≡ true → AgreesWithAscii (W.word_chars self.now.1)) →
            HasNeededBoundaries (sets.contains set.new) look self.now.0 (W.word_chars self.now.1) }
    {
        add_boundaries(self.get_line_terminator(), look, set);
    }

    /// The classes of bytes that the assertions of a list can't tell apart: those of the coarsest partition of the bytes
    /// into intervals that keeps them all. Allocates nothing. The original lacks it.
    ///
    /// Two bytes of one class may replace each other anywhere in any haystack, and no assertion of the list changes at any
    /// position. For a Unicode assertion this holds for replacements within ASCII, and if the matcher's word characters
    /// below 128 are the word bytes; without that the classes are still those of the list's boundaries.
    ///
    /// # Examples
    ///
    /// ```
    /// let matcher = LookMatcher::new(UnicodeWord);
    /// let classes = matcher.classes_of(&[Look::WordAscii]);
    /// assert!(rt; classes.get(b'a') == classes.get(b'z') && classes.get(b'a') != classes.get(b'-'));
    /// ```
    pub fn classes_of(&self, looks: &[Look]) -> ByteClasses
        ensures value { result ≡ class_map (sets.contains (boundaries_of_looks looks.now self.now.0)) }
        ensures coarsest { AgreesWhereAsked (W.word_chars self.now.1) looks.now →
            IsCoarsestMap result looks.now self.now.0 (W.word_chars self.now.1) }
        ensures bounded { LastClassIsGreatest result }
    {
        let mut set = ByteClassSet::empty();
        for look in looks {
            self.add_to_byteset(*look, &mut set);
        }
        set.byte_classes()
    }

    /// The bytes at which a table over bytes must stop for the Unicode assertions of a list: all from 128 on if one is listed, and none else.
    /// The original lacks it.
    ///
    /// Beside other bytes each assertion of the list is its [`Look::ascii_counterpart`], by [`crate::laws::ascii_neighbours_suffice`].
    ///
    /// # Examples
    ///
    /// ```
    /// let matcher = LookMatcher::new(UnicodeWord);
    /// let bytes = matcher.quit_bytes(&[Look::Start, Look::WordUnicode]);
    /// assert!(rt; bytes.contains(0x80) && !bytes.contains(0x7F));
    /// assert!(rt; matcher.quit_bytes(&[Look::WordAscii]).is_empty());
    /// ```
    #[tactic(auto, using(std::proofs::lemmas::Bool::Decides::nat_tests))]
    pub fn quit_bytes(&self, looks: &[Look]) -> ByteSet
        ensures { (b : ℕ) → b < 256 → sets.contains result b ≡ (list_any is_unicode looks.now && nat_le 128 b) }
    {
        let mut bytes = ByteSet::empty();
        if has_unicode(looks) {
            add_run(&mut bytes, 128, 255);
        }
        bytes
    }
}

// Whether a list has a Unicode assertion.
fn has_unicode(looks: &[Look]) -> bool
    ensures { result ≡ list_any is_unicode looks.now }
{
    looks.iter().any(|look| is_unicode(*look))
}

// Whether an assertion looks at characters.
fn is_unicode(look: Look) -> bool
    ensures { result ≡ is_unicode look }
{
    matches!(
        look,
        Look::WordUnicode
            | Look::WordUnicodeNegate
            | Look::WordStartUnicode
            | Look::WordEndUnicode
            | Look::WordStartHalfUnicode
            | Look::WordEndHalfUnicode
    )
}

// Adds the boundaries of an assertion to a set.
fn add_boundaries(line_terminator: u8, look: Look, set: &mut ByteClassSet)
    ensures { set.new ≡ sets.union set.old (boundaries_of_look look line_terminator) }
{
    match look {
        Look::Start | Look::End => {}
        Look::StartLF | Look::EndLF => set.set_range(line_terminator, line_terminator),
        Look::StartCRLF | Look::EndCRLF => {
            set.set_range(CARRIAGE_RETURN, CARRIAGE_RETURN);
            set.set_range(LINE_FEED, LINE_FEED);
        }
        Look::WordAscii
        | Look::WordAsciiNegate
        | Look::WordUnicode
        | Look::WordUnicodeNegate
        | Look::WordStartAscii
        | Look::WordEndAscii
        | Look::WordStartUnicode
        | Look::WordEndUnicode
        | Look::WordStartHalfAscii
        | Look::WordEndHalfAscii
        | Look::WordStartHalfUnicode
        | Look::WordEndHalfUnicode => add_word_byte_boundaries(set),
    }
}

// Adds the boundaries of the four runs of word bytes.
fn add_word_byte_boundaries(set: &mut ByteClassSet)
    ensures { set.new ≡ sets.union set.old word_byte_boundaries }
{
    set.add_set(&word_bytes());
}

// The word bytes.
fn word_bytes() -> ByteSet
    ensures { (b : ℕ) → sets.contains result b ≡ is_word_byte b }
{
    let mut bytes = ByteSet::empty();
    add_run(&mut bytes, b'0', b'9');
    add_run(&mut bytes, b'A', b'Z');
    add_run(&mut bytes, b'_', b'_');
    add_run(&mut bytes, b'a', b'z');
    bytes
}

// Makes the bytes from `start` to `end` members, both included.
#[inline(always)]
fn add_run(bytes: &mut ByteSet, start: u8, end: u8)
    requires { start ≤ end }
    ensures { (b : ℕ) → sets.contains bytes.new b ≡ (is_in_range start end b || sets.contains bytes.old b) }
{
    for byte in start..=end {
        bytes.add(byte);
    }
}
