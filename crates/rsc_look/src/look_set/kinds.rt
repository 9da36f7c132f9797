//! Whether a set has a member of a kind: what an engine asks of a state's assertions before it looks at a haystack.
ghost use Rattle.std.specs.Prelude.{◌≡◌, ◌∷◌, []};
ghost use Rattle.rsc_look.specs.declared.assertion.Look.{Look};
ghost use Rattle.rsc_look.specs.LookSets.{has_one_of, anchors, line_anchors, ascii_word_assertions, unicode_word_assertions, word_assertions};

use crate::{Look, LookSet};

impl LookSet {
    /// Whether a member looks for the haystack's ends or for a line's, that is, for no word.
    #[inline]
    pub fn contains_anchor(self) -> bool
        ensures { result ≡ has_one_of self anchors }
    {
        self.contains_anchor_haystack() || self.contains_anchor_line()
    }

    /// Whether `Start` or `End` is a member.
    #[inline]
    pub fn contains_anchor_haystack(self) -> bool
        ensures { result ≡ has_one_of self (Look.Start ∷ Look.End ∷ []) }
    {
        self.contains(Look::Start) || self.contains(Look::End)
    }

    /// Whether one of the four assertions about lines is a member.
    #[inline]
    pub fn contains_anchor_line(self) -> bool
        ensures { result ≡ has_one_of self line_anchors }
    {
        self.contains_anchor_lf() || self.contains_anchor_crlf()
    }

    /// Whether `StartLF` or `EndLF` is a member, the two that look for the line terminator.
    #[inline]
    pub fn contains_anchor_lf(self) -> bool
        ensures { result ≡ has_one_of self (Look.StartLF ∷ Look.EndLF ∷ []) }
    {
        self.contains(Look::StartLF) || self.contains(Look::EndLF)
    }

    /// Whether `StartCRLF` or `EndCRLF` is a member.
    #[inline]
    pub fn contains_anchor_crlf(self) -> bool
        ensures { result ≡ has_one_of self (Look.StartCRLF ∷ Look.EndCRLF ∷ []) }
    {
        self.contains(Look::StartCRLF) || self.contains(Look::EndCRLF)
    }

    /// Whether one of the twelve assertions about words is a member.
    #[inline]
    pub fn contains_word(self) -> bool
        ensures { result ≡ has_one_of self word_assertions }
    {
        self.contains_word_unicode() || self.contains_word_ascii()
    }

    /// Whether one of the six Unicode assertions is a member.
    #[inline]
    pub fn contains_word_unicode(self) -> bool
        ensures { result ≡ has_one_of self unicode_word_assertions }
    {
        self.contains(Look::WordUnicode)
            || self.contains(Look::WordUnicodeNegate)
            || self.contains(Look::WordStartUnicode)
            || self.contains(Look::WordEndUnicode)
            || self.contains(Look::WordStartHalfUnicode)
            || self.contains(Look::WordEndHalfUnicode)
    }

    /// Whether one of the six assertions about words of ASCII is a member.
    #[inline]
    pub fn contains_word_ascii(self) -> bool
        ensures { result ≡ has_one_of self ascii_word_assertions }
    {
        self.contains(Look::WordAscii)
            || self.contains(Look::WordAsciiNegate)
            || self.contains(Look::WordStartAscii)
            || self.contains(Look::WordEndAscii)
            || self.contains(Look::WordStartHalfAscii)
            || self.contains(Look::WordEndHalfAscii)
    }
}
