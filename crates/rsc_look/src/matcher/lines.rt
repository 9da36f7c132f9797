//! The assertions about the ends of the haystack and of its lines, which look at the neighbouring bytes.
ghost use Rattle.std.specs.Prelude.{◌≤◌, ◌↔◌, IsTrue, length};
ghost use Rattle.rsc_look.specs.declared.assertion.Look.{Look};
ghost use Rattle.rsc_look.specs.Holds.{HoldsFor};

use crate::matcher::{CARRIAGE_RETURN, LINE_FEED};
use crate::side::{byte_after, byte_before, is_byte};
use crate::{LookMatcher, WordClass};

impl<W: WordClass> LookMatcher<W> {
    /// Whether the position is the start of the haystack.
    #[inline(always)]
    pub fn is_start(&self, haystack: &[u8], at: usize) -> bool
        requires { at ≤ length haystack.now }
        ensures { IsTrue result ↔ HoldsFor W.word_chars Look.Start self.now haystack.now at }
    {
        byte_before(haystack, at).is_none()
    }

    /// Whether the position is the end of the haystack.
    #[inline(always)]
    pub fn is_end(&self, haystack: &[u8], at: usize) -> bool
        requires { at ≤ length haystack.now }
        ensures { IsTrue result ↔ HoldsFor W.word_chars Look.End self.now haystack.now at }
    {
        byte_after(haystack, at).is_none()
    }

    /// Whether the position is the start of the haystack, or is after a line terminator.
    #[inline(always)]
    pub fn is_start_lf(&self, haystack: &[u8], at: usize) -> bool
        requires { at ≤ length haystack.now }
        ensures { IsTrue result ↔ HoldsFor W.word_chars Look.StartLF self.now haystack.now at }
    {
        let before = byte_before(haystack, at);
        before.is_none() || is_byte(self.line_terminator, before)
    }

    /// Whether the position is the end of the haystack, or is before a line terminator.
    #[inline(always)]
    pub fn is_end_lf(&self, haystack: &[u8], at: usize) -> bool
        requires { at ≤ length haystack.now }
        ensures { IsTrue result ↔ HoldsFor W.word_chars Look.EndLF self.now haystack.now at }
    {
        let after = byte_after(haystack, at);
        after.is_none() || is_byte(self.line_terminator, after)
    }

    /// Whether the position is the start of the haystack, or is after `\n`, or after a `\r` that no `\n` follows.
    #[inline(always)]
    pub fn is_start_crlf(&self, haystack: &[u8], at: usize) -> bool
        requires { at ≤ length haystack.now }
        ensures { IsTrue result ↔ HoldsFor W.word_chars Look.StartCRLF self.now haystack.now at }
    {
        let before = byte_before(haystack, at);
        before.is_none()
            || is_byte(LINE_FEED, before)
            || (is_byte(CARRIAGE_RETURN, before) && !is_byte(LINE_FEED, byte_after(haystack, at)))
    }

    /// Whether the position is the end of the haystack, or is before `\r`, or before a `\n` that follows no `\r`.
    #[inline(always)]
    pub fn is_end_crlf(&self, haystack: &[u8], at: usize) -> bool
        requires { at ≤ length haystack.now }
        ensures { IsTrue result ↔ HoldsFor W.word_chars Look.EndCRLF self.now haystack.now at }
    {
        let after = byte_after(haystack, at);
        after.is_none()
            || is_byte(CARRIAGE_RETURN, after)
            || (is_byte(LINE_FEED, after) && !is_byte(CARRIAGE_RETURN, byte_before(haystack, at)))
    }
}
