//! Text that is put together from the cells of aligned tables.
ghost use Rattle.std.specs.Prelude.{◌≡◌, ◌<◌, ◌≤◌, true};
ghost use Rattle.rsc_look.specs.Words.{is_unicode_word};

use rsc_look::{UnicodeWord, WordClass};
use rsc_primitives::escape::DebugByte;
use std::alloc::{AllocError, Global};
use std::fmt;
use std::fmt::Write;
use unicode_width::{UnicodeWidthChar, UnicodeWidthStr};

/// A text that grows, and remembers that memory ran out, so that this is asked once, at its end.
#[derive(Drop)]
pub struct Page {
    alloc: Global,
    text: String,
    // Whether the text lacks something because memory ran out.
    is_refused: bool,
}

impl Page {
    /// An empty page.
    pub fn new(alloc: Global) -> Page {
        Page {
            alloc,
            text: String::new(alloc),
            is_refused: false,
        }
    }

    /// An empty page for a cell of this one.
    pub fn cell(&self) -> Page {
        Page::new(self.alloc)
    }

    /// Appends a text.
    pub fn push_str(&mut self, text: &str) {
        let _ = self.write_str(text);
    }

    /// Appends a character.
    pub fn push(&mut self, c: char) {
        let _ = self.write_char(c);
    }

    /// Appends a byte as two hexadecimal digits.
    pub fn push_digits(&mut self, byte: u8) {
        let _ = write!(self, "{byte:02x}");
    }

    /// Appends a byte as it is shown: as a character where it prints, and else as an escape.
    pub fn push_shown(&mut self, byte: u8) {
        let _ = write!(self, "{:?}", DebugByte(byte));
    }

    /// Appends a character by itself, or by its number if a terminal might not show it as one sign.
    pub fn push_char(&mut self, c: char) {
        let number = c as u32;
        if prints(c) {
            self.push(c);
        } else if c.is_ascii() {
            let _ = write!(self, "\\x{number:02X}");
        } else {
            let _ = write!(self, "\\u{{{number:X}}}");
        }
    }

    /// Appends spaces.
    pub fn push_spaces(&mut self, count: usize) {
        for _ in 0..count {
            self.push(' ');
        }
    }

    /// Appends a cell, and spaces up to one more than its width in columns.
    pub fn push_cell(&mut self, cell: &Page, width: usize) {
        self.push_page(cell);
        self.push_spaces(width.saturating_add(1).saturating_sub(cell.columns()));
    }

    /// Appends spaces up to a width in columns, the cell after them, and one more space.
    pub fn push_right(&mut self, cell: &Page, width: usize) {
        self.push_spaces(width.saturating_sub(cell.columns()));
        self.push_page(cell);
        self.push(' ');
    }

    // Appends a page. What it lacks is missing here as well.
    fn push_page(&mut self, page: &Page) {
        self.push_str(page.text.as_str());
        if page.is_refused {
            self.is_refused = true;
        }
    }

    // How many columns it takes in a terminal.
    fn columns(&self) -> usize {
        self.text.as_str().width()
    }

    /// Ends a line, without the space that a cell leaves at its end.
    pub fn end_line(&mut self) {
        if self.text.ends_with(' ') {
            let _ = self.text.pop();
        }
        self.push('\n');
    }

    /// The text.
    ///
    /// # Errors
    ///
    /// [`AllocError`] where memory for a part of it was refused.
    pub fn finish(self) -> Result<String, AllocError> {
        if self.is_refused {
            return Err(AllocError);
        }
        Ok(self.text)
    }
}

impl fmt::Write for Page {
    fn write_str(&mut self, text: &str) -> fmt::Result {
        match self.text.push_str(text) {
            Ok(()) => Ok(()),
            Err(_) => {
                self.is_refused = true;
                Err(fmt::Error)
            }
        }
    }
}

/// Whether a character is shown by itself: a printing one of ASCII, or a word character that takes a column. A control character, a mark that
/// joins its neighbour and a change of direction are none, so that no text moves a terminal's cursor.
pub fn prints(c: char) -> bool
    ensures ascii { result ≡ true → c < 0x80 → (0x20 ≤ c) × (c < 0x7F) }
    ensures word { result ≡ true → 0x80 ≤ c → is_unicode_word c ≡ true }
{
    if c.is_ascii() {
        (' '..='~').contains(&c)
    } else {
        UnicodeWord.is_word(c) && c.width() != Some(0)
    }
}
