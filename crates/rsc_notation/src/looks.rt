//! The names of the assertions, as arguments write them.
ghost use Rattle.std.specs.Prelude.{◌≡◌, ◌↔◌, Some};
ghost use Rattle.rsc_look.specs.declared.assertion.Look.{Look};
ghost use Rattle.rsc_look.specs.Looks.{every_look};
ghost use Rattle.rsc_notation.specs.LookNames.{look_name};

use rsc_look::Look;

static EVERY_LOOK: [Look; 18] = [
    Look::Start,
    Look::End,
    Look::StartLF,
    Look::EndLF,
    Look::StartCRLF,
    Look::EndCRLF,
    Look::WordAscii,
    Look::WordAsciiNegate,
    Look::WordUnicode,
    Look::WordUnicodeNegate,
    Look::WordStartAscii,
    Look::WordEndAscii,
    Look::WordStartUnicode,
    Look::WordEndUnicode,
    Look::WordStartHalfAscii,
    Look::WordEndHalfAscii,
    Look::WordStartHalfUnicode,
    Look::WordEndHalfUnicode,
];

/// All assertions, by ascending number.
pub fn every_look() -> &'static [Look]
    ensures { result.now ≡ every_look }
{
    &EVERY_LOOK
}

/// The name of an assertion, as the arguments write it.
pub fn name_of(look: Look) -> &'static str
    ensures { result.now ≡ look_name look }
{
    match look {
        Look::Start => "Start",
        Look::End => "End",
        Look::StartLF => "StartLF",
        Look::EndLF => "EndLF",
        Look::StartCRLF => "StartCRLF",
        Look::EndCRLF => "EndCRLF",
        Look::WordAscii => "WordAscii",
        Look::WordAsciiNegate => "WordAsciiNegate",
        Look::WordUnicode => "WordUnicode",
        Look::WordUnicodeNegate => "WordUnicodeNegate",
        Look::WordStartAscii => "WordStartAscii",
        Look::WordEndAscii => "WordEndAscii",
        Look::WordStartUnicode => "WordStartUnicode",
        Look::WordEndUnicode => "WordEndUnicode",
        Look::WordStartHalfAscii => "WordStartHalfAscii",
        Look::WordEndHalfAscii => "WordEndHalfAscii",
        Look::WordStartHalfUnicode => "WordStartHalfUnicode",
        Look::WordEndHalfUnicode => "WordEndHalfUnicode",
    }
}

/// The assertion of that name, exactly.
pub fn look_of(name: &[u8]) -> Option<Look>
    ensures { (look : Look) → (result ≡ Some look) ↔ (name.now ≡ look_name look) }
{
    for look in every_look() {
        if name_of(*look).as_bytes() == name {
            return Some(*look);
        }
    }
    None
}
