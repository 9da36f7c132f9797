use rsc_look::{Look, LookMatcher, UnicodeWord};
use std::test::Fail;

#[test]
fn example(rt: HostRuntime) -> Result<(), Fail> {
    // The line terminator is \n, and the word characters are those of Unicode.
    let matcher = LookMatcher::new(UnicodeWord);
    // A word ends after the four bytes of 𝛃, and no position between two of them is a word boundary.
    assert!(rt; matcher.matches(Look::WordUnicode, "𝛃 ".as_bytes(), 4));
    assert!(rt; !matcher.matches(Look::WordUnicode, "𝛃 ".as_bytes(), 2));

    // 00 to 09 is class 0, \n class 1, all above class 2.
    let classes = matcher.classes_of(&[Look::StartLF]);
    assert!(rt; classes.get(9) == 0 && classes.get(b'\n') == 1 && classes.get(11) == 2);
    Ok(())
}
