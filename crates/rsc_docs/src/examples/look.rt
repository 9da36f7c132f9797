use rsc_alphabet::{ByteClassSet, Unit};
use rsc_look::{AsciiWord, Look, LookMatcher, LookSet, UnicodeWord, WordClass};
use std::test::Fail;

#[test]
fn head(rt: HostRuntime) -> Result<(), Fail> {
    // `rsc_look`
    let matcher = LookMatcher::new(UnicodeWord);
    assert!(rt; matcher.matches(Look::WordUnicode, "𝛃 ".as_bytes(), 4));
    Ok(())
}

#[test]
fn assertion(rt: HostRuntime) -> Result<(), Fail> {
    // `Look`
    assert!(rt; Look::StartLF.reversed() == Look::EndLF);
    assert!(rt; Look::from_repr(Look::End.as_repr()) == Some(Look::End));
    assert!(rt; Look::WordUnicode.as_char() == '𝛃');

    // `Look::ascii_counterpart`
    assert!(rt; Look::WordUnicode.ascii_counterpart() == Look::WordAscii);
    assert!(rt; Look::StartLF.ascii_counterpart() == Look::StartLF);
    Ok(())
}

#[test]
fn look_set(rt: HostRuntime) -> Result<(), Fail> {
    // `LookSet`
    let set = LookSet::singleton(Look::Start).insert(Look::WordUnicode);
    assert!(rt; set.len() == 2 && set.contains(Look::Start));
    assert!(rt; set.contains_word_unicode() && !set.contains_anchor_line());
    assert!(rt; LookSet::from_bits(set.bits()) == Some(set));

    // `LookSetIter`
    let mut looks = LookSet::singleton(Look::End).insert(Look::Start).iter();
    assert!(rt; looks.next() == Some(Look::Start));
    assert!(rt; looks.next() == Some(Look::End));
    assert!(rt; looks.next() == None);
    Ok(())
}

#[test]
fn matcher(rt: HostRuntime) -> Result<(), Fail> {
    // `LookMatcher`
    let mut matcher = LookMatcher::new(UnicodeWord);
    assert!(rt; matcher.matches(Look::StartLF, b"a\nb", 2));
    matcher.set_line_terminator(0);
    assert!(rt; !matcher.matches(Look::StartLF, b"a\nb", 2));
    assert!(rt; matcher.matches(Look::EndLF, b"a\0", 1));

    // `LookMatcher::matches_set`
    let matcher = LookMatcher::new(UnicodeWord);
    let empty_line = LookSet::singleton(Look::StartLF).insert(Look::EndLF);
    assert!(rt; matcher.matches_set(empty_line, b"a\n\nb", 2));
    assert!(rt; !matcher.matches_set(empty_line, b"a\n\nb", 1));

    // `LookMatcher::is_word_unicode_negate`
    let matcher = LookMatcher::new(UnicodeWord);
    assert!(rt; matcher.matches(Look::WordUnicodeNegate, "ab".as_bytes(), 1));
    // Between two bytes of one character neither it nor its counterpart holds.
    assert!(rt; !matcher.matches(Look::WordUnicodeNegate, "𝛃".as_bytes(), 2));
    assert!(rt; !matcher.matches(Look::WordUnicode, "𝛃".as_bytes(), 2));
    Ok(())
}

#[test]
fn boundaries(rt: HostRuntime) -> Result<(), Fail> {
    // `LookMatcher::classes_of`
    let matcher = LookMatcher::new(UnicodeWord);
    let classes = matcher.classes_of(&[Look::WordAscii]);
    assert!(rt; classes.get(b'a') == classes.get(b'z') && classes.get(b'a') != classes.get(b'-'));

    // `LookMatcher::add_to_byteset`
    let mut set = ByteClassSet::empty();
    set.set_range(b'a', b'c');
    LookMatcher::new(AsciiWord).add_to_byteset(Look::EndLF, &mut set);
    let classes = set.byte_classes();
    assert!(rt; classes.get(b'c') != classes.get(b'd') && classes.get(b'\n') != classes.get(b'\r'));
    Ok(())
}

#[test]
fn word(rt: HostRuntime) -> Result<(), Fail> {
    // `AsciiWord`
    assert!(rt; AsciiWord.is_word('a') && AsciiWord.is_word('_') && !AsciiWord.is_word('ß'));

    // `UnicodeWord`
    assert!(rt; UnicodeWord.is_word('ß') && UnicodeWord.is_word('_') && !UnicodeWord.is_word('-'));
    Ok(())
}

#[test]
fn holding(rt: HostRuntime) -> Result<(), Fail> {
    // `LookMatcher::holding`
    let matcher = LookMatcher::new(UnicodeWord);
    let holding = matcher.holding("aδ b".as_bytes(), 3);
    assert!(rt; holding.contains(Look::WordEndUnicode) && !holding.contains(Look::End));
    // `δ` is no word byte.
    assert!(rt; !holding.contains(Look::WordEndAscii));

    // `LookMatcher::holding_between`
    let matcher = LookMatcher::new(AsciiWord);
    let holding = matcher.holding_between(Some(b'a'), Unit::eoi(3));
    assert!(rt; holding.contains(Look::End) && holding.contains(Look::WordEndAscii));
    assert!(rt; !holding.contains(Look::WordEndUnicode));

    // `LookMatcher::quit_bytes`
    let matcher = LookMatcher::new(UnicodeWord);
    let bytes = matcher.quit_bytes(&[Look::Start, Look::WordUnicode]);
    assert!(rt; bytes.contains(0x80) && !bytes.contains(0x7F));
    assert!(rt; matcher.quit_bytes(&[Look::WordAscii]).is_empty());
    Ok(())
}
