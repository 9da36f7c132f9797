//! The text of each set of assertions, in each form that a caller may ask for, as the original gives them.
use rsc_look::{Look, LookSet};
use rsc_primitives_tests::forms::is_shown;
use std::alloc::{AllocError, Global};
use std::fmt;
use std::fmt::Write;
use std::test::Fail;

const ALL: &str = "Az^$rRbB𝛃𝚩<>〈〉◁▷◀▶";

// Whether a set is shown in each form by the characters of its members.
fn is_shown_by_members(alloc: Global, set: LookSet) -> bool {
    if set.is_empty() {
        return is_shown(alloc, &set, "∅");
    }
    match text_of(alloc, set.bits()) {
        Ok(text) => is_shown(alloc, &set, &text),
        Err(_) => false,
    }
}

#[test]
fn sets_of_each_size_are_shown_in_each_form(rt: HostRuntime) -> Result<(), Fail> {
    let (mut first, mut last) = (LookSet::empty(), LookSet::full());
    let mut repr: u32 = 1;
    for size in 0..=18 {
        let is_first = is_shown_by_members(rt.alloc(), first);
        assert!(rt; is_first && is_shown_by_members(rt.alloc(), last), "{size}");
        if size < 18 {
            let look = Look::from_repr(repr).ok_or("no assertion")?;
            repr = repr.saturating_mul(2);
            first.set_insert(look);
            last.set_remove(look);
        }
    }
    assert!(rt; first == LookSet::full() && last.is_empty());
    Ok(())
}

// Takes what is written off the text that is wanted, as long as they agree.
#[derive(Drop)]
struct Wanted<'a> {
    rest: Option<&'a str>,
}

impl fmt::Write for Wanted<'_> {
    fn write_str(&mut self, text: &str) -> fmt::Result {
        self.rest = match self.rest {
            Some(rest) => rest.strip_prefix(text),
            None => None,
        };
        Ok(())
    }
}

// Whether a set is shown by the text.
fn is_written(set: LookSet, text: &str) -> bool {
    let mut wanted = Wanted { rest: Some(text) };
    write!(wanted, "{set:?}").is_ok() && wanted.rest == Some("")
}

// The text of a set of these bits.
fn text_of(alloc: Global, bits: u32) -> Result<String, AllocError> {
    let mut text = String::with_capacity(alloc, 80)?;
    let mut left = bits;
    for c in ALL.chars() {
        if left % 2 == 1 {
            text.push(c)?;
        }
        left /= 2;
    }
    Ok(text)
}

// All sets of up to three members and their complements, and each 37th of the others.
#[test]
fn sets_are_shown_by_their_members(rt: HostRuntime) -> Result<(), Fail> {
    for bits in 1..1u32 << 18 {
        let count = bits.count_ones();
        if count <= 3 || count >= 15 || bits % 37 == 0 {
            let text = text_of(rt.alloc(), bits)?;
            assert!(rt;
                LookSet::from_bits(bits).is_some_and(|set| is_written(set, &text)),
                "{text}"
            );
        }
    }
    Ok(())
}
