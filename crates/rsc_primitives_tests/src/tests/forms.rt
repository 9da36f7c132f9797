//! Texts in each form that a caller may ask for, as the original gives them; clones of errors.
use crate::forms::{is_error, is_shown};
use rsc_primitives::escape::{DebugByte, DebugHaystack};
use rsc_primitives::{PatternID, SmallIndex, StateID};
use std::alloc::Global;

// Whether the refusal of a number as a SmallIndex is displayed in each form.
fn is_small_displayed(alloc: Global, number: u64) -> bool {
    let text = format!(in alloc;
        "failed to create small index from {number}, which exceeds SmallIndex(2147483646)"
    );
    match SmallIndex::try_from(number) {
        Err(error) => is_error(alloc, &error, text),
        Ok(_) => false,
    }
}

// Whether the refusal of a number as a PatternID is displayed in each form.
fn is_pattern_displayed(alloc: Global, number: u64) -> bool {
    let text = format!(in alloc;
        "failed to create PatternID from {number}, which exceeds PatternID(2147483646)"
    );
    match PatternID::try_from(number) {
        Err(error) => is_error(alloc, &error, text),
        Ok(_) => false,
    }
}

// Whether the refusal of a number as a StateID is displayed in each form.
fn is_state_displayed(alloc: Global, number: u64) -> bool {
    let text = format!(in alloc;
        "failed to create StateID from {number}, which exceeds StateID(2147483646)"
    );
    match StateID::try_from(number) {
        Err(error) => is_error(alloc, &error, text),
        Ok(_) => false,
    }
}

#[test]
fn refusals_are_displayed_in_each_form(rt: HostRuntime) {
    let mut number: u64 = 2147483647;
    for _ in 0..35 {
        assert!(rt; is_small_displayed(rt.alloc(), number), "{number}");
        assert!(rt; is_pattern_displayed(rt.alloc(), number), "{number}");
        assert!(rt; is_state_displayed(rt.alloc(), number), "{number}");
        number = number.saturating_mul(2);
    }
    assert_eq!(rt; number, u64::MAX);
}

#[test]
fn fixed_texts_are_shown_in_each_form(rt: HostRuntime) {
    let alloc = rt.alloc();
    for (byte, want) in [(b' ', "' '"), (0, "\\x00"), (b'a', "a"), (0xFF, "\\xFF")] {
        assert!(rt; is_shown(alloc, &DebugByte(byte), want), "{byte}");
    }
    for (haystack, want) in [
        ("", "\"\""),
        ("é\n\u{1f}𝛃", "\"é\\n\\u{1f}𝛃\""),
        ("a \"", "\"a \\\"\""),
    ] {
        assert!(rt;
            is_shown(alloc, &DebugHaystack(haystack.as_bytes()), want),
            "{haystack}"
        );
    }
    assert!(rt; is_shown(alloc, &DebugHaystack(b"a\xFF \""), "\"a\\xff \\\"\""));
}
