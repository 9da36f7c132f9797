//! Why two neighbouring bytes are in different classes: the assertion that tells them apart, and where.
ghost use Rattle.std.specs.Prelude.{◌≡◌, ◌≢◌, ◌≤◌, ◌<◌, ◌↔◌, ◌+◌, ◌∷◌, ◌⊎◌, [], ℕ, List, IsTrue, IsSome, IfSome, IsNone, slice_index};
ghost use Rattle.std.specs.List.{Contains};
ghost use Rattle.rsc_look.specs.Keeping.{IsCoarsestMap, IsNeeded, Tells};
ghost use Rattle.rsc_show.specs.Chosen.{chosen_word_chars};
ghost use Rattle.rsc_show.specs.Ranges.{IsCoarsestParting, BoundsRange};

use crate::choices::WordPredicate;
use rsc_alphabet::laws::one_class_is_together;
use rsc_look::{Look, LookMatcher};

/// The first listed assertion that tells a byte from the next one, and the position, 0 or 1, at which it holds on one and not on
/// the other of the haystacks of these bytes alone; or `None` where no listed assertion does.
///
/// It is never `None` at a boundary of the coarsest partition that keeps the list, which
/// [`LookMatcher::classes_of`](rsc_look::LookMatcher::classes_of) answers.
pub fn witness(
    matcher: &LookMatcher<WordPredicate>,
    looks: &[Look],
    byte: u8,
) -> Option<(Look, usize)>
    requires { byte < 255 }
    ensures told { IfSome result (λ w. Contains looks.now w.0 × (w.1 ≤ 1)
        × Tells w.0 matcher.now.0 (chosen_word_chars matcher.now.1) (byte ∷ []) ((byte + 1) ∷ []) w.1) }
    ensures needed { IsSome result ↔ IsNeeded byte looks.now matcher.now.0 (chosen_word_chars matcher.now.1) }
    ensures boundary { (m : List ℕ) → IsCoarsestMap m looks.now matcher.now.0 (chosen_word_chars matcher.now.1) →
        slice_index m byte ≢ slice_index m (byte + 1) → IsSome result }
{
    one_class_is_together();
    for look in looks {
        if let Some(position) = position_that_tells(matcher, *look, byte) {
            return Some((*look, position));
        }
    }
    None
}

/// The [`witness`] of a byte, and the first range that begins after it or ends at it; each `None` where it does not exist.
///
/// One of them is there at each boundary of the coarsest partition that keeps the assertions and parts the ranges.
pub fn witnesses(
    matcher: &LookMatcher<WordPredicate>,
    looks: &[Look],
    ranges: &[(u8, u8)],
    byte: u8,
) -> (Option<(Look, usize)>, Option<(u8, u8)>)
    requires { byte < 255 }
    ensures told { IfSome result.0 (λ w. Contains looks.now w.0 × (w.1 ≤ 1)
        × Tells w.0 matcher.now.0 (chosen_word_chars matcher.now.1) (byte ∷ []) ((byte + 1) ∷ []) w.1) }
    ensures range { IfSome result.1 (λ r. Contains ranges.now r × BoundsRange byte r) }
    ensures boundary { (m : List ℕ) → IsCoarsestParting m ranges.now looks.now matcher.now.0 (chosen_word_chars matcher.now.1) →
        slice_index m byte ≢ slice_index m (byte + 1) → IsSome result.0 ⊎ IsSome result.1 }
{
    one_class_is_together();
    (witness(matcher, looks, byte), range_at(ranges, byte))
}

// The first range that begins after a byte or ends at it.
fn range_at(ranges: &[(u8, u8)], byte: u8) -> Option<(u8, u8)>
    requires { byte < 255 }
    ensures range { IfSome result (λ r. Contains ranges.now r × BoundsRange byte r) }
    ensures found { (r : ℕ × ℕ) → Contains ranges.now r → BoundsRange byte r → IsSome result }
{
    for (start, end) in ranges {
        if *start == byte + 1 || *end == byte {
            return Some((*start, *end));
        }
    }
    None
}

// The first position, 0 or 1, at which an assertion tells a byte from the next one.
fn position_that_tells(matcher: &LookMatcher<WordPredicate>, look: Look, byte: u8) -> Option<usize>
    requires { byte < 255 }
    ensures told { IfSome result (λ i. (i ≤ 1) × Tells look matcher.now.0 (chosen_word_chars matcher.now.1) (byte ∷ []) ((byte + 1) ∷ []) i) }
    ensures none { IsNone result → (i : ℕ) → i ≤ 1 →
        ¬ (Tells look matcher.now.0 (chosen_word_chars matcher.now.1) (byte ∷ []) ((byte + 1) ∷ []) i) }
{
    if tells(matcher, look, byte, 0) {
        Some(0)
    } else if tells(matcher, look, byte, 1) {
        Some(1)
    } else {
        None
    }
}

// Whether an assertion holds at a position on one and not on the other of the haystacks of a byte and of the next one.
fn tells(matcher: &LookMatcher<WordPredicate>, look: Look, byte: u8, position: usize) -> bool
    requires byte { byte < 255 }
    requires position { position ≤ 1 }
    ensures { IsTrue result ↔ Tells look matcher.now.0 (chosen_word_chars matcher.now.1) (byte ∷ []) ((byte + 1) ∷ []) position }
{
    matcher.matches(look, &[byte], position) != matcher.matches(look, &[byte + 1], position)
}
