//! Offsets that are never the greatest number.
ghost use Rattle.std.specs.Prelude.{◌≡◌, ◌<◌, ◌-◌, ◌^◌};
ghost use Rattle.rsc_primitives.specs.Indices.{non_max_of};

use std::cmp::Ordering;
use std::fmt;
use std::hash::{Hash, Hasher};
use std::marker::Model;

/// Any `usize` but the greatest. A contract sees it as the number.
///
/// It is held as its eight bytes, the least significant first: an optional one then takes nine bytes, where one of a
/// `usize` takes sixteen.
///
/// # Examples
///
/// ```
/// let offset = NonMaxUsize::new(5);
/// assert!(rt; offset.map_or(0, |it| it.get()) == 5);
/// assert!(rt; NonMaxUsize::new(usize::MAX) == None);
/// ```
#[derive(Clone, Copy)]
pub struct NonMaxUsize([u8; 8]);

impl Model for NonMaxUsize {
    ghost use Rattle.std.specs.Prelude.{◌≡◌, ℕ, ◌<◌, ◌-◌, ◌^◌};
    ghost use Rattle.std.specs.Int.{w64, from_le_bytes, to_le_bytes};

    ghost Value = { ℕ };

    ghost view = { λ n. from_le_bytes w64 n.0 };

    ghost invariant = { λ n. (from_le_bytes w64 n.0 < 2 ^ 64 - 1) × (to_le_bytes w64 (from_le_bytes w64 n.0) ≡ n.0) };

    ghost inverse = { λ n. record { 0 = to_le_bytes w64 n } };

    ghost inverse_ok = { λ n h i. record { 0 = h.1 i } };
}

impl NonMaxUsize {
    /// The number, or `None` exactly for the greatest `usize`.
    #[inline]
    pub fn new(value: usize) -> Option<NonMaxUsize>
        ensures { result ≡ non_max_of value }
    {
        if value == usize::MAX {
            return None;
        }
        Some(NonMaxUsize(value.to_le_bytes()))
    }

    /// The number as a `usize`.
    #[inline]
    pub fn get(&self) -> usize
        ensures value { result ≡ self.now }
        ensures most { result < usize.MAX }
    {
        usize::from_le_bytes(self.0)
    }
}

impl PartialEq for NonMaxUsize {
    ghost use Rattle.std.specs.Prelude.{nat_eq};
    ghost use Rattle.std.specs.Cmp.{nat_eq_equiv, partial_equiv_from_equiv};

    ghost eq = { nat_eq };

    ghost laws = { partial_equiv_from_equiv nat_eq_equiv };

    #[inline]
    fn eq(&self, other: &Self) -> bool {
        self.get() == other.get()
    }
}

impl Eq for NonMaxUsize {
    ghost use Rattle.std.specs.Cmp.{nat_eq_equiv};

    ghost laws = { nat_eq_equiv };
}

impl PartialOrd for NonMaxUsize {
    ghost use Rattle.std.specs.Prelude.{Some};
    ghost use Rattle.std.specs.Ordering.{nat_cmp};
    ghost use Rattle.std.specs.Cmp.{unsigned_po};

    ghost partial_cmp = { λ x y. Some (nat_cmp x y) };

    ghost laws = { unsigned_po };

    #[inline]
    fn partial_cmp(&self, other: &Self) -> Option<Ordering> {
        Some(self.cmp(other))
    }
}

impl Ord for NonMaxUsize {
    ghost use Rattle.std.specs.Prelude.{refl};
    ghost use Rattle.std.specs.Ordering.{nat_cmp};
    ghost use Rattle.std.specs.Cmp.{nat_cmp_total, unsigned_ties};

    ghost cmp = { nat_cmp };

    ghost total = { nat_cmp_total };

    ghost matches_partial_cmp = { λ x y. refl };

    ghost matches_eq = { unsigned_ties };

    #[inline]
    fn cmp(&self, other: &Self) -> Ordering {
        self.get().cmp(&other.get())
    }
}

impl Hash for NonMaxUsize {
    ghost use Rattle.std.proofs.Common.{ap};
    ghost use Rattle.std.specs.Hash as fed;
    ghost use Rattle.std.proofs.lemmas.Bool.{eqb-true};

    ghost hash_input = { fed.usize };

    ghost respects_eq = { λ x y h. ap fed.usize (eqb-true x y h) };

    #[inline]
    fn hash<H: Hasher>(&self, state: &mut H) {
        self.get().hash(state);
    }
}

impl fmt::Debug for NonMaxUsize {
    ghost use Rattle.std.specs.Prelude.{Some};
    ghost use Rattle.std.specs.Fmt.{decimal};

    ghost debug_output = { λ offset. Some (decimal offset) };

    fn fmt<W: fmt::Write>(&self, f: &mut fmt::Formatter<W>) -> fmt::Result {
        fmt::Debug::fmt(&self.get(), f)
    }
}
