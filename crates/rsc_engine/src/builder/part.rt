//! Parts of patterns, and what they know of the patterns that they are.
ghost use Rattle.std.specs.Prelude.{◌≡◌, length};
ghost use Rattle.rsc_engine.specs.GroupNumbers.{group_count_in};
ghost use Rattle.rsc_engine.specs.Patterns as patterns;
ghost use Rattle.rsc_engine.specs.FirstEnds as ends;
ghost use Rattle.rsc_engine.specs.Trees.{pattern_in};

use super::tree::Tree;

/// A part of a pattern.
///
/// Parts nest as the calls that made them, except that `literal`, `class`, `concat` and `one_of` stay flat. To build or drop a part takes stack for each level.
///
/// # Examples
///
/// ```
/// let builder = Builder::new(rt.alloc());
/// let digits = builder.star(builder.range(b'0', b'9'))?;
/// assert!(rt; digits.may_be_empty() && digits.loops_take_bytes());
/// let twice = builder.star(digits)?;
/// assert!(rt; !twice.loops_take_bytes());
/// ```
pub struct Part<'n> {
    pub(super) tree: Tree,
    // The names of its groups, in the order in which they open.
    pub(super) names: Vec<Option<&'n str>>,
    // Whether it may match no byte. A loop over such a part is entered by a choice of its own, as tests of `build` and `loops` show.
    pub(super) may_be_empty: bool,
    // Whether no loop in it repeats a part that may match no byte.
    pub(super) loops_take_bytes: bool,
    ghost groups: { length names.items ≡ group_count_in (pattern_in tree) },
    ghost emptiness: { may_be_empty ≡ patterns.may_be_empty (pattern_in tree) },
    ghost loops: { loops_take_bytes ≡ ends.loops_take_bytes (pattern_in tree) },
}

// Written out, so that a caller's proof has one step where a part is dropped, instead of one for each variant of a tree.
impl Drop for Part<'_> {
    fn drop(self) {
        let Part {
            tree: _,
            names: _,
            may_be_empty: _,
            loops_take_bytes: _,
        } = self;
    }
}

impl<'n> Part<'n> {
    ghost use Rattle.rsc_engine.specs.Parts.{pattern_of};
    ghost use Rattle.rsc_engine.specs.Patterns.{may_be_empty};
    ghost use Rattle.rsc_engine.specs.FirstEnds.{loops_take_bytes};

    /// Whether the part may match no byte, as it is built; if not, each match of it has a byte. Assertions may, and so may a part that may be repeated 0 times.
    pub fn may_be_empty(&self) -> bool
        ensures { result ≡ may_be_empty (pattern_of self.now) }
    {
        self.may_be_empty
    }

    /// Whether each part in it that is repeated without a limit takes a byte each time: that part's own `may_be_empty` is false.
    pub fn loops_take_bytes(&self) -> bool
        ensures { result ≡ loops_take_bytes (pattern_of self.now) }
    {
        self.loops_take_bytes
    }

    // The tree, and the names of its groups.
    pub(super) fn into_tree_and_names(self) -> (Tree, Vec<Option<&'n str>>)
        ensures tree { result.0 ≡ self.entry.tree }
        ensures names { result.1 ≡ self.entry.names }
        ensures groups { length result.1.items ≡ group_count_in (pattern_in result.0) }
    {
        let Part {
            tree,
            names,
            may_be_empty: _,
            loops_take_bytes: _,
        } = self;
        (tree, names)
    }
}
