//! A builder: each call makes a part of a pattern, and larger parts are made of smaller ones.
ghost use Rattle.std.specs.Prelude.{false, true, min, ◌≡◌, ◌<◌, ◌++◌, [], ◌∷◌, map, flat_map, length, IfOk, IfErr, OnOk, OnErr};
ghost use Rattle.rsc_captures.specs.Groups.{groups_in};
ghost use Rattle.rsc_engine.specs.declared.error.Error.TheVariants.{OutOfMemory};
ghost use Rattle.rsc_engine.specs.Patterns as patterns;
ghost use Rattle.rsc_engine.specs.FirstEnds.{loops_take_bytes};
ghost use Rattle.rsc_engine.specs.GroupNumbers.{group_count_in};
ghost use Rattle.rsc_engine.specs.Patterns.{Empty, Never, Class, Literal, Assertion, Then, Either, Group, sequence, one_of};
ghost use Rattle.rsc_engine.specs.Sizes.{most_states};
ghost use Rattle.rsc_engine.specs.Trees.{pattern_in};
ghost use Rattle.rsc_engine.specs.Parts.{pattern_of, patterns_of, groups_of_part, groups_as_pattern, group_lists_of, limit_of};

mod build;
mod compile;
mod loops;
mod names;
mod part;
mod repeat;
mod size;
mod tree;

use self::names::joined;
pub use self::part::Part;
use self::tree::Tree;
use crate::Error;
use rsc_look::Look;
use rsc_primitives::StateID;
use std::alloc::Global;

/// Makes parts, and keeps the patterns that are finished.
///
/// # Examples
///
/// ```
/// // (?P<key>[a-z]+)=
/// let builder = Builder::new(rt.alloc());
/// let letters = builder.plus(builder.range(b'a', b'z'))?;
/// let key = builder.group(Some("key"), letters)?;
/// let whole = builder.then(key, builder.literal(b"=")?)?;
/// let program = builder.build(AsciiWord, true, whole)?;
/// let mut captures = program.captures(rt.alloc())?;
/// let found = find(rt.alloc(), &program, &Input::new(b"-ab=12"), &mut captures)?;
/// assert!(rt; found.is_some_and(|it| it.start() == 1 && it.end() == 4));
/// assert!(rt; captures.get_group_by_name("key") == Some(Span { start: 1, end: 3 }));
/// ```
pub struct Builder<'n> {
    alloc: Global,
    patterns: Vec<Part<'n>>,
    // How many states a program may have. No more than have numbers, whatever this says.
    limit: usize,
}

// Written out, so that a caller's proof has one step where a builder is dropped.
impl Drop for Builder<'_> {
    fn drop(self) {
        let Builder {
            alloc: _,
            patterns: _,
            limit: _,
        } = self;
    }
}

impl<'n> Builder<'n> {
    /// A builder with no pattern. Its programs may have as many states as there are numbers for.
    pub fn new(alloc: Global) -> Builder<'n>
        ensures patterns { patterns_of result ≡ [] }
        ensures groups { group_lists_of result ≡ [] }
        ensures limit { limit_of result ≡ most_states }
    {
        Builder {
            alloc,
            patterns: Vec::new(alloc),
            limit: StateID::LIMIT,
        }
    }

    /// Sets how many states a program may have. `build` answers `TooLarge` for patterns with more, before it makes a state: so a count of repetitions from
    /// outside makes no more than these. [`Program::state_len`] says how many a program has. No program has more than `StateID::LIMIT` states, 2,147,483,647,
    /// whatever `most` is; this is the limit of a new builder.
    ///
    /// # Examples
    ///
    /// ```
    /// // a{1000}, with a record at each end of the match, and the state of the match
    /// let mut builder = Builder::new(rt.alloc());
    /// let whole = builder.repeat(builder.range(b'a', b'a'), 1000, Some(1000))?;
    /// builder.limit_states(1002);
    /// assert!(rt; matches!(builder.build(AsciiWord, true, whole), Err(Error::TooLarge)));
    /// let mut builder = Builder::new(rt.alloc());
    /// let whole = builder.repeat(builder.range(b'a', b'a'), 1000, Some(1000))?;
    /// builder.limit_states(1003);
    /// let program = builder.build(AsciiWord, true, whole)?;
    /// assert!(rt; program.state_len() == 1003);
    /// ```
    pub fn limit_states(&mut self, most: usize)
        ensures value { limit_of self.new ≡ min most most_states }
        ensures kept_patterns { patterns_of self.new ≡ patterns_of self.old }
        ensures kept_groups { group_lists_of self.new ≡ group_lists_of self.old }
    {
        self.limit = most;
    }

    /// A part that matches one byte from `start` to `end`, and none if `start` is above `end`.
    pub fn range(&self, start: u8, end: u8) -> Part<'n>
        ensures part { pattern_of result ≡ Class ((start, end) ∷ []) }
        ensures groups { groups_of_part result ≡ [] }
    {
        self.leaf(Tree::Range(start, end), false)
    }

    /// A part that matches one byte of some ranges. A range whose first byte is above its last has none, and a class without a byte never matches. A loop over
    /// the class is fastest over bytes of the first range.
    ///
    /// # Errors
    ///
    /// Out of memory.
    pub fn class(&self, ranges: &[(u8, u8)]) -> Result<Part<'n>, Error>
        ensures part { IfOk result (λ part. pattern_of part ≡ Class ranges.now) }
        ensures groups { IfOk result (λ part. groups_of_part part ≡ []) }
        ensures refused { IfErr result (λ e. e ≡ OutOfMemory) }
    {
        let ranges = Vec::from_slice(self.alloc, ranges)?;
        Ok(self.leaf(Tree::Class(ranges), false))
    }

    /// A part that matches exactly these bytes. For text: `text.as_bytes()`.
    ///
    /// # Errors
    ///
    /// Out of memory.
    pub fn literal(&self, bytes: &[u8]) -> Result<Part<'n>, Error>
        ensures part { IfOk result (λ part. pattern_of part ≡ Literal bytes.now) }
        ensures groups { IfOk result (λ part. groups_of_part part ≡ []) }
        ensures refused { IfErr result (λ e. e ≡ OutOfMemory) }
    {
        let may_be_empty = bytes.is_empty();
        let bytes = Vec::from_slice(self.alloc, bytes)?;
        Ok(self.leaf(Tree::Literal(bytes), may_be_empty))
    }

    /// A part that matches where an assertion holds, and takes no byte.
    pub fn assertion(&self, look: Look) -> Part<'n>
        ensures part { pattern_of result ≡ Assertion look }
        ensures groups { groups_of_part result ≡ [] }
    {
        self.leaf(Tree::Assertion(look), true)
    }

    /// A part that matches at each position, and takes no byte.
    pub fn empty(&self) -> Part<'n>
        ensures part { pattern_of result ≡ Empty }
        ensures groups { groups_of_part result ≡ [] }
    {
        self.leaf(Tree::Empty, true)
    }

    /// A part that never matches.
    pub fn never(&self) -> Part<'n>
        ensures part { pattern_of result ≡ Never }
        ensures groups { groups_of_part result ≡ [] }
    {
        self.leaf(Tree::Never, false)
    }

    /// A part that matches one part and then the other.
    ///
    /// # Errors
    ///
    /// Out of memory.
    pub fn then(&self, one: Part<'n>, other: Part<'n>) -> Result<Part<'n>, Error>
        ensures part { IfOk result (λ part. pattern_of part ≡ Then (pattern_of one.entry) (pattern_of other.entry)) }
        ensures groups { IfOk result (λ part. groups_of_part part ≡ groups_of_part one.entry ++ groups_of_part other.entry) }
        ensures refused { IfErr result (λ e. e ≡ OutOfMemory) }
    {
        let may_be_empty = one.may_be_empty && other.may_be_empty;
        let loops_take_bytes = one.loops_take_bytes && other.loops_take_bytes;
        let (one, names) = one.into_tree_and_names();
        let (other, more) = other.into_tree_and_names();
        let names = joined(names, more)?;
        let tree = Tree::Then(Box::new(self.alloc, one)?, Box::new(self.alloc, other)?);
        Ok(Part {
            tree,
            names,
            may_be_empty,
            loops_take_bytes,
        })
    }

    /// A part that matches all of these, one after another.
    ///
    /// # Errors
    ///
    /// Out of memory.
    pub fn concat(&self, parts: Vec<Part<'n>>) -> Result<Part<'n>, Error>
        ensures part { IfOk result (λ part. pattern_of part ≡ sequence (map pattern_of parts.entry.items)) }
        ensures groups { IfOk result (λ part. groups_of_part part ≡ flat_map groups_of_part parts.entry.items) }
        ensures refused { IfErr result (λ e. e ≡ OutOfMemory) }
    {
        let mut may_be_empty = true;
        let mut loops_take_bytes = true;
        for part in &parts {
            may_be_empty &= part.may_be_empty;
            loops_take_bytes &= part.loops_take_bytes;
        }
        let (trees, names) = self.taken_apart(parts)?;
        Ok(Part {
            tree: Tree::Concat(trees),
            names,
            may_be_empty,
            loops_take_bytes,
        })
    }

    /// A part that matches one of these; an earlier one is preferred. Without a part it never matches.
    ///
    /// # Errors
    ///
    /// Out of memory.
    pub fn one_of(&self, parts: Vec<Part<'n>>) -> Result<Part<'n>, Error>
        ensures part { IfOk result (λ part. pattern_of part ≡ one_of (map pattern_of parts.entry.items)) }
        ensures groups { IfOk result (λ part. groups_of_part part ≡ flat_map groups_of_part parts.entry.items) }
        ensures refused { IfErr result (λ e. e ≡ OutOfMemory) }
    {
        let mut may_be_empty = false;
        let mut loops_take_bytes = true;
        for part in &parts {
            may_be_empty |= part.may_be_empty;
            loops_take_bytes &= part.loops_take_bytes;
        }
        let (trees, names) = self.taken_apart(parts)?;
        Ok(Part {
            tree: Tree::OneOf(trees),
            names,
            may_be_empty,
            loops_take_bytes,
        })
    }

    /// A part that matches either of these; the first is preferred.
    ///
    /// # Errors
    ///
    /// Out of memory.
    pub fn either(&self, one: Part<'n>, other: Part<'n>) -> Result<Part<'n>, Error>
        ensures part { IfOk result (λ part. pattern_of part ≡ Either (pattern_of one.entry) (pattern_of other.entry)) }
        ensures groups { IfOk result (λ part. groups_of_part part ≡ groups_of_part one.entry ++ groups_of_part other.entry) }
        ensures refused { IfErr result (λ e. e ≡ OutOfMemory) }
    {
        let may_be_empty = one.may_be_empty || other.may_be_empty;
        let loops_take_bytes = one.loops_take_bytes && other.loops_take_bytes;
        let (one, names) = one.into_tree_and_names();
        let (other, more) = other.into_tree_and_names();
        let names = joined(names, more)?;
        let tree = Tree::Either(Box::new(self.alloc, one)?, Box::new(self.alloc, other)?);
        Ok(Part {
            tree,
            names,
            may_be_empty,
            loops_take_bytes,
        })
    }

    /// The part as a group. The groups of a pattern are numbered from 1 in the order in which they open: a group comes before the groups within it, and
    /// the groups of a part before those of the next part. A match gives a group the positions at which its part began and ended the last time that the match
    /// went through it, and none if it went another way. A group in a part that is repeated is one group, with one pair of slots.
    ///
    /// # Errors
    ///
    /// Out of memory.
    pub fn group(&self, name: Option<&'n str>, part: Part<'n>) -> Result<Part<'n>, Error>
        ensures part { IfOk result (λ group. pattern_of group ≡ Group 0 (pattern_of part.entry)) }
        ensures groups { IfOk result (λ group. groups_of_part group ≡ groups_in (name.entry ∷ []) ++ groups_of_part part.entry) }
        ensures refused { IfErr result (λ e. e ≡ OutOfMemory) }
    {
        let may_be_empty = part.may_be_empty;
        let loops_take_bytes = part.loops_take_bytes;
        let mut first = Vec::new(self.alloc);
        first.push(name)?;
        let (tree, names) = part.into_tree_and_names();
        let names = joined(first, names)?;
        let tree = Tree::Group(Box::new(self.alloc, tree)?);
        Ok(Part {
            tree,
            names,
            may_be_empty,
            loops_take_bytes,
        })
    }

    /// Adds a pattern. Of two that match from a position the earlier is preferred.
    ///
    /// # Errors
    ///
    /// Out of memory; the patterns are as before.
    pub fn add_pattern(&mut self, whole: Part<'n>) -> Result<(), Error>
        ensures patterns { OnOk result (patterns_of self.new ≡ patterns_of self.old ++ pattern_of whole.entry ∷ []) }
        ensures groups { OnOk result (group_lists_of self.new ≡ group_lists_of self.old ++ groups_as_pattern whole.entry ∷ []) }
        ensures refused { IfErr result (λ e. e ≡ OutOfMemory) }
        ensures kept_patterns { OnErr result (patterns_of self.new ≡ patterns_of self.old) }
        ensures kept_groups { OnErr result (group_lists_of self.new ≡ group_lists_of self.old) }
        ensures kept_limit { limit_of self.new ≡ limit_of self.old }
    {
        self.patterns.push(whole)?;
        Ok(())
    }

    // The trees of parts, and the names of their groups.
    fn taken_apart(&self, parts: Vec<Part<'n>>) -> Result<(Vec<Tree>, Vec<Option<&'n str>>), Error>
        ensures trees { IfOk result (λ both. map pattern_in both.0.items ≡ map pattern_of parts.entry.items) }
        ensures names { IfOk result (λ both. groups_in both.1.items ≡ flat_map groups_of_part parts.entry.items) }
        ensures count { IfOk result (λ both. length both.1.items ≡ group_count_in (sequence (map pattern_of parts.entry.items))) }
        ensures refused { IfErr result (λ e. e ≡ OutOfMemory) }
    {
        let mut trees = Vec::new(self.alloc);
        let mut names = Vec::new(self.alloc);
        for part in parts {
            let (tree, more) = part.into_tree_and_names();
            names = joined(names, more)?;
            trees.push(tree)?;
        }
        Ok((trees, names))
    }

    // A part with no smaller ones, and with no group.
    fn leaf(&self, tree: Tree, may_be_empty: bool) -> Part<'n>
        requires emptiness { may_be_empty ≡ patterns.may_be_empty (pattern_in tree) }
        requires loops { loops_take_bytes (pattern_in tree) ≡ true }
        requires no_groups { group_count_in (pattern_in tree) ≡ 0 }
        ensures part { pattern_of result ≡ pattern_in tree }
        ensures groups { groups_of_part result ≡ [] }
    {
        Part {
            tree,
            names: Vec::new(self.alloc),
            may_be_empty,
            loops_take_bytes: true,
        }
    }
}
