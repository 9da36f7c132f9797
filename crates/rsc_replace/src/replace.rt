//! Texts with all matches replaced.
ghost use Rattle.std.specs.Prelude.{◌≡◌, ◌∷◌, [], IsTrue, IfOk, IfErr, OnOk, Err, None, false};
ghost use Rattle.rsc_search.specs.Inputs.{whole};
ghost use Rattle.rsc_engine.specs.declared.error.Error.TheVariants.{OutOfMemory, TooLarge};
ghost use Rattle.rsc_engine.specs.Parts.{pattern_of, groups_as_pattern};
ghost use Rattle.rsc_engine.specs.Refusals.{IsBuildError, RepeatsName, are_too_large};
ghost use Rattle.rsc_engine.specs.Sizes.{most_states};
ghost use Rattle.rsc_replace.specs.PartReplacements.{IsPartReplaced, subject_of_text};
ghost use Rattle.rsc_replace.specs.Replacements.{IsReplaced};

use crate::expand;
use rsc_engine::{AsciiCompatible, Builder, Error, Matches, Part, Program, laws};
use rsc_look::WordClass;
use rsc_search::Input;
use std::alloc::Global;

/// The text with each match of a program replaced by what the template stands for under the match's groups, as [`expand`] reads it.
///
/// # Errors
///
/// Out of memory.
///
/// # Examples
///
/// ```
/// // ([a-z]+) ([a-z]+)
/// let builder = Builder::new(rt.alloc());
/// let letters = builder.plus(builder.range(b'a', b'z'))?;
/// let one = builder.group(None, letters)?;
/// let letters = builder.plus(builder.range(b'a', b'z'))?;
/// let other = builder.group(None, letters)?;
/// let pair = builder.concat(vec![in rt.alloc(); one, builder.literal(b" ")?, other]?)?;
/// let program = builder.build(AsciiWord, true, pair)?;
/// let out = replace_all(rt.alloc(), &program, b"ab cd, e f", b"$2-$1")?;
/// assert!(rt; out.as_slice() == b"cd-ab, f-e".as_slice());
/// ```
pub fn replace_all<W: WordClass + AsciiCompatible>(
    alloc: Global,
    program: &Program<W>,
    text: &[u8],
    template: &[u8],
) -> Result<Vec<u8>, Error>
    ensures replaced { IfOk result (λ out. IsReplaced W.word_chars template.now
        (record { program = program.now; input = whole text.now; last = None }) out.items) }
    ensures refused { IfErr result (λ e. e ≡ OutOfMemory) }
{
    let mut captures = program.captures(alloc)?;
    laws::an_iteration_ends();
    let mut matches = Matches::new(alloc, program, Input::new(text))?;
    let mut out = Vec::new(alloc);
    let mut from = 0;
    'matches: loop {
        match matches.next(&mut captures)? {
            None => {
                out.extend_from_slice(&text[from..])?;
                return Ok(out);
            }
            Some(found) => {
                out.extend_from_slice(&text[from..found.start()])?;
                expand(&mut out, text, &captures, template)?;
                from = found.end();
            }
        }
    }
}

/// The text with each match of a part replaced by what the template stands for, as [`expand`] reads it.
///
/// The part is a whole pattern, and the text is taken for text: no match is empty within a character. A match begins at the first position from which the
/// pattern matches, goes its preferred way, and ends where that way does; the next one begins there or later, and isn't empty there. `$0` is the match, and
/// `$1` what the way went through in the part's first group the last time.
///
/// # Errors
///
/// As [`Builder::build`].
///
/// # Examples
///
/// ```
/// // a*, which is empty before `b`, and not where a match has just ended
/// let builder = Builder::new(rt.alloc());
/// let part = builder.star(builder.range(b'a', b'a'))?;
/// let out = replace_part(rt.alloc(), AsciiWord, part, b"baa", b"<$0>")?;
/// assert!(rt; out.as_slice() == b"<>b<aa>".as_slice());
/// // A range whose first byte is above its last has none.
/// let reversed = builder.range(b'z', b'a');
/// let out = replace_part(rt.alloc(), AsciiWord, reversed, b"baa", b"-")?;
/// assert!(rt; out.as_slice() == b"baa".as_slice());
/// ```
pub fn replace_part<W: WordClass + AsciiCompatible>(
    alloc: Global,
    word_class: W,
    part: Part<'_>,
    text: &[u8],
    template: &[u8],
) -> Result<Vec<u8>, Error>
    ensures replaced { IfOk result (λ out. IsPartReplaced (subject_of_text (W.word_chars word_class) text.now)
        (groups_as_pattern part.entry) (pattern_of part.entry) template.now out.items) }
    ensures too_large { IsTrue (are_too_large most_states (pattern_of part.entry ∷ []) (groups_as_pattern part.entry ∷ [])) → result ≡ Err TooLarge }
    ensures names_differ { OnOk result (¬ (RepeatsName (groups_as_pattern part.entry ∷ []))) }
    ensures refused { IfErr result (IsBuildError most_states (pattern_of part.entry ∷ []) (groups_as_pattern part.entry ∷ [])) }
{
    laws::one_pattern::a_match_of_one_pattern::<W>();
    laws::the_first_group_is_the_match::<W>();
    let program = Builder::new(alloc).build(word_class, true, part)?;
    let out = replace_all(alloc, &program, text, template)?;
    Ok(out)
}
