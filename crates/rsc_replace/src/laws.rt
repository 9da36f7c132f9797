//! Laws of replacements that a caller can cite: functions whose contracts are the laws.
ghost use Rattle.std.specs.Prelude.{◌≡◌, ◌==◌, ℕ, List, Option, false};
ghost use Rattle.std.specs.List.{list_any};
ghost use Rattle.rsc_captures.specs.Captured.{Captured};
ghost use Rattle.rsc_captures.specs.Groups.{Groups};
ghost use Rattle.rsc_engine.specs.NextMatches.{MatchesLeft};
ghost use Rattle.rsc_engine.specs.Patterns.{Pattern, Subject};
ghost use Rattle.rsc_replace.specs.Replacements.{AreAllWithCaptures, AreFirstWithCaptures, IsReplaced, IsReplacedUpTo, MatchWithCaptures};
ghost use Rattle.rsc_replace.specs.Templates.{filled};
ghost use Rattle.rsc_replace.specs.PartReplacements.{AreAllWays, IsPartReplaced, Way};

use rsc_engine::laws;
use rsc_look::WordClass;

/// A template without a `$` stands for itself.
pub fn a_template_without_dollars_is_itself()
    ensures { (text : List ℕ) (captures : Captured) (template : List ℕ) → list_any (λ b. b == 0x24) template ≡ false →
        filled text captures template ≡ template }
{}

/// There is at most one list of all matches that are left with their captures, and so one text in which they are replaced; and one list of as many first ones.
pub fn at_most_one_replaced_text<W: WordClass>()
    ensures all { (left : MatchesLeft W) (one other : List MatchWithCaptures) →
        AreAllWithCaptures W.word_chars left one → AreAllWithCaptures W.word_chars left other → one ≡ other }
    ensures replaced { (left : MatchesLeft W) (template one other : List ℕ) → IsReplaced W.word_chars template left one →
        IsReplaced W.word_chars template left other → one ≡ other }
    ensures first { (most : ℕ) (left : MatchesLeft W) (one other : List MatchWithCaptures) → AreFirstWithCaptures W.word_chars most left one →
        AreFirstWithCaptures W.word_chars most left other → one ≡ other }
    ensures up_to { (most : ℕ) (left : MatchesLeft W) (template one other : List ℕ) → IsReplacedUpTo W.word_chars template most left one →
        IsReplacedUpTo W.word_chars template most left other → one ≡ other }
{
    laws::at_most_one_next_match();
    laws::at_most_one_match_with_captures();
}

/// There is at most one list of all matches of a pattern in a text, and so one text in which they are replaced.
pub fn at_most_one_text_with_a_part_replaced()
    ensures all { (x : Subject) (groups : Groups) (p : Pattern) (last : Option ℕ) (from : ℕ) (one other : List Way) →
        AreAllWays x groups p last from one → AreAllWays x groups p last from other → one ≡ other }
    ensures replaced { (x : Subject) (groups : Groups) (p : Pattern) (template one other : List ℕ) → IsPartReplaced x groups p template one →
        IsPartReplaced x groups p template other → one ≡ other }
{
    laws::at_most_one_preferred_way();
}
