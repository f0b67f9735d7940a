//! The names that a word may name a rule by: those on a shelf, or those of the program before there is a shelf.
//! A further rule of the program is one more line of `rule_called`; no call takes memory.
ghost use Rattle.std.specs.Prelude.{◌≡◌, List, ℕ, MatchOption, Some, Contains, slice_get};
ghost use Rattle.shape_terms.specs.Shelves.{names_of};
ghost use Rattle.shape_cli.specs.Rules.{program_rules};

use shape_rules::Shelf;

/// Names of rules, each with a number.
pub(crate) trait Names {
    /// The names.
    ghost names: { Self → List (List ℕ) };

    /// The number of the rule that a word names.
    fn number_of(&self, word: &[u8]) -> Option<usize>
        ensures { MatchOption result (Contains (names self.now) word.now → ⊥)
            (λ i. slice_get (names self.now) i ≡ Some word.now) };
}

// The number of the rule on a shelf that a word names.
fn find_rule(shelf: &Shelf, word: &[u8]) -> Option<usize>
    ensures { MatchOption result (Contains (names_of shelf.now) word.now → ⊥)
        (λ i. slice_get (names_of shelf.now) i ≡ Some word.now) }
{
    for i in 0..shelf.len() {
        if shelf.name(i).word() == word {
            return Some(i);
        }
    }
    None
}

impl Names for Shelf {
    ghost use Rattle.shape_terms.specs.Shelves.{names_of};

    ghost names = { λ shelf. names_of shelf };

    fn number_of(&self, word: &[u8]) -> Option<usize> {
        find_rule(self, word)
    }
}

// The number of the program's rule that a word names.
fn rule_called(word: &[u8]) -> Option<usize>
    ensures { MatchOption result (Contains (names_of program_rules) word.now → ⊥)
        (λ i. slice_get (names_of program_rules) i ≡ Some word.now) }
{
    if word == b"none".as_slice() {
        return Some(0);
    }
    if word == b"curve".as_slice() {
        return Some(1);
    }
    if word == b"few".as_slice() {
        return Some(2);
    }
    None
}

/// The names of the program's rules.
pub(crate) struct ProgramNames;

impl Names for ProgramNames {
    ghost use Rattle.shape_terms.specs.Shelves.{names_of};
    ghost use Rattle.shape_cli.specs.Rules.{program_rules};

    ghost names = { λ _. names_of program_rules };

    fn number_of(&self, word: &[u8]) -> Option<usize> {
        rule_called(word)
    }
}
