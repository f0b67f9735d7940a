//! A shelf: rules with distinct names. The caller makes the rules, and they are dropped with the shelf.
//! A further way to reach an entry is one more call; no call changes a name.
ghost use Rattle.std.specs.Prelude.{◌≡◌, ◌<◌, length, map, slice_get, MatchOption, Some, Contains};
ghost use Rattle.std.specs.Borrow.{sem};
ghost use Rattle.shape_rules.specs.Names.{word_of};
ghost use Rattle.shape_terms.specs.Shelves.{AreNames, names_of, rules_of};
ghost use Rattle.shape_rules.specs.Lending.{LendsRule};

use crate::name::Name;
use crate::rule::EndRule;
use std::marker::Model;

/// A rule and its name. The rule is a boxed object where nothing else is said.
#[derive(Drop)]
pub struct Entry<R = Box<dyn EndRule>> {
    /// The name.
    pub name: Name,
    /// The rule.
    pub rule: R,
}

/// From 1 to 64 rules with distinct names. The rules are boxed objects where nothing else is said.
///
/// It is seen as the list of its entries.
#[derive(Drop)]
pub struct Shelf<R = Box<dyn EndRule>> {
    entries: Vec<Entry<R>>,
}

impl<R> Model for Shelf<R> {
    ghost use Rattle.std.specs.Prelude.{List, map};
    ghost use Rattle.shape_terms.specs.Shelves.{AreNames, Named, names_of};

    ghost Value = { List (Named R) };

    ghost use Rattle.shape_rules.specs.Entries.{named};

    ghost view = { λ s. map named s.entries.items };

    ghost invariant = { λ s. AreNames (names_of (map named s.entries.items)) };
}

impl<R: Drop> Shelf<R> {
    ghost use Rattle.shape_rules.specs.Entries.{named};

    /// A shelf of these rules.
    pub fn new(rules: Vec<Entry<R>>) -> Shelf<R>
        requires { AreNames (names_of (map named rules.items)) }
        ensures { result ≡ map named rules.items }
    {
        Shelf { entries: rules }
    }

    /// How many rules there are.
    pub fn len(&self) -> usize
        ensures len { result ≡ length self.now }
        ensures names { AreNames (names_of self.now) }
    {
        self.entries.len()
    }

    /// The names on a shelf are 1 to 64 distinct ones.
    pub fn has_names(&self)
        ensures { AreNames (names_of self.now) }
    {
        let _ = &self.entries;
    }

    /// The name of the entry with a number.
    pub fn name(&self, i: usize) -> Name
        requires { i < length self.now }
        ensures { slice_get (names_of self.now) i ≡ Some (word_of result) }
    {
        self.entries[i].name
    }

    /// The number of the entry with a name.
    pub fn find(&self, name: &Name) -> Option<usize>
        ensures { MatchOption result (Contains (names_of self.now) (word_of name.now) → ⊥)
            (λ i. slice_get (names_of self.now) i ≡ Some (word_of name.now)) }
    {
        for i in 0..self.entries.len() {
            if self.entries[i].name.word() == name.word() {
                return Some(i);
            }
        }
        None
    }

    /// The rule of the entry with a number.
    ///
    /// What the caller leaves behind the reference stands in that entry; every name and every other entry stay as they were.
    pub fn rule(&mut self, i: usize) -> &mut R
        requires { i < length self.old }
        ensures* writes_back { sem 𝓛 (LendsRule R.row self.entry i result) }
        ensures value { slice_get (rules_of self.old) i ≡ Some result.now }
    {
        &mut self.entries[i].rule
    }
}
