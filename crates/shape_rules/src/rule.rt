//! End rules: which points a thinning keeps as ends. A rule is an object that the caller brings.
//! What a rule means stands in one ghost member; a thinning knows no more of it.
ghost use Rattle.std.specs.Prelude.{◌≡◌, ℕ, List};
ghost use Rattle.shape_terms.specs.Thinning.{Rule};
ghost use Rattle.shape_rules.specs.FactsOf.{facts_of};

/// What a rule is told of a point.
#[derive(Clone, Copy, Debug, PartialEq, Eq)]
pub struct Facts {
    /// The number of its object near neighbours at this moment.
    pub neighbours: u8,
    /// Its squared distance to the background of the opening picture.
    pub distance: u64,
}

/// A rule that says which points are kept as ends.
pub trait EndRule: Drop {
    /// What the rule remembers.
    ghost state: { Self → List ℕ };

    /// What the rule means: what it remembers at the beginning of a thinning, which points it marks, and what it
    /// remembers after it was asked of one.
    ghost means: { Self → Rule };

    /// Begins anew.
    fn reset(&mut self)
        ensures opened { state self.new ≡ (means self.old).opening }
        ensures same_rule { means self.new ≡ means self.old };

    /// Whether the point with these facts is marked, and so kept.
    fn keep(&mut self, facts: &Facts) -> bool
        ensures answer { result ≡ (means self.old).marks (state self.old) (facts_of facts.now) }
        ensures moved { state self.new
            ≡ (means self.old).next (state self.old) (facts_of facts.now) }
        ensures same_rule { means self.new ≡ means self.old };
}
