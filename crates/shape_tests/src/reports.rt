//! A run by a rule of the caller, whose marks are heeded by the analysis and by the check.
ghost use Rattle.std.specs.Prelude.{◌==◌, [], ◌∷◌, if◌then◌else◌, slice_index};
ghost use Rattle.shape_terms.specs.Thinning.{rule_by};

use crate::runs::{desk, ran};
use shape_cli::Outcome;
use shape_rules::{EndRule, Facts};
use std::test::Fail;

// Marks at every second question.
#[derive(Drop)]
struct Alternate {
    turn: u64,
}

impl EndRule for Alternate {
    ghost state = { λ r. r.turn ∷ [] };

    ghost means = { λ r. rule_by (0 ∷ []) (λ s f. slice_index s 0 == 1)
        (λ s f. (if slice_index s 0 == 1 then 0 else 1) ∷ []) };

    fn reset(&mut self) {
        self.turn = 0;
    }

    fn keep(&mut self, _facts: &Facts) -> bool {
        let marks = self.turn == 1;
        self.turn = if marks { 0 } else { 1 };
        marks
    }
}

const BY_ALTERNATE: &[u8] =
    b"\ndel 0 0\ntip 1 0\ndel 2 0\ntip 0 1\ndel 2 1\ntip 0 2\ndel 1 2\ntip 2 2\nkept 5 1 1\nend\n";

#[test]
fn a_rule_of_the_caller(rt: HostRuntime) -> Result<(), Fail> {
    let alloc = rt.alloc();
    let picture = b"P1 3 3 111111111".as_slice();
    let mut made = desk(alloc, picture, b"")?;
    let rule = Box::new(alloc, Alternate { turn: 1 })?;
    assert!(rt; ran(alloc, "analyse pbm a curve", &mut made, rule)? == Outcome::Done);
    assert!(rt; made.output().ends_with(BY_ALTERNATE));
    let mut checked = desk(alloc, picture, made.output())?;
    let rule = Box::new(alloc, Alternate { turn: 1 })?;
    assert!(rt; ran(alloc, "check pbm a b", &mut checked, rule)? == Outcome::Yes);
    Ok(())
}
