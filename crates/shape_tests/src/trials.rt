//! A trial asks its rule in the analysis and again in the check of its own report.
use crate::runs::{desk, ran};
use shape_cli::Outcome;
use shape_rules::{EndRule, Facts};
use std::cell::Cell;
use std::rc::Rc;
use std::test::Fail;

// A rule that marks nothing, and counts in a cell how often it is asked.
#[derive(Drop)]
struct Tallying {
    calls: Rc<Cell<u64>>,
}

impl EndRule for Tallying {
    ghost use Rattle.std.specs.Prelude.{false, []};
    ghost use Rattle.shape_terms.specs.Thinning.{rule_by};

    ghost state = { λ r. [] };

    ghost means = { λ r. rule_by [] (λ s f. false) (λ s f. s) };

    fn reset(&mut self) {}

    fn keep(&mut self, _facts: &Facts) -> bool {
        self.calls.set(self.calls.get().saturating_add(1));
        false
    }
}

const TALLIED: &[u8] =
    b"trial pbm 0 4 points 4 parts 1 1 contours 1 segments 3 events 3 kept 1 yes\n";

// The analysis asks the rule three times, and the check as often.
#[test]
fn a_trial_checks(rt: HostRuntime) -> Result<(), Fail> {
    let alloc = rt.alloc();
    let calls = Rc::new(alloc, Cell::new(0))?;
    let rule = Tallying {
        calls: calls.clone()?,
    };
    let mut desk = desk(alloc, b"", b"")?;
    let outcome = ran(alloc, "trial pbm 0 4", &mut desk, Box::new(alloc, rule)?)?;
    assert!(rt; outcome == Outcome::Done && desk.output() == TALLIED);
    assert!(rt; calls.get() == 6);
    Ok(())
}
