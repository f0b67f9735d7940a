//! Weights at the ends of their types, and entries in their order. Lines, turns and other weights stand in `weights.cases` of `run_cases`.
//! A further refutation is one more assertion.
use shape_refute::{
    Refutation, Share, Shares, Step, StepShare, StepShares, refutation_excludes, refutes,
};
use shape_space::P2;

const LEAST: i32 = -2147483648;

const GREATEST: i32 = 2147483647;

// The refutation with the low place 1, taken as often as is said, and these high places.
fn weights(low: u64, high: &[(u64, u32)]) -> Refutation {
    let mut r = Refutation {
        low: Shares::new(),
        high: Shares::new(),
        steps: StepShares::new(),
    };
    r.low.push(Share {
        weight: low,
        place: 1,
    });
    for (weight, place) in high {
        if r.high.len() < 4 {
            r.high.push(Share {
                weight: *weight,
                place: *place,
            });
        }
    }
    r
}

// Two points over one another at the ends of their coordinates.
const FAR: &[P2] = &[
    P2 {
        x: LEAST,
        y: GREATEST,
    },
    P2 {
        x: LEAST,
        y: 2147483646,
    },
];

const MOST: u64 = 18446744073709551615;

#[test]
fn weights_at_the_ends_of_their_types(rt: HostRuntime) {
    let mut r = weights(MOST, &[(MOST, 0), (MOST, 0), (MOST, 0), (MOST, 0)]);
    assert!(rt; !refutes(FAR, 1, &r));
    for _ in 0..3 {
        if r.low.len() < 4 {
            r.low.push(Share {
                weight: MOST,
                place: 1,
            });
        }
    }
    assert!(rt; refutes(FAR, 1, &r) && !refutes(FAR, 0, &r));
    assert!(rt; !refutes(FAR, 1, &weights(MOST, &[(MOST, 4294967295)])));
    refutation_excludes();
}

#[test]
fn entries_in_their_order(rt: HostRuntime) {
    let first = Share {
        weight: 2,
        place: 7,
    };
    let second = Share {
        weight: 3,
        place: 9,
    };
    let mut shares = Shares::new();
    shares.push(first);
    shares.push(second);
    assert!(rt; shares.len() == 2 && shares.get(0) == first && shares.get(1) == second);
    let up = StepShare {
        weight: 5,
        step: Step::Up,
    };
    let minus = StepShare {
        weight: 6,
        step: Step::Minus(1),
    };
    let mut steps = StepShares::new();
    steps.push(up);
    steps.push(minus);
    assert!(rt; steps.len() == 2 && steps.get(0) == up && steps.get(1) == minus);
}
