//! Slopes of pairs that are known from outside, on both sides of the answer.
//! Weights are judged by `shape_refute`, which knows nothing of how they are found.
use shape_plane::{Pair, Slopes, Solved, solve};
use shape_refute::{Naive, holds, is_proper, refutes};
use shape_space::{P2, P3};

// Three points up a diagonal and two along a row.
const BEND: [P2; 5] = [
    P2 { x: 0, y: 0 },
    P2 { x: 1, y: 1 },
    P2 { x: 2, y: 2 },
    P2 { x: 3, y: 2 },
    P2 { x: 4, y: 2 },
];

// The line of an axis with these slopes that begins at 0.
fn line_of(s: &Slopes, axis: u8) -> Naive {
    Naive {
        a: [s.a[0], s.a[1], s.a[2]],
        mu: 0,
        axis,
    }
}

#[test]
fn two_pairs_of_a_bend_clash(rt: HostRuntime) {
    let pairs = [Pair { low: 0, high: 2 }, Pair { low: 4, high: 2 }];
    match solve(rt.alloc(), &BEND, 1, &pairs) {
        Ok(Solved::Clash(why)) => assert!(rt; refutes(&BEND, 1, &why)),
        _ => assert!(rt; false),
    }
}

#[test]
fn one_pair_leaves_slopes(rt: HostRuntime) {
    let pairs = [Pair { low: 0, high: 2 }];
    match solve(rt.alloc(), &BEND, 1, &pairs) {
        Ok(Solved::Slopes(s)) => {
            let line = line_of(&s, 1);
            assert!(rt; is_proper::<P2>(&line));
            assert!(rt; s.a[0] < 0 && s.a[2] == 0);
            assert!(rt; holds(&line, P2 { x: 0, y: 0 }));
        }
        _ => assert!(rt; false),
    }
}

#[test]
fn no_pair_leaves_slopes(rt: HostRuntime) {
    match solve(rt.alloc(), &BEND, 0, &[]) {
        Ok(Solved::Slopes(s)) => {
            assert!(rt; is_proper::<P2>(&line_of(&s, 0)));
        }
        _ => assert!(rt; false),
    }
}

#[test]
fn a_pair_of_space_clashes(rt: HostRuntime) {
    let points = [
        P3 { x: 0, y: 0, z: 0 },
        P3 { x: 0, y: 1, z: 1 },
        P3 { x: 1, y: 0, z: 2 },
    ];
    match solve(rt.alloc(), &points, 2, &[Pair { low: 0, high: 2 }]) {
        Ok(Solved::Clash(why)) => assert!(rt; refutes(&points, 2, &why)),
        _ => assert!(rt; false),
    }
}

#[test]
fn a_pair_on_the_second_axis_clashes(rt: HostRuntime) {
    let points = [P3 { x: 0, y: 0, z: 0 }, P3 { x: 0, y: 1, z: 2 }];
    match solve(rt.alloc(), &points, 2, &[Pair { low: 0, high: 1 }]) {
        Ok(Solved::Clash(why)) => assert!(rt; refutes(&points, 2, &why)),
        _ => assert!(rt; false),
    }
}
