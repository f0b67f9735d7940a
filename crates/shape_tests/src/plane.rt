//! Lists whose planes and refusals are known from outside. Patches stand in `patches`.
//! Weights are judged by `shape_refute`, which knows nothing of how they are found.
use shape_plane::{Added, Growing, Verdict, decide};
use shape_refute::{holds, is_proper, refutes};
use shape_space::{P2, P3};
use std::test::Fail;

// Three points that no naive plane of the axis z holds.
const TWIST: [P3; 3] = [
    P3 { x: 0, y: 0, z: 0 },
    P3 { x: 0, y: 1, z: 1 },
    P3 { x: 1, y: 0, z: 2 },
];

#[test]
fn a_staircase_is_flat(rt: HostRuntime) {
    let run = [
        P2 { x: 0, y: 0 },
        P2 { x: 1, y: 1 },
        P2 { x: 2, y: 1 },
        P2 { x: 3, y: 1 },
        P2 { x: 4, y: 2 },
    ];
    match decide(rt.alloc(), &run, 1) {
        Ok(Verdict::Flat(n)) => {
            assert!(rt; is_proper::<P2>(&n));
            for p in &run {
                assert!(rt; holds(&n, *p));
            }
        }
        _ => assert!(rt; false),
    }
}

#[test]
fn a_bend_is_refused(rt: HostRuntime) {
    let run = [
        P2 { x: 0, y: 0 },
        P2 { x: 1, y: 1 },
        P2 { x: 2, y: 2 },
        P2 { x: 3, y: 2 },
        P2 { x: 4, y: 2 },
    ];
    match decide(rt.alloc(), &run, 1) {
        Ok(Verdict::Refused(why)) => assert!(rt; refutes(&run, 1, &why)),
        _ => assert!(rt; false),
    }
}

#[test]
fn a_point_is_flat_and_a_twist_is_refused(rt: HostRuntime) {
    match decide(rt.alloc(), &TWIST[..1], 2) {
        Ok(Verdict::Flat(n)) => assert!(rt; is_proper::<P3>(&n) && holds(&n, TWIST[0])),
        _ => assert!(rt; false),
    }
    match decide(rt.alloc(), &TWIST, 2) {
        Ok(Verdict::Refused(why)) => assert!(rt; refutes(&TWIST, 2, &why)),
        _ => assert!(rt; false),
    }
}

#[test]
fn a_list_grows_past_a_refusal(rt: HostRuntime) -> Result<(), Fail> {
    let mut list = Growing::first(rt.alloc(), TWIST[0], 2)?;
    assert!(rt; matches!(list.try_add(TWIST[1])?, Added::Yes));
    match list.try_add(TWIST[2])? {
        Added::No(why) => assert!(rt; refutes(&TWIST, 2, &why)),
        Added::Yes => assert!(rt; false),
    }
    assert!(rt;
        list.len() == 2 && holds(&list.naive(), TWIST[0]) && holds(&list.naive(), TWIST[1])
    );
    assert!(rt; matches!(list.try_add(TWIST[0])?, Added::Yes));
    assert!(rt; list.len() == 3 && list.point(2) == TWIST[0]);
    Ok(())
}
