//! The numbers that are found of a picture beside its report, of pictures that no trial draws: a run shows those of trials alone.
use crate::pictures::stepped;
use crate::runs::rules;
use shape_adj::Parts;
use shape_analyse::{Extent, Tally, find_flat, find_solid};
use shape_space::{P2, P3};
use std::alloc::AllocError;
use std::test::Fail;

// A full picture of 3 by 3 points.
const FULL: Tally = Tally {
    points: 9,
    parts: Parts {
        object: 1,
        background: 1,
    },
    extent: Extent::Contours {
        contours: 1,
        segments: 4,
    },
    events: 8,
    kept: 1,
};

#[test]
fn a_full_picture(rt: HostRuntime) -> Result<(), Fail> {
    let alloc = rt.alloc();
    let grid = stepped(alloc, P2 { x: 3, y: 3 }, 1)?;
    let mut shelf = rules(alloc)?;
    assert!(rt; shelf.len() == 3);
    let Ok(findings) = find_flat(alloc, &grid, &mut shelf, 0) else {
        return Err(Fail::from(AllocError));
    };
    assert!(rt; findings.tally() == FULL);
    Ok(())
}

#[test]
fn a_volume(rt: HostRuntime) -> Result<(), Fail> {
    let alloc = rt.alloc();
    let grid = stepped(alloc, P3 { x: 3, y: 1, z: 2 }, 2)?;
    let mut shelf = rules(alloc)?;
    let Ok(findings) = find_solid(alloc, &grid, &mut shelf, 0) else {
        return Err(Fail::from(AllocError));
    };
    let tally = findings.tally();
    assert!(rt; tally.extent == Extent::Faces { exposed: 18 });
    assert!(rt; (tally.events, tally.kept) == (2, 1));
    Ok(())
}
