//! Patches of a face of a flat picture, found by hand, and their evidence, judged again. Volumes stand in `patches.cases`.
//! Weights are judged by `shape_refute`, which knows nothing of how they are found.
ghost use Rattle.std.specs.Prelude.{◌<◌};

use crate::shared::{at, of_marks, put_point};
use shape_plane::{Parting, Patch, patches};
use shape_refute::{Refutation, Sense, holds, refutes};
use shape_space::P2;
use std::alloc::Global;
use std::test::Fail;

// Whether the weights for a point that a patch refused refute the patch with it.
fn is_refuted(alloc: Global, patch: &Patch<P2>, p: P2, why: &Refutation) -> Result<bool, Fail> {
    let mut points = Vec::new(alloc);
    for i in 0..patch.len() {
        points.push(patch.point(i))?;
    }
    points.push(p)?;
    Ok(refutes(&points, patch.naive().axis as usize, why))
}

// Puts the points of a patch, each held by its plane, and those that it refused behind a text.
fn put_patch(text: &mut String, alloc: Global, patch: &Patch<P2>) -> Result<(), Fail> {
    for i in 0..patch.len() {
        let p = patch.point(i);
        put_point(text, p, if holds(&patch.naive(), p) { "," } else { "?" })?;
    }
    for i in 0..patch.refused() {
        let (p, why) = patch.refusal(i);
        let is_refused = is_refuted(alloc, patch, p, &why)?;
        put_point(
            text,
            p,
            if is_refused {
                " refused,"
            } else {
                " left out,"
            },
        )?;
    }
    Ok(text.push(';')?)
}

// All patches of a face, one after another, as a text. No more are taken than the face has points.
fn text_of(alloc: Global, mut parting: Parting<P2>) -> Result<String, Fail> {
    let mut text = String::new(alloc);
    for _ in 0..=parting.count() {
        match parting.next_patch(alloc)? {
            Some(patch) => put_patch(&mut text, alloc, &patch)?,
            None => break,
        }
    }
    Ok(text)
}

#[test]
fn an_arch_of_the_plane_is_two_patches(rt: HostRuntime) -> Result<(), Fail> {
    let grid = of_marks(rt.alloc(), at(3, 2), b"#.#.#.")?;
    let text = text_of(rt.alloc(), patches(rt.alloc(), &grid, 1, Sense::Plus)?)?;
    assert!(rt; text.as_str() == " 0 0, 1 1, 2 0 refused,; 2 0,;");
    Ok(())
}
