//! The lines of the faces of a volume: each with its patches, their points, and the points that each refused.
//! What is found of a face comes from `shape_plane`.
ghost use Rattle.std.specs.Prelude.{◌≡◌, ◌<◌, ◌+◌, ◌^◌, ◌++◌, ◌∷◌, [], ℕ, List, IfOk, OnOk, length};
ghost use Rattle.shape_terms.specs.Pictures.{Picture};
ghost use Rattle.shape_terms.specs.Patches.{FoundPatch};
ghost use Rattle.report_terms.specs.FaceFacts.{face_axis, face_sense};
ghost use Rattle.shape_refute.specs.Senses.{sense_of};
ghost use Rattle.shape_analyse.specs.Growing.{Aim, IsTextOf};
ghost use Rattle.shape_analyse.specs.Tallies.{exposed_in, exposed_count};
ghost use Rattle.shape_analyse.specs.Facing.{IsFacing, HasFaces, HasPatches, AreFound, IsSomePatch, points_found, at_patch};

use report_text::Report;
use shape_grid::Grid;
use shape_plane::{Parting, Patch, patches};
use shape_refute::Sense;
use shape_report::Line;
use shape_space::{NoMemory, P3};
use std::alloc::Global;

// Adds the `patch` line.
fn add_head(patch: &Patch<P3>, report: &mut Report) -> Result<(), NoMemory>
    ensures { (X : Aim) (f : ℕ) (found : List FoundPatch) (left : Picture)
        (before : List ℕ) → AreFound X f (found ++ patch.now.found ∷ []) left
        → IsTextOf (HasPatches X f found) (before ++ report.old) → OnOk result (IsTextOf
        (IsFacing X (at_patch f (points_found found) patch.now.found 0 0)) (before ++ report.new)) }
{
    let plane = patch.naive();
    let a = plane.a;
    let line: Line<P3> = Line::Patch {
        points: patch.len(),
        a,
        mu: plane.mu,
    };
    report.add(&line)?;
    Ok(())
}

// Adds the points of a patch.
fn add_points(patch: &Patch<P3>, report: &mut Report) -> Result<(), NoMemory>
    ensures { (X : Aim) (f : ℕ) (found : List FoundPatch) (left : Picture)
        (before : List ℕ) → AreFound X f (found ++ patch.now.found ∷ []) left
        → IsTextOf (IsFacing X (at_patch f (points_found found) patch.now.found 0 0))
        (before ++ report.old)
        → OnOk result (IsTextOf (IsFacing X (at_patch f (points_found found) patch.now.found
        (length patch.now.found.patch.points) 0)) (before ++ report.new)) }
{
    for j in 0..patch.len() {
        report.add(&Line::On { p: patch.point(j) })?;
    }
    Ok(())
}

// Adds the points that a patch refused.
fn add_refused(patch: &Patch<P3>, report: &mut Report) -> Result<(), NoMemory>
    requires { IsSomePatch patch.now.found }
    ensures { (X : Aim) (f : ℕ) (found : List FoundPatch) (left : Picture)
        (before : List ℕ) → AreFound X f (found ++ patch.now.found ∷ []) left
        → IsTextOf (IsFacing X (at_patch f (points_found found) patch.now.found
        (length patch.now.found.patch.points) 0)) (before ++ report.old)
        → OnOk result (IsTextOf (IsFacing X (at_patch f (points_found found) patch.now.found
        (length patch.now.found.patch.points) (length patch.now.found.refused)))
        (before ++ report.new)) }
{
    for m in 0..patch.refused() {
        let (p, why) = patch.refusal(m);
        report.add(&Line::Off { p, why })?;
    }
    Ok(())
}

// Adds all lines of a patch.
fn add_patch(patch: &Patch<P3>, report: &mut Report) -> Result<(), NoMemory>
    requires { IsSomePatch patch.now.found }
    ensures { (X : Aim) (f : ℕ) (found : List FoundPatch) (left : Picture)
        (before : List ℕ) → AreFound X f (found ++ patch.now.found ∷ []) left
        → IsTextOf (HasPatches X f found) (before ++ report.old)
        → OnOk result (IsTextOf (HasPatches X f (found ++ patch.now.found ∷ []))
        (before ++ report.new)) }
{
    add_head(patch, report)?;
    add_points(patch, report)?;
    add_refused(patch, report)?;
    Ok(())
}

// Takes all patches of a face, and adds the lines of each.
fn add_patches(
    alloc: Global,
    parting: &mut Parting<P3>,
    report: &mut Report,
) -> Result<(), NoMemory>
    ensures { (X : Aim) (f : ℕ) (before : List ℕ) → parting.old.axis ≡ face_axis f
        → AreFound X f [] parting.old.left
        → IsTextOf (HasPatches X f []) (before ++ report.old)
        → OnOk result (IsTextOf (HasFaces X (f + 1)) (before ++ report.new)) }
{
    while let Some(patch) = parting.next_patch(alloc)? {
        add_patch(&patch, report)?;
    }
    Ok(())
}

// Adds the lines of the face with a number, and tells the number of its exposed points.
fn add_face(alloc: Global, grid: &Grid<P3>, face: u8, report: &mut Report) -> Result<u32, NoMemory>
    requires { face < 6 }
    ensures exposed { IfOk result (λ n. n ≡ exposed_in grid.now face) }
    ensures few { IfOk result (λ n. n < 2 ^ 32) }
    ensures text { (X : Aim) (before : List ℕ) → X.subject.picture ≡ grid.now
        → IsTextOf (HasFaces X face) (before ++ report.old)
        → OnOk result (IsTextOf (HasFaces X (face + 1)) (before ++ report.new)) }
{
    let axis = face / 2;
    let sense = sense_in(face);
    let mut parting = patches(alloc, grid, axis as usize, sense)?;
    let points = parting.count();
    let line: Line<P3> = Line::Face {
        axis,
        sense,
        points,
    };
    report.add(&line)?;
    add_patches(alloc, &mut parting, report)?;
    Ok(points)
}

// The sense of the face with a number.
fn sense_in(face: u8) -> Sense
    ensures { sense_of result ≡ face_sense face }
{
    if face % 2 == 0 {
        Sense::Minus
    } else {
        Sense::Plus
    }
}

// Adds the lines of all faces, and tells the number of exposed points of all.
pub(crate) fn add_faces(
    alloc: Global,
    grid: &Grid<P3>,
    report: &mut Report,
) -> Result<u64, NoMemory>
    ensures exposed { IfOk result (λ n. n ≡ exposed_count grid.now 6) }
    ensures text { (X : Aim) (before : List ℕ) → X.subject.picture ≡ grid.now
        → IsTextOf (HasFaces X 0) (before ++ report.old)
        → OnOk result (IsTextOf (HasFaces X 6) (before ++ report.new)) }
{
    let mut exposed: u64 = 0;
    for face in 0..6 {
        exposed += u64::from(add_face(alloc, grid, face, report)?);
    }
    Ok(exposed)
}
