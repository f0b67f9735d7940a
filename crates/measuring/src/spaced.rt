//! The surfaces of objects of space where voxels have the sides of a spacing, and their volumes.
//! Shares of directions come from `shares`; what a step out counts for is told in `SpacedSurface`.
ghost use Rattle.std.specs.Prelude.{◌≡◌, ◌⊎◌, ◌≤◌, ◌*◌, ◌^◌, IfOk, map};
ghost use Rattle.measure_terms.specs.Shares as Directions;
ghost use Rattle.measure_terms.specs.SpacedSurface as Terms;
ghost use Rattle.measuring.specs.Spaced.{spacing_told};
ghost use Rattle.measuring.specs.Fan.{AreWeights, IsFew, AreFew, most_weight, most_steps};
ghost use Rattle.measuring.specs.MinkowskiTold.{told};

use crate::division::quotient;
use crate::nearest::{dot, spaced_step};
use crate::numbers::Minkowski;
use crate::round::root;
use crate::shares::all_shares;
use crate::spacing::Spacing;
use shape_space::NoMemory;
use std::alloc::Global;

/// The volume of a voxel.
pub fn voxel_volume(spacing: Spacing) -> u64
    ensures value { result ≡ Terms.volume (spacing_told spacing) 1 }
    ensures small { result ≤ 2 ^ 48 }
{
    spacing.x as u64 * (spacing.y as u64 * spacing.z as u64)
}

// The length of a step of a class, in ten-millionths.
fn step_size(spacing: Spacing, class: u32) -> u128
    requires { class ≤ 7 }
    ensures value { result ≡ Terms.step_size (spacing_told spacing) class }
    ensures long { (result ≡ 0) ⊎ (10 ^ 7 ≤ result) }
{
    let step = spaced_step(spacing, class);
    root(100_000_000 * dot(step, step))
}

// What a step out of a class counts for, which has this share of all directions and so many of its own, in billionths.
fn step_weight(spacing: Spacing, class: u32, share: u128, variants: u128) -> u128
    requires class { class ≤ 7 }
    requires small { share ≤ 10 ^ 12 }
    requires share { share ≡ Directions.share (spacing_told spacing) class }
    requires variants { variants ≡ Terms.variants class }
    ensures value { result ≡ Terms.step_weight (spacing_told spacing) class }
    ensures small { result ≤ most_weight }
{
    let whole = 40_000 * voxel_volume(spacing) as u128 * share;
    quotient(quotient(whole, variants), step_size(spacing, class))
}

/// What a step out of each class counts for, in billionths of a unit square.
#[derive(Clone, Copy)]
pub(crate) struct Weights {
    pub(crate) x: u128,
    pub(crate) y: u128,
    pub(crate) z: u128,
    pub(crate) xy: u128,
    pub(crate) xz: u128,
    pub(crate) yz: u128,
    pub(crate) xyz: u128,
}

// What steps out count for.
fn all_weights(spacing: Spacing) -> Weights
    ensures { AreWeights (spacing_told spacing) result }
{
    let shares = all_shares(spacing);
    Weights {
        x: step_weight(spacing, 1, shares.x, 1),
        y: step_weight(spacing, 2, shares.y, 1),
        xy: step_weight(spacing, 3, shares.xy, 2),
        z: step_weight(spacing, 4, shares.z, 1),
        xz: step_weight(spacing, 5, shares.xz, 2),
        yz: step_weight(spacing, 6, shares.yz, 2),
        xyz: step_weight(spacing, 7, shares.xyz, 4),
    }
}

// What so many steps out count for.
fn counted(weight: u128, steps: u64) -> u128
    requires weight { weight ≤ most_weight }
    requires few { steps ≤ most_steps }
    ensures value { result ≡ weight * steps }
    ensures small { result ≤ most_weight * most_steps }
{
    weight * steps as u128
}

// The surface of an object, in thousandths of a unit square.
fn spaced_surface(spacing: Spacing, weights: &Weights, m: &Minkowski) -> u128
    requires weights { AreWeights (spacing_told spacing) weights.now }
    requires few { IsFew m.now }
    ensures { result ≡ Terms.spaced_surface (spacing_told spacing) (told m.now) }
{
    let with_z = counted(weights.z, m.z)
        + (counted(weights.xz, m.xz) + (counted(weights.yz, m.yz) + counted(weights.xyz, m.xyz)));
    let cuts = counted(weights.x, m.x)
        + (counted(weights.y, m.y) + (counted(weights.xy, m.xy) + with_z));
    (cuts + 500_000) / 1_000_000
}

/// The surface of each object, in thousandths of a unit square.
pub fn spaced_surfaces(
    alloc: Global,
    spacing: Spacing,
    numbers: &[Minkowski],
) -> Result<Vec<u128>, NoMemory>
    requires { AreFew numbers.now }
    ensures { IfOk result (λ v. v.items
        ≡ map (λ m. Terms.spaced_surface (spacing_told spacing) (told m)) numbers.now) }
{
    let weights = all_weights(spacing);
    let mut surfaces = Vec::new(alloc);
    for i in 0..numbers.len() {
        surfaces.push(spaced_surface(spacing, &weights, &numbers[i]))?;
    }
    Ok(surfaces)
}
