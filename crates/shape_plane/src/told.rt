//! Weights told anew where the last point of a list is put last of a longer one.
//! A refutation of a list refutes every longer list.
ghost use Rattle.std.specs.Prelude.{◌≡◌, map};
ghost use Rattle.shape_refute.specs.Shown.{share_of};
ghost use Rattle.shape_refute.specs.Weights.{refutation_of};
ghost use Rattle.shape_plane.specs.ToldAnew.{told_place as place_of, told_share, told_anew as anew};

use shape_refute::{Refutation, Share, Shares};

// The place in the longer list.
fn told_place(from: u32, to: u32, i: u32) -> u32
    ensures { result ≡ place_of from to i }
{
    if i == from { to } else { i }
}

// The share with its place in the longer list.
fn told(from: u32, to: u32, s: Share) -> Share
    ensures { share_of result ≡ told_share from to (share_of s) }
{
    Share {
        weight: s.weight,
        place: told_place(from, to, s.place),
    }
}

// The shares with their places in the longer list.
fn told_shares(from: u32, to: u32, shares: &Shares) -> Shares
    ensures { result ≡ map (told_share from to) shares.now }
{
    let mut new = Shares::new();
    for i in 0..shares.len() {
        new.push(told(from, to, shares.get(i)));
    }
    new
}

/// The weights with the place `from` told as `to`.
pub fn told_anew(from: u32, to: u32, why: &Refutation) -> Refutation
    ensures { refutation_of result ≡ anew from to (refutation_of why.now) }
{
    if from == to {
        return *why;
    }
    Refutation {
        low: told_shares(from, to, &why.low),
        high: told_shares(from, to, &why.high),
        steps: why.steps,
    }
}
