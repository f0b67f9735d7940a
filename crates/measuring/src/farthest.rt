//! The search for the two farthest of some sites, over pairs of them.
//! Sites are tried from the last layer on, and no further than where none can be farther than the best pair.
ghost use Rattle.std.specs.Prelude.{◌≡◌, ◌+◌, ◌<◌, ◌≤◌, ◌^◌, Bool, true, false, length};
ghost use Rattle.measure_terms.specs.Spacing.{IsSpacing};
ghost use Rattle.measuring.specs.Spaced.{spacing_told};
ghost use Rattle.measuring.specs.Sites.{square_between, site_at, IsOneOf, AreLayered};
ghost use Rattle.measuring.specs.Farthest.{IsPairOf, ComesBefore, ComesBehind, IsBetter, IsPairIn, IsAcross, IsBestWith, IsBest, IsFarthest};

use crate::site::{Site, square_between, squared_length};
use crate::spacing::Spacing;

/// Two points of an object at the greatest distance.
#[derive(Clone, Copy, Debug, PartialEq, Eq)]
pub struct Feret {
    /// The square of their distance.
    pub square: u64,
    /// The first point in raster order that has a point at that distance.
    pub from: Site,
    /// The last point in raster order at that distance from it.
    pub to: Site,
}

// Two sites as a pair, the first in raster order first.
fn pair(p: Site, q: Site, square: u64) -> Feret
    ensures { IsPairOf p q square result }
{
    let (from, to) = if p.number <= q.number { (p, q) } else { (q, p) };
    Feret { square, from, to }
}

// Whether a pair that is no less far apart than another comes before it.
fn comes_before(new: &Feret, best: &Feret) -> bool
    requires { best.now.square ≤ new.now.square }
    ensures yes { result ≡ true → ComesBefore new.now best.now }
    ensures no { result ≡ false → ComesBehind new.now best.now }
{
    if best.square < new.square {
        return true;
    }
    if new.from.number == best.from.number {
        return best.to.number < new.to.number;
    }
    new.from.number < best.from.number
}

// The better of a pair of sites and the best pair.
fn better(spacing: Spacing, p: Site, q: Site, square: u64, best: Feret) -> Feret
    requires square { square ≡ square_between (spacing_told spacing) p q }
    requires most { best.square ≤ square }
    ensures { IsBetter (spacing_told spacing) p q best result }
{
    let new = pair(p, q, square);
    if comes_before(&new, &best) { new } else { best }
}

// The best pair with one more pair of sites.
fn with_pair(spacing: Spacing, p: Site, q: Site, best: Feret) -> Feret
    requires { IsSpacing (spacing_told spacing) }
    ensures { IsBetter (spacing_told spacing) p q best result }
{
    let square = square_between(spacing, p, q);
    if square < best.square {
        return best;
    }
    better(spacing, p, q, square, best)
}

// The best pair with those of the site with a place and the sites from it on.
fn with_site(spacing: Spacing, sites: &[Site], at: usize, across: u64, best: Feret) -> Feret
    requires spacing { IsSpacing (spacing_told spacing) }
    requires within { at < length sites.now }
    requires layered { AreLayered sites.now }
    requires across { IsAcross (spacing_told spacing) sites.now across }
    requires small { across ≤ 2 ^ 53 }
    requires pair { IsPairIn (spacing_told spacing) sites.now best }
    ensures { IsBestWith (spacing_told spacing) sites.now at at best result }
{
    let mut best = best;
    let p = sites[at];
    let count = sites.len();
    for k in 0..count - at {
        let q = sites[count - 1 - k];
        if squared_length(spacing.z, p.z, q.z) + across < best.square {
            return best;
        }
        best = with_pair(spacing, p, q, best);
    }
    best
}

// The square of how far sites are apart within layers at most.
fn across(spacing: Spacing, sites: &[Site]) -> u64
    requires { IsSpacing (spacing_told spacing) }
    ensures most { IsAcross (spacing_told spacing) sites.now result }
    ensures small { result ≤ 2 ^ 53 }
{
    let (mut left, mut right) = (u16::MAX, 0);
    let (mut top, mut bottom) = (u16::MAX, 0);
    for site in sites {
        left = left.min(site.x);
        right = right.max(site.x);
        top = top.min(site.y);
        bottom = bottom.max(site.y);
    }
    squared_length(spacing.x, left, right) + squared_length(spacing.y, top, bottom)
}

/// The two farthest of sites.
pub(crate) fn farthest(spacing: Spacing, sites: &[Site]) -> Feret
    requires spacing { IsSpacing (spacing_told spacing) }
    requires some { 1 ≤ length sites.now }
    requires layered { AreLayered sites.now }
    ensures { IsFarthest (spacing_told spacing) (IsOneOf sites.now) (IsOneOf sites.now) result }
{
    let across = across(spacing, sites);
    let mut best = Feret {
        square: 0,
        from: sites[0],
        to: sites[0],
    };
    for at in 0..sites.len() {
        best = with_site(spacing, sites, at, across, best);
    }
    best
}
