//! The few points of an object among which two farthest ones are: of each of its layers the vertices of the convex hull.
//! A layer has the points that differ in their first two coordinates alone; an object of the plane is one layer.
ghost use Rattle.std.specs.Prelude.{◌≡◌, ◌+◌, ◌<◌, ◌≤◌, ℕ, List, length, map, slice_index, IfOk, OnOk};
ghost use Rattle.shape_terms.specs.Points.{sides_of, box_count};
ghost use Rattle.measure_terms.specs.Hulls.{IsHull};
ghost use Rattle.measuring.specs.Corners.{corner, corners, IsOf};
ghost use Rattle.measuring.specs.declared.site.Site.{Site};
ghost use Rattle.measuring.specs.Sites.{IsSiteOf, site_at};
ghost use Rattle.measuring.specs.Stretches.{AreStretches};
ghost use Rattle.measuring.specs.Farthest.{AreBelow};
ghost use Rattle.measuring.specs.Layers.{corner_of, AreEnds, AreSitesInOrder, IsBeside, IsLayer, AreVerticesPut, IsLayerPut, AreEnough, AreVertices};

use crate::corner::vertex;
use crate::hull_round::hull;
use crate::site::{Site, site_of};
use crate::stretch::Stretch;
use shape_space::{NoMemory, P2, Point, Sides};
use std::alloc::Global;

// Puts the ends of the stretch with a place.
fn put_ends<P: Point>(
    sides: Sides<P>,
    stretches: &[Stretch],
    at: usize,
    all: &mut Vec<Site>,
) -> Result<(), NoMemory>
    requires within { at < length stretches.now }
    requires order { AreStretches
        (slice_index (sides_of (P.coords sides.lengths)) 0) stretches.now }
    requires below { AreBelow (box_count (sides_of (P.coords sides.lengths))) stretches.now }
    ensures { AreEnds (sides_of (P.coords sides.lengths)) stretches.now at all.old.items
        → OnOk result
        (AreEnds (sides_of (P.coords sides.lengths)) stretches.now (at + 1) all.new.items) }
{
    let stretch = stretches[at];
    all.push(site_of(sides, stretch.first))?;
    all.push(site_of(sides, stretch.last))?;
    Ok(())
}

// The ends of stretches, in raster order.
fn ends<P: Point>(
    alloc: Global,
    sides: Sides<P>,
    stretches: &[Stretch],
) -> Result<Vec<Site>, NoMemory>
    requires order { AreStretches
        (slice_index (sides_of (P.coords sides.lengths)) 0) stretches.now }
    requires below { AreBelow (box_count (sides_of (P.coords sides.lengths))) stretches.now }
    ensures { IfOk result (λ v. AreEnds (sides_of (P.coords sides.lengths)) stretches.now
        (length stretches.now) v.items) }
{
    let mut all = Vec::new(alloc);
    for at in 0..stretches.len() {
        put_ends(sides, stretches, at, &mut all)?;
    }
    Ok(all)
}

// Behind the last of the sites from a place on that lie in its layer before the first that does not.
fn layer_end(sites: &[Site], from: usize) -> usize
    requires { from < length sites.now }
    ensures some { from < result }
    ensures within { result ≤ length sites.now }
    ensures layer { (k : ℕ) → from ≤ k → k < result
        → (site_at sites.now k).z ≡ (site_at sites.now from).z }
{
    let z = sites[from].z;
    for k in from + 1..sites.len() {
        if sites[k].z != z {
            return k;
        }
    }
    sites.len()
}

// The first two coordinates of sites.
fn flat(alloc: Global, sites: &[Site]) -> Result<Vec<P2>, NoMemory>
    ensures { IfOk result (λ v. corners v.items ≡ map corner_of sites.now) }
{
    let mut points = Vec::new(alloc);
    for site in sites {
        points.push(P2 {
            x: site.x as i32,
            y: site.y as i32,
        })?;
    }
    Ok(points)
}

// The site in the layer of another with these first two coordinates.
fn beside<P: Point>(sides: Sides<P>, site: Site, v: P2) -> Site
    requires site { IsSiteOf (sides_of (P.coords sides.lengths)) site }
    requires other { (q : Site)
        × IsBeside (sides_of (P.coords sides.lengths)) site (corner v) q }
    ensures { (q : Site) → IsBeside (sides_of (P.coords sides.lengths)) site (corner v) q
        → result ≡ q }
{
    let p = sides.unraster(site.number);
    let right = p.with(0, v.x);
    let q = right.with(1, v.y);
    let number = sides.raster(q);
    site_of(sides, number)
}

// Puts the site of a layer at the vertex with a place.
fn put_vertex<P: Point>(
    sides: Sides<P>,
    layer: &[Site],
    round: &[P2],
    at: usize,
    all: &mut Vec<Site>,
) -> Result<(), NoMemory>
    requires within { at < length round.now }
    requires some { 1 ≤ length layer.now }
    requires layer { IsLayer (sides_of (P.coords sides.lengths)) (site_at layer.now 0).z layer.now }
    requires hull { IsHull (IsOf (map corner_of layer.now)) (corners round.now) }
    ensures { (old : List Site)
        → AreVerticesPut layer.now (corners round.now) at old all.old.items
        → OnOk result (AreVerticesPut layer.now (corners round.now) (at + 1) old all.new.items) }
{
    let first = layer[0];
    let v = vertex(round, at);
    all.push(beside(sides, first, v))?;
    Ok(())
}

// Puts the vertices of the hull of sites of one layer.
fn put_layer<P: Point>(
    alloc: Global,
    sides: Sides<P>,
    layer: &[Site],
    all: &mut Vec<Site>,
) -> Result<(), NoMemory>
    requires some { 1 ≤ length layer.now }
    requires layer { IsLayer (sides_of (P.coords sides.lengths)) (site_at layer.now 0).z layer.now }
    ensures { OnOk result (IsLayerPut layer.now all.old.items all.new.items) }
{
    let points = flat(alloc, layer)?;
    let round = hull(alloc, points.as_slice())?;
    for at in 0..round.len() {
        put_vertex(sides, layer, round.as_slice(), at, all)?;
    }
    Ok(())
}

// Puts the vertices of the next layer of sites, and gives the place behind it.
fn put_next<P: Point>(
    alloc: Global,
    sides: Sides<P>,
    ends: &[Site],
    from: usize,
    all: &mut Vec<Site>,
) -> Result<usize, NoMemory>
    requires within { from < length ends.now }
    requires ends { AreSitesInOrder (sides_of (P.coords sides.lengths)) ends.now }
    ensures more { IfOk result (λ end. from < end) }
    ensures most { IfOk result (λ end. end ≤ length ends.now) }
    ensures put { AreEnough ends.now from all.old.items
        → IfOk result (λ end. AreEnough ends.now end all.new.items) }
{
    let end = layer_end(ends, from);
    put_layer(alloc, sides, &ends[from..end], all)?;
    Ok(end)
}

/// The vertices of the layers of an object with these stretches.
pub(crate) fn vertices<P: Point>(
    alloc: Global,
    sides: Sides<P>,
    stretches: &[Stretch],
) -> Result<Vec<Site>, NoMemory>
    requires order { AreStretches
        (slice_index (sides_of (P.coords sides.lengths)) 0) stretches.now }
    requires below { AreBelow (box_count (sides_of (P.coords sides.lengths))) stretches.now }
    ensures { IfOk result
        (λ v. AreVertices (sides_of (P.coords sides.lengths)) stretches.now v.items) }
{
    let ends = ends(alloc, sides, stretches)?;
    let mut all = Vec::new(alloc);
    let mut from = 0;
    while from < ends.len() {
        from = put_next(alloc, sides, ends.as_slice(), from, &mut all)?;
    }
    Ok(all)
}
