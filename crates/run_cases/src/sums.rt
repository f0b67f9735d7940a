//! What is told of the second moments of the objects of a picture or a volume, and of their ellipses.
//! A further measure of labels is one more word here.
use crate::case::wanting;
use crate::numbers::picture;
use measuring::{Moments, second_moments};
use shape_adj::{Pairing, labels};
use std::alloc::Global;
use std::io;

// Puts the ellipse of an object behind a text, where it has a point.
fn put_ellipse(text: &mut String, m: &Moments) -> io::Result<()> {
    match m.ellipse() {
        Some(e) => Ok(write!(
            text,
            ", axes {} {}, double {} {};",
            e.major, e.minor, e.double_x, e.double_y
        )?),
        None => Ok(text.push_str(", no ellipse;")?),
    }
}

// Puts the moments of an object behind a text, and its ellipse.
fn put_moments(text: &mut String, m: &Moments) -> io::Result<()> {
    write!(text, " {}: {} {} {}", m.count, m.x, m.y, m.z)?;
    write!(
        text,
        ", {} {} {} {} {} {}",
        m.xx, m.xy, m.yy, m.xz, m.yz, m.zz
    )?;
    put_ellipse(text, m)
}

/// The moments of the first two objects, and the ellipses of their first two coordinates.
pub(crate) fn tell_moments<P: Pairing>(alloc: Global, numbers: &[i64]) -> io::Result<String> {
    let grid = picture::<P>(alloc, numbers)?;
    let labels = labels(alloc, &grid).map_err(wanting)?;
    let all = second_moments(alloc, grid.sides(), &labels, 2).map_err(wanting)?;
    let mut text = String::new(alloc);
    for m in &all {
        put_moments(&mut text, m)?;
    }
    Ok(text)
}
