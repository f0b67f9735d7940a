//! The components of a picture.
//! What a component is stands in the definitions; how it is found, in the flood.
ghost use Rattle.std.specs.Prelude.{IfOk, length};
ghost use Rattle.shape_terms.specs.Pictures.{object_points};
ghost use Rattle.shape_terms.specs.Parts.{Counts, LabelsObject};

use crate::answers::{Labels, Parts};
use crate::count::component_count;
use crate::flood::label_components;
use crate::pairing::Pairing;
use crate::places::{Background, Object};
use shape_grid::Grid;
use shape_space::NoMemory;
use std::alloc::Global;

/// Counts the components of the object in the box and of the background in the framed box.
///
/// It takes memory for a few bytes a point, and no more stack for a larger picture.
pub fn parts<P: Pairing>(alloc: Global, grid: &Grid<P>) -> Result<Parts, NoMemory>
    ensures { IfOk result (λ p. Counts grid.now
        (length (object_points grid.now)) p.object p.background) }
{
    let inside = Object::of(grid);
    let object = component_count(alloc, &inside)?;
    let outside = Background::of(grid);
    let background = component_count(alloc, &outside)?;
    Ok(Parts { object, background })
}

/// Labels the components of the object from 1 on, in the order of their first points in raster order. Background has the label 0.
///
/// It takes memory for a few bytes a point, and no more stack for a larger picture.
pub fn labels<P: Pairing>(alloc: Global, grid: &Grid<P>) -> Result<Labels, NoMemory>
    ensures { IfOk result (LabelsObject grid.now) }
{
    let inside = Object::of(grid);
    let components = label_components(alloc, &inside)?;
    Ok(Labels::of(components.labels))
}
