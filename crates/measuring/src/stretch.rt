//! The points of an object as stretches, each in a line of the box along its first axis, as they come in raster order.
//! What lies within a stretch does not matter here: no point of it is as far from a point as one of its ends.
ghost use Rattle.std.specs.Prelude.{◌≡◌, [], ◌⊎◌, ◌<◌, OnOk};
ghost use Rattle.measuring.specs.Stretches.{IsPutLast, IsPutNew};

use shape_space::NoMemory;
use std::alloc::Global;

/// A stretch of an object in a line, from its first to its last point.
#[derive(Clone, Copy)]
pub(crate) struct Stretch {
    /// The raster number of its first point.
    pub(crate) first: u32,
    /// The raster number of its last point.
    pub(crate) last: u32,
}

/// The stretches of an object.
#[derive(Drop)]
pub(crate) struct Stretches {
    /// In raster order.
    pub(crate) all: Vec<Stretch>,
}

impl Stretches {
    /// None.
    pub(crate) fn new(alloc: Global) -> Stretches
        ensures { result.all.items ≡ [] }
    {
        Stretches {
            all: Vec::new(alloc),
        }
    }

    /// Puts the point whose raster number comes next, in a box whose lines have so many points.
    pub(crate) fn put(&mut self, width: u32, i: u32) -> Result<(), NoMemory>
        requires { 0 < width }
        ensures { OnOk result (IsPutLast width i self.old.all.items self.new.all.items
            ⊎ IsPutNew i self.old.all.items self.new.all.items) }
    {
        let count = self.all.len();
        if count > 0 && self.all[count - 1].first / width == i / width {
            self.all[count - 1].last = i;
            return Ok(());
        }
        self.all.push(Stretch { first: i, last: i })?;
        Ok(())
    }
}
