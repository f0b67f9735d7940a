//! The lines of one axis of a box, by number: how many there are, and where each begins.
//! The points of the box have raster numbers, and `before` and `behind` number those on the axes before and behind this one.
ghost use Rattle.std.specs.Prelude.{◌≡◌, ◌+◌, ◌*◌, ◌/◌, ◌%◌, ◌<◌, ◌≤◌, ◌^◌};

/// The number of lines.
pub fn line_count(before: u32, side: u32, behind: u32) -> u32
    requires some { 1 ≤ side }
    requires few { before * (side * behind) < 2 ^ 31 }
    ensures { result ≡ before * behind }
{
    before * behind
}

/// The raster number of the first point of line `t`. Its points are `before` apart.
pub fn line_start(t: u32, before: u32, side: u32, behind: u32) -> u32
    requires line { t < before * behind }
    requires some { 1 ≤ side }
    requires few { before * (side * behind) < 2 ^ 31 }
    ensures { result ≡ t % before + before * (side * (t / before)) }
{
    t % before + before * (side * (t / before))
}
