//! The bounds of sides, coordinates and counts as the program has them: the numbers that `Limits` of the definitions names.
//! A bound is changed in both places, and `are_limits` is refused while they differ.
ghost use Rattle.std.specs.Prelude.{◌≡◌, pos};
ghost use Rattle.shape_terms.specs.Limits.{most_flat, most_solid, most_bytes, most_flat_trial, most_solid_trial, most_spacing, most_coordinate, most_way, far};

/// The greatest side of a flat picture, in pixels.
pub const MOST_FLAT: i32 = 16384;

/// The greatest side of a solid picture, in voxels.
pub const MOST_SOLID: i32 = 1024;

/// The most bytes of a picture in a file.
pub const MOST_BYTES: u64 = 1 << 30;

/// The greatest side of a flat picture that a seed gives, in pixels.
pub const MOST_FLAT_TRIAL: i32 = 2048;

/// The greatest side of a solid picture that a seed gives, in voxels.
pub const MOST_SOLID_TRIAL: i32 = 192;

/// The greatest length of a voxel's side, in the unit of its spacing.
pub const MOST_SPACING: u32 = 1000;

/// The greatest coordinate of a point of a framed box, with room to spare.
pub const MOST_COORDINATE: u32 = 20000;

/// A way that is longer than each line of a framed box.
pub const MOST_WAY: u32 = 2 * MOST_COORDINATE;

/// A squared distance that no two points of a framed box have.
pub const FAR: u32 = MOST_WAY * MOST_WAY;

ghost use Rattle.shape_space.specs.declared.limits.TheConstants.{
  MOST_FLAT,
  MOST_SOLID,
  MOST_BYTES,
  MOST_FLAT_TRIAL,
  MOST_SOLID_TRIAL,
  MOST_SPACING,
  MOST_COORDINATE,
  MOST_WAY,
  FAR,
};

/// A law: the program's bounds are those of the definitions. It does nothing.
pub fn are_limits()
    ensures flat { MOST_FLAT ≡ pos most_flat }
    ensures solid { MOST_SOLID ≡ pos most_solid }
    ensures bytes { MOST_BYTES ≡ most_bytes }
    ensures flat_trial { MOST_FLAT_TRIAL ≡ pos most_flat_trial }
    ensures solid_trial { MOST_SOLID_TRIAL ≡ pos most_solid_trial }
    ensures spacing { MOST_SPACING ≡ most_spacing }
    ensures coordinate { MOST_COORDINATE ≡ most_coordinate }
    ensures way { MOST_WAY ≡ most_way }
    ensures far { FAR ≡ far }
{}
