//! What is counted of an object, and the surface that follows from it.
//! How it is counted stands elsewhere; another weight is a change here and of the same number in `Surface`.
ghost use Rattle.std.specs.Prelude.{◌≡◌};
ghost use Rattle.measure_terms.specs.Surface.{surface};
ghost use Rattle.measuring.specs.MinkowskiTold.{told};

/// What the Minkowski measures of an object are made of, beside its size: its Euler number, and how many steps lead from a point of
/// it to a near neighbour that is not of it, by the axes that they move along. Of two opposite directions one counts.
#[derive(Clone, Copy, Debug, PartialEq, Eq)]
pub struct Minkowski {
    /// Corners less edges plus faces less cubes of the union of its closed unit cubes, of its unit squares in the plane.
    pub euler: i64,
    /// The steps that lead out along x.
    pub x: u64,
    /// The steps that lead out along y.
    pub y: u64,
    /// The steps that lead out along z, in space.
    pub z: u64,
    /// The steps that lead out along x and y: the diagonals of faces.
    pub xy: u64,
    /// The steps that lead out along x and z, in space.
    pub xz: u64,
    /// The steps that lead out along y and z, in space.
    pub yz: u64,
    /// The steps that lead out along all three axes: the diagonals of cubes, in space.
    pub xyz: u64,
}

/// The surface of an object of space by Crofton's formula, in thousandths of a unit square.
pub fn surface(m: &Minkowski) -> u128
    ensures { result ≡ surface (told m.now) }
{
    let cuts = 36_622_312_963_809 * (m.x as u128 + m.y as u128 + m.z as u128)
        + 20_919_402_194_967 * (m.xy as u128 + m.xz as u128 + m.yz as u128)
        + 16_256_169_682_097 * m.xyz as u128;
    (cuts + 50_000_000_000) / 100_000_000_000
}
