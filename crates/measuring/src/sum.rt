//! Numbers with what one point more adds to them.
//! That nothing overflows follows from how many points a box has.
ghost use Rattle.std.specs.Prelude.{◌≡◌, ◌≤◌, ◌*◌, ◌+◌, ◌+ℤ◌, nat_abs, unsigned_abs};
ghost use Rattle.shape_terms.specs.Limits.{most_points};
ghost use Rattle.measuring.specs.MinkowskiSoFar.{AreSmall};
ghost use Rattle.measuring.specs.Gains.{IsSmallGain, plus};

use crate::gain::Gain;
use crate::numbers::Minkowski;

// An Euler number with what a point adds.
fn added(n: i64, gain: i32) -> i64
    requires few { unsigned_abs n ≤ 27 * most_points }
    requires small { nat_abs gain ≤ 27 }
    ensures { result ≡ n +ℤ gain }
{
    n + gain as i64
}

// A number of steps with those of a point.
fn counted(n: u64, more: u32) -> u64
    requires few { n ≤ 32 * most_points }
    requires small { more ≤ 32 }
    ensures { result ≡ n + more }
{
    n + more as u64
}

/// The numbers of an object with what a point adds.
pub(crate) fn with_gain(m: Minkowski, gain: Gain) -> Minkowski
    requires few { AreSmall most_points m }
    requires small { IsSmallGain gain }
    ensures { result ≡ plus m gain }
{
    Minkowski {
        euler: added(m.euler, gain.euler),
        x: counted(m.x, gain.x),
        y: counted(m.y, gain.y),
        z: counted(m.z, gain.z),
        xy: counted(m.xy, gain.xy),
        xz: counted(m.xz, gain.xz),
        yz: counted(m.yz, gain.yz),
        xyz: counted(m.xyz, gain.xyz),
    }
}
