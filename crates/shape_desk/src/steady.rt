//! A desk in memory that never fails: the bytes of a picture and of a report, and an output that keeps nothing.
//! What it tells is defined in `specs/Steady.antt`; what is written to it is told to nobody.
ghost use Rattle.std.specs.Prelude.{◌≡◌, ◌<◌, ◌++◌, min, length, take, true, IsOk, refl};
ghost use Rattle.std.proofs.Common.{arith};
ghost use Rattle.shape_desk.specs.Desk.{Begins, Reads, Writes, other};
ghost use Rattle.shape_desk.specs.Memory.{pick};

use crate::desk::{Desk, Failed, Place};
use crate::front::read_at;

// The bytes of a place, and how many of them were read.
#[derive(Drop)]
struct Held {
    bytes: Vec<u8>,
    at: usize,
}

impl Held {
    ghost use Rattle.shape_desk.specs.Steady.{rest_of};

    // Reads as many of the bytes left as the buffer has room for.
    fn read(&mut self, buf: &mut [u8]) -> usize
        ensures count { result ≡ min (length (rest_of self.old)) (length buf.old) }
        ensures taken { rest_of self.old ≡ take result buf.new ++ rest_of self.new }
        ensures bytes { self.new.bytes ≡ self.old.bytes }
        ensures length { length buf.new ≡ length buf.old }
    {
        let count = read_at(&self.bytes, self.at, buf, usize::MAX);
        self.at += count;
        count
    }
}

/// A desk in memory that never fails: the bytes of a picture and of a report, and an output that keeps nothing.
///
/// Every name is that of the picture at the one place and of the report at the other. It takes no memory.
#[derive(Drop)]
pub struct SteadyDesk {
    picture: Held,
    report: Held,
}

impl SteadyDesk {
    ghost use Rattle.shape_desk.specs.Steady.{steady, bytes_of};

    /// A desk with these bytes, of which none was read. Both places are begun.
    pub fn new(picture: Vec<u8>, report: Vec<u8>) -> SteadyDesk
        ensures state { ⟦<SteadyDesk as Desk>⟧.state result
            ≡ steady picture.items report.items }
        ensures bytes { (p : Place) → bytes_of result p ≡ pick p picture.items report.items }
    {
        SteadyDesk {
            picture: Held {
                bytes: picture,
                at: 0,
            },
            report: Held {
                bytes: report,
                at: 0,
            },
        }
    }
}

impl Desk for SteadyDesk {
    ghost use Rattle.shape_desk.specs.Steady.{state_of, left_of, bytes_of};

    ghost state = { λ d. state_of d };

    ghost tells_left = { λ d p _ _. refl };

    ghost counts = { λ d. record { reads = Prim.omega arith; writes = Prim.omega arith } };

    fn begin(&mut self, place: Place, name: &[u8]) -> Result<(), Failed>
        ensures answer { Begins place name.now (state_of self.old) (state_of self.new) result }

        // Beyond the trait: no call fails, and where the bytes that are left begin.
        ensures succeeds { IsOk result }
        ensures again { left_of self.new place ≡ bytes_of self.old place }
        ensures untouched { left_of self.new (other place) ≡ left_of self.old (other place) }
        ensures bytes { (p : Place) → bytes_of self.new p ≡ bytes_of self.old p }
    {
        match place {
            Place::Picture => self.picture.at = 0,
            Place::Report => self.report.at = 0,
        }
        Ok(())
    }

    fn read(&mut self, place: Place, buf: &mut [u8]) -> Result<usize, Failed>
        requires { (state_of self.old).begun place ≡ true }
        ensures answer { Reads place (state_of self.old) (state_of self.new) result buf.new }

        // Beyond the trait: no call fails, and each reads all for which there is room.
        ensures count { result ≡ Ok (min (length (left_of self.old place)) (length buf.old)) }
        ensures bytes { (p : Place) → bytes_of self.new p ≡ bytes_of self.old p }
    {
        match place {
            Place::Picture => Ok(self.picture.read(buf)),
            Place::Report => Ok(self.report.read(buf)),
        }
    }

    fn write(&mut self, bytes: &[u8]) -> Result<usize, Failed>
        requires { 0 < length bytes.now }
        ensures answer { Writes bytes.now (state_of self.old) (state_of self.new) result }

        // Beyond the trait: no call fails, and each takes all bytes.
        ensures count { result ≡ Ok (length bytes.now) }
        ensures bytes { (p : Place) → bytes_of self.new p ≡ bytes_of self.old p }
    {
        Ok(bytes.len())
    }
}
