//! Files that no test could hold: a comment up to the most bytes that a picture may have, and a volume without end.
//! What other files are read as stands in `pbm.cases` and `raw.cases` of `run_cases`.
ghost use Rattle.std.specs.Prelude.{◌<◌, ◌^◌, true, None};

use shape_desk::{Desk, Failed, Place};
use shape_picture::{PictureError, PictureFault, read_pbm, read_raw};
use shape_space::{MOST_BYTES, P3, Sides};
use std::alloc::{AllocError, Global};
use std::test::Fail;

// A file of some bytes and then so many blanks, which are not held. The desk tells nothing.
#[derive(Drop)]
struct Blanks {
    head: &'static [u8],
    at: usize,
    blanks: u64,
    ghost none: { 0 < 2 ^ 64 },
}

impl Desk for Blanks {
    ghost state = { λ d. record {
      files = None;
      left = λ p. None;
      begun = λ p. true;
      written = None;
      read_faults = 0;
      write_faults = 0;
    } };

    ghost tells_left = { λ d p tells _. tells };

    ghost counts = { λ d. record { reads = d.none; writes = d.none } };

    fn begin(&mut self, _place: Place, _name: &[u8]) -> Result<(), Failed> {
        Ok(())
    }

    fn read(&mut self, _place: Place, buf: &mut [u8]) -> Result<usize, Failed> {
        if buf.is_empty() {
            return Ok(0);
        }
        if self.at < self.head.len() {
            buf[0] = self.head[self.at];
            self.at += 1;
            return Ok(1);
        }
        let count = buf.len().min(self.blanks as usize);
        buf[..count].fill(b' ');
        self.blanks -= count as u64;
        Ok(count)
    }

    fn write(&mut self, bytes: &[u8]) -> Result<usize, Failed> {
        Ok(bytes.len())
    }
}

// The fault of a file with so many bytes, `P1` and then a comment, whose bytes are read fastest.
fn long_fault(alloc: Global, length: u64) -> Option<PictureError> {
    let mut desk = Blanks {
        head: b"P1#",
        at: 0,
        blanks: length.saturating_sub(3),
    };
    match read_pbm(alloc, &mut desk) {
        Ok(_) => None,
        Err(error) => Some(error),
    }
}

#[test]
fn longest(rt: HostRuntime) {
    let short = PictureFault::Short { at: 30000000 };
    assert!(rt; long_fault(rt.alloc(), 30000000) == Some(PictureError::Bad(short)));
    let too_long = PictureFault::TooLong;
    assert!(rt; long_fault(rt.alloc(), MOST_BYTES) == Some(PictureError::Bad(too_long)));
}

#[test]
fn endless(rt: HostRuntime) -> Result<(), Fail> {
    let mut desk = Blanks {
        head: b"",
        at: 0,
        blanks: u64::MAX,
    };
    let Some(sides) = Sides::try_new(P3 { x: 2, y: 2, z: 2 }) else {
        return Err(Fail::from(AllocError));
    };
    let read = read_raw(rt.alloc(), &mut desk, sides);
    assert!(rt; matches!(read, Err(PictureError::Bad(PictureFault::Trailing))));
    // the volume and one byte more
    assert!(rt; desk.blanks == u64::MAX - 9);
    Ok(())
}
