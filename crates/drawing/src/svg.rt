//! The text of an SVG as it grows, piece by piece.
//! What pieces there are is told here; which of them a layer has, in `layers`.
ghost use Rattle.std.specs.Prelude.{◌≡◌, [], ◌∷◌, ◌++◌, OnOk};
ghost use Rattle.std.specs.Fmt.{decimal, signed_decimal};
ghost use Rattle.drawing.specs.Seen.{flat};
ghost use Rattle.drawing.specs.Svg.{place_text, run_text};

use itoa::Buffer;
use shape_space::{NoMemory, P2};
use std::alloc::Global;
use std::marker::Model;

/// A text, seen as its bytes. After a failed call nothing is said of it, and it is only dropped.
#[derive(Drop)]
pub struct Svg {
    text: Vec<u8>,
}

impl Model for Svg {
    ghost use Rattle.std.specs.Prelude.{ℕ, List};

    ghost Value = { List ℕ };

    ghost view = { λ s. s.text.items };
}

impl Svg {
    /// No text.
    pub fn new(alloc: Global) -> Svg
        ensures { result ≡ [] }
    {
        Svg {
            text: Vec::new(alloc),
        }
    }

    /// Puts bytes last.
    pub fn put(&mut self, bytes: &[u8]) -> Result<(), NoMemory>
        ensures { OnOk result (self.new ≡ self.old ++ bytes.now) }
    {
        self.text.extend_from_slice(bytes)?;
        Ok(())
    }

    /// Puts a count in decimal.
    pub fn count(&mut self, n: usize) -> Result<(), NoMemory>
        ensures { OnOk result (self.new ≡ self.old ++ decimal n) }
    {
        let mut digits = Buffer::new();
        self.put(digits.format(n).as_bytes())
    }

    // Puts a coordinate in decimal.
    fn coordinate(&mut self, x: i32) -> Result<(), NoMemory>
        ensures { OnOk result (self.new ≡ self.old ++ signed_decimal x) }
    {
        let mut digits = Buffer::new();
        self.put(digits.format(x).as_bytes())
    }

    /// Puts a point: its coordinates with a blank between.
    pub fn place(&mut self, p: P2) -> Result<(), NoMemory>
        ensures { OnOk result (self.new ≡ self.old ++ place_text (flat p)) }
    {
        self.coordinate(p.x)?;
        self.put(b" ")?;
        self.coordinate(p.y)
    }

    /// Puts a run of so many points.
    pub fn run(&mut self, first: P2, count: usize) -> Result<(), NoMemory>
        ensures { OnOk result
            (self.new ≡ self.old ++ run_text (record { first = flat first; count = count })) }
    {
        self.put(b"M")?;
        self.place(first)?;
        self.put(b"h")?;
        self.count(count)
    }

    /// The text.
    pub fn into_text(self) -> Vec<u8>
        ensures { result.items ≡ self }
    {
        self.text
    }
}
