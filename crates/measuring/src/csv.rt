//! The text of a table as it grows, cell by cell.
//! What cells a row has is told in `text`.
ghost use Rattle.std.specs.Prelude.{◌≡◌, ◌<◌, [], ◌∷◌, ◌++◌, OnOk};
ghost use Rattle.std.specs.Fmt.{decimal};
ghost use Rattle.measure_terms.specs.Texts.{whole, signed, thousandths, three_digits, each_axis};

use itoa::Buffer;
use shape_space::{NoMemory, Point};
use std::alloc::Global;
use std::marker::Model;

/// A text, seen as its bytes. After a failed call nothing is said of it, and it is only dropped.
#[derive(Drop)]
pub struct Csv {
    text: Vec<u8>,
}

impl Model for Csv {
    ghost use Rattle.std.specs.Prelude.{ℕ, List};

    ghost Value = { List ℕ };

    ghost view = { λ s. s.text.items };
}

impl Csv {
    /// No text.
    pub fn new(alloc: Global) -> Csv
        ensures { result ≡ [] }
    {
        Csv {
            text: Vec::new(alloc),
        }
    }

    /// Puts bytes last.
    pub fn put(&mut self, bytes: &[u8]) -> Result<(), NoMemory>
        ensures { OnOk result (self.new ≡ self.old ++ bytes.now) }
    {
        self.text.extend_from_slice(bytes)?;
        Ok(())
    }

    /// Puts a number in decimal.
    pub fn number(&mut self, n: u128) -> Result<(), NoMemory>
        ensures { OnOk result (self.new ≡ self.old ++ decimal n) }
    {
        let mut digits = Buffer::new();
        self.put(digits.format(n).as_bytes())
    }

    // Puts the three digits of a number below a thousand: those of one that is greater by a thousand, but the first.
    fn three_digits(&mut self, n: u16) -> Result<(), NoMemory>
        requires { n < 1000 }
        ensures { OnOk result (self.new ≡ self.old ++ three_digits n) }
    {
        let mut digits = Buffer::new();
        match digits.format(1000 + n).as_bytes() {
            [_, rest @ ..] => self.put(rest),
            [] => Ok(()),
        }
    }

    /// Puts a cell with a whole number.
    pub fn whole(&mut self, n: u128) -> Result<(), NoMemory>
        ensures { OnOk result (self.new ≡ self.old ++ whole n) }
    {
        self.put(b",")?;
        self.number(n)
    }

    /// Puts a cell with a whole number that may be below 0.
    pub fn signed(&mut self, n: i128) -> Result<(), NoMemory>
        ensures { OnOk result (self.new ≡ self.old ++ signed n) }
    {
        let mut digits = Buffer::new();
        self.put(b",")?;
        self.put(digits.format(n).as_bytes())
    }

    /// Puts a cell with a number of thousandths.
    pub fn thousandths(&mut self, n: u128) -> Result<(), NoMemory>
        ensures { OnOk result (self.new ≡ self.old ++ thousandths n) }
    {
        self.put(b",")?;
        self.number(n / 1000)?;
        self.put(b".")?;
        self.three_digits((n % 1000) as u16)
    }

    /// Puts a cell with a whole number for each axis.
    pub fn whole_axes<P: Point>(&mut self, x: u32, y: u32, z: u32) -> Result<(), NoMemory>
        ensures { OnOk result (self.new ≡ self.old ++ each_axis whole P.DIM x y z) }
    {
        self.whole(x as u128)?;
        self.whole(y as u128)?;
        if P::DIM == 3 {
            self.whole(z as u128)?;
        }
        Ok(())
    }

    /// Puts a cell with thousandths for each axis.
    pub(crate) fn thousandths_axes<P: Point>(
        &mut self,
        x: u64,
        y: u64,
        z: u64,
    ) -> Result<(), NoMemory>
        ensures { OnOk result (self.new ≡ self.old ++ each_axis thousandths P.DIM x y z) }
    {
        self.thousandths(x as u128)?;
        self.thousandths(y as u128)?;
        if P::DIM == 3 {
            self.thousandths(z as u128)?;
        }
        Ok(())
    }

    /// The text.
    pub fn into_text(self) -> Vec<u8>
        ensures { result.items ≡ self }
    {
        self.text
    }
}
