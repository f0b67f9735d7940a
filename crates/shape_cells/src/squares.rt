//! The squared distance of each point of a box in raster order: four bytes each, unless one is beyond them.
//! How many bytes a square takes changes nothing outside this file.
ghost use Rattle.std.specs.Prelude.{◌≡◌, ◌<◌, ◌^◌, ℕ, IfOk, OnOk, OnErr, IfSome, length, replicate, slice_index, slice_set};

use shape_space::NoMemory;
use std::alloc::Global;
use std::marker::Model;

// The squares: of no picture is one beyond four bytes, but a report may tell any.
#[derive(Drop)]
enum Kept {
    Short(Vec<u32>),
    Long(Vec<u64>),
}

// The same squares in eight bytes each.
fn widened(short: &Vec<u32>) -> Result<Vec<u64>, NoMemory>
    ensures { IfOk result (λ v. v.items ≡ short.now.items) }
{
    let mut long = Vec::with_capacity(*short.allocator(), short.len())?;
    for &square in short.as_slice() {
        long.push(u64::from(square))?;
    }
    Ok(long)
}

// Numbers of four bytes, as they stand.
fn lent(short: &[u32]) -> &[u32]
    ensures same { result.now ≡ short.now }
    ensures few { (k : ℕ) → slice_index result.now k < 2 ^ 32 }
{
    short
}

/// A squared distance of each point of a box, in raster order.
///
/// It takes four bytes for each, and eight once there was one that four cannot hold.
#[derive(Drop)]
pub struct Squares {
    kept: Kept,
}

impl Model for Squares {
    ghost use Rattle.std.specs.Prelude.{List, ℕ};
    ghost use Rattle.shape_cells.specs.Kept.{numbers_of};

    ghost Value = { List ℕ };

    ghost view = { λ s. numbers_of s.kept };
}

impl Squares {
    /// So many squares, each 0.
    pub fn new(alloc: Global, count: usize) -> Result<Squares, NoMemory>
        ensures { IfOk result (λ s. s ≡ replicate count 0) }
    {
        let short = vec![in alloc; 0; count]?;
        Ok(Squares {
            kept: Kept::Short(short),
        })
    }

    /// The squares, each in four bytes.
    pub fn of(squares: Vec<u32>) -> Squares
        ensures { result ≡ squares.items }
    {
        Squares {
            kept: Kept::Short(squares),
        }
    }

    /// The squares, lent as they stand where each is kept in four bytes. `None` tells nothing of them.
    pub fn short(&self) -> Option<&[u32]>
        ensures same { IfSome result (λ s. s.now ≡ self.now) }
        ensures few { IfSome result (λ s. (k : ℕ) → slice_index s.now k < 2 ^ 32) }
    {
        match &self.kept {
            Kept::Short(squares) => Some(lent(squares.as_slice())),
            Kept::Long(_) => None,
        }
    }

    /// How many squares there are.
    pub fn len(&self) -> usize
        ensures { result ≡ length self.now }
    {
        match &self.kept {
            Kept::Short(squares) => squares.len(),
            Kept::Long(squares) => squares.len(),
        }
    }

    /// The square at a place.
    #[inline]
    pub fn get(&self, i: usize) -> u64
        requires { i < length self.now }
        ensures { result ≡ slice_index self.now i }
    {
        match &self.kept {
            Kept::Short(squares) => u64::from(squares[i]),
            Kept::Long(squares) => squares[i],
        }
    }

    /// Makes this the square at a place. Where there is no memory for it, nothing changes.
    pub fn set(&mut self, i: usize, square: u64) -> Result<(), NoMemory>
        requires { i < length self.old }
        ensures set { OnOk result (self.new ≡ slice_set self.old i square) }
        ensures same { OnErr result (self.new ≡ self.old) }
    {
        match &mut self.kept {
            Kept::Long(squares) => squares[i] = square,
            Kept::Short(squares) => match u32::try_from(square) {
                Ok(short) => squares[i] = short,
                Err(_) => {
                    let mut long = widened(squares)?;
                    long[i] = square;
                    self.kept = Kept::Long(long);
                }
            },
        }
        Ok(())
    }
}
