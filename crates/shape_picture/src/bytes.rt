//! Bytes of the picture's place, taken one by one and read ahead in pieces.
//! Never more bytes are read than the caller still wants; the size of a piece is this file's own.
ghost use Rattle.std.specs.Prelude.{◌≡◌, ◌+◌, ◌-◌, ◌≤◌, ◌<◌, Option, List, ℕ, max, [], ◌∷◌, true, length, take, drop, IfOk, OnOk, OnErr, MatchResult, MatchOption, option_to_list};
ghost use Rattle.shape_desk.specs.Desk.{Rose, IsEnd, Reads, OnlyReadsAt};
ghost use Rattle.shape_desk.specs.Line.{ahead_of};
ghost use Rattle.shape_desk.specs.declared.desk.Place.TheVariants.{Picture};
ghost use Rattle.shape_picture.specs.Bytes.{NextByte};
ghost use Rattle.shape_picture.specs.Parts.{BytesTaken, NextTaken};

use shape_desk::{Desk, Failed, Place};
use shape_space::NoMemory;
use std::alloc::Global;
use std::marker::Model;

/// The bytes at the picture's place, some of them read ahead. Contracts see the bytes that are ahead.
#[derive(Drop)]
pub struct ByteReader {
    buf: Vec<u8>,
    start: usize,
    end: usize,
}

impl Model for ByteReader {
    ghost use Rattle.std.specs.Prelude.{◌≡◌, ◌≤◌, ◌-◌, ℕ, List, take, drop};

    ghost Value = { List ℕ };

    ghost view = { λ r. take (r.end - r.start) (drop r.start r.buf.items) };

    ghost invariant = { λ r. (r.buf.len ≡ 65536) × (r.start ≤ r.end) × (r.end ≤ 65536) };
}

// Reads the next bytes of the file, not more than are wanted.
fn fill<D: Desk>(buf: &mut [u8], desk: &mut D, most: u64) -> Result<usize, Failed>
    requires size { length buf.old ≡ 65536 }
    requires most { 1 ≤ most }
    requires begun { (D.state desk.old).begun Picture ≡ true }
    ensures size { length buf.new ≡ 65536 }
    ensures few { IfOk result (λ n. n ≤ most) }
    ensures answer { Reads Picture (D.state desk.old) (D.state desk.new) result buf.new }
{
    let want = most.min(65_536) as usize;
    desk.read(Place::Picture, &mut buf[..want])
}

impl ByteReader {
    /// A reader with nothing ahead. It takes 65536 bytes of memory.
    pub fn new(alloc: Global) -> Result<ByteReader, NoMemory>
        ensures { IfOk result (λ r. r ≡ []) }
    {
        let buf = vec![in alloc; 0; 65_536]?;
        Ok(ByteReader {
            buf,
            start: 0,
            end: 0,
        })
    }

    // Reads bytes ahead where there are none.
    fn refill<D: Desk>(&mut self, desk: &mut D, most: u64) -> Result<(), Failed>
        requires most { 1 ≤ most }
        requires begun { (D.state desk.old).begun Picture ≡ true }
        ensures same { ahead_of self.new ((D.state desk.new).left Picture)
            ≡ ahead_of self.old ((D.state desk.old).left Picture) }
        ensures end { OnOk result (self.new ≡ [] → IsEnd ((D.state desk.new).left Picture)) }
        ensures cause { OnErr result
            (Rose (D.state desk.old).read_faults (D.state desk.new).read_faults) }
        ensures room { length self.new ≤ max (length self.old) most }
        ensures reads { OnlyReadsAt Picture (D.state desk.old) (D.state desk.new) }
    {
        if self.start < self.end {
            return Ok(());
        }
        let count = fill(&mut self.buf, desk, most)?;
        self.start = 0;
        self.end = count;
        Ok(())
    }

    // Takes the next of the bytes that were read ahead.
    fn pop(&mut self) -> Option<u8>
        ensures { MatchOption result ((self.old ≡ []) × (self.new ≡ []))
            (λ c. self.old ≡ c ∷ self.new) }
    {
        if self.start < self.end {
            let c = self.buf[self.start];
            self.start += 1;
            Some(c)
        } else {
            None
        }
    }

    /// Takes the next byte; none is left at the end of the file. At most `most` bytes are then ahead, unless more were before.
    pub fn next<D: Desk>(&mut self, desk: &mut D, most: u64) -> Result<Option<u8>, Failed>
        requires most { 1 ≤ most }
        requires begun { (D.state desk.old).begun Picture ≡ true }
        ensures next { NextByte
            (ahead_of self.old ((D.state desk.old).left Picture))
            (ahead_of self.new ((D.state desk.new).left Picture))
            (D.state desk.old).read_faults (D.state desk.new).read_faults result }
        ensures room { MatchResult result
            (λ o. length self.new + length (option_to_list o) ≤ max (length self.old) most)
            (λ _. length self.new ≤ max (length self.old) most) }
        ensures reads { OnlyReadsAt Picture (D.state desk.old) (D.state desk.new) }
    {
        self.refill(desk, most)?;
        Ok(self.pop())
    }

    /// Takes the next byte behind the first `at` of a file of which at most `longest` are taken.
    pub fn take<D: Desk>(
        &mut self,
        at: u64,
        longest: u64,
        desk: &mut D,
    ) -> Result<Option<u8>, Failed>
        requires more { at < longest }
        requires begun { (D.state desk.old).begun Picture ≡ true }
        ensures taken { (all : Option (List ℕ)) (front : List ℕ)
            → BytesTaken longest at all ((D.state desk.old).left Picture) self.old front
            → NextTaken longest at all ((D.state desk.new).left Picture) self.new front
            (D.state desk.old).read_faults (D.state desk.new).read_faults result }
        ensures reads { OnlyReadsAt Picture (D.state desk.old) (D.state desk.new) }
    {
        self.next(desk, longest - at)
    }
}
