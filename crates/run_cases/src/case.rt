//! What a case is about: its two files and the words that it runs. Here a desk is laid over them.
use crate::programs::ended;
use shape_desk::MemoryDesk;
use shape_space::NoMemory;
use std::alloc::{AllocError, Global};
use std::io;

/// The words of a command, and the files `a` and `b` that it may read.
#[derive(Drop)]
pub(crate) struct Case {
    pub(crate) words: String,
    pub(crate) a: Vec<u8>,
    pub(crate) b: Vec<u8>,
}

/// How a desk fails: the calls with these numbers, where 0 is none, and no call moves more bytes than a piece.
#[derive(Clone, Copy)]
pub(crate) struct Fault {
    pub(crate) bad_read: u64,
    pub(crate) bad_write: u64,
    pub(crate) piece: usize,
}

/// A desk on which no call fails.
pub(crate) const STEADY: Fault = Fault {
    bad_read: 0,
    bad_write: 0,
    piece: 3,
};

/// What a run wrote, and how it ended.
#[derive(Drop)]
pub(crate) struct Answer {
    pub(crate) text: Vec<u8>,
    pub(crate) end: String,
}

// No run here writes more bytes.
const ROOM: usize = 200000;

/// Want of memory as the error of a program.
pub(crate) fn wanting(_: NoMemory) -> io::Error {
    io::Error::from(AllocError)
}

/// A desk with the files of a case, the second with this text.
pub(crate) fn desk_of(
    alloc: Global,
    case: &Case,
    b: &[u8],
    fault: Fault,
) -> io::Result<MemoryDesk> {
    let mut files = Vec::new(alloc);
    files.push((b"a".to_vec(alloc)?, case.a.as_slice().to_vec(alloc)?))?;
    files.push((b"b".to_vec(alloc)?, b.to_vec(alloc)?))?;
    let mut bad_reads = Vec::new(alloc);
    bad_reads.push(fault.bad_read)?;
    let mut bad_writes = Vec::new(alloc);
    bad_writes.push(fault.bad_write)?;
    let piece = fault.piece.max(1);
    MemoryDesk::new(alloc, files, bad_reads, bad_writes, piece, ROOM).map_err(wanting)
}

/// What a case comes to on a steady desk, where `b` has this text.
pub(crate) fn answer_of(alloc: Global, case: &Case, b: &[u8]) -> io::Result<Answer> {
    let mut desk = desk_of(alloc, case, b, STEADY)?;
    let end = ended(alloc, case.words.as_str(), &mut desk)?;
    let text = desk.output().to_vec(alloc)?;
    Ok(Answer { text, end })
}

impl Case {
    /// What the case comes to on a steady desk.
    pub(crate) fn run(&self, alloc: Global) -> io::Result<Answer> {
        answer_of(alloc, self, self.b.as_slice())
    }
}
