//! What the tests of runs share: words, a desk in memory, the rules of the program, and a shelf with a rule of the caller.
//! No test stands here.
use shape_cli::{Outcome, run, shelf};
use shape_desk::MemoryDesk;
use shape_rules::{CurveEnds, EndRule, Entry, FewEnds, Name, NoEnds, Shelf};
use std::alloc::{AllocError, Global};
use std::test::Fail;

// A desk with the files `a` and `b`, whose calls move 4 bytes at most.
pub(crate) fn desk(alloc: Global, picture: &[u8], report: &[u8]) -> Result<MemoryDesk, Fail> {
    let mut files = Vec::new(alloc);
    files.push((b"a".to_vec(alloc)?, picture.to_vec(alloc)?))?;
    files.push((b"b".to_vec(alloc)?, report.to_vec(alloc)?))?;
    Ok(MemoryDesk::new(alloc, files, Vec::new(alloc), Vec::new(alloc), 4, 9000)?)
}

// The words of a command line.
fn words(alloc: Global, line: &str) -> Result<Vec<Vec<u8>>, Fail> {
    let mut words = Vec::new(alloc);
    for word in line.split_whitespace() {
        words.push(word.as_bytes().to_vec(alloc)?)?;
    }
    Ok(words)
}

// The rules of the program.
pub(crate) fn rules(alloc: Global) -> Result<Shelf, Fail> {
    let none = Box::new(alloc, NoEnds);
    let curve = Box::new(alloc, CurveEnds);
    let few = Box::new(alloc, FewEnds::new(2));
    let (Ok(none), Ok(curve), Ok(few)) = (none, curve, few) else {
        return Err(Fail::from(AllocError));
    };
    Ok(shelf(alloc, none, curve, few)?)
}

// A shelf on which this rule stands alone, under the name `curve`.
fn single(alloc: Global, rule: Box<dyn EndRule>) -> Result<Shelf, Fail> {
    let Some(name) = Name::new(b"curve") else {
        return Err(Fail::from(AllocError));
    };
    let mut rules: Vec<Entry> = Vec::new(alloc);
    rules.push(Entry { name, rule })?;
    Ok(Shelf::new(rules))
}

// How a run of the words of this line ends over a desk, by a rule of the caller.
pub(crate) fn ran(
    alloc: Global,
    line: &str,
    desk: &mut MemoryDesk,
    rule: Box<dyn EndRule>,
) -> Result<Outcome, Fail> {
    let shelf = single(alloc, rule)?;
    let words = words(alloc, line)?;
    Ok(run(alloc, &words, desk, shelf))
}
