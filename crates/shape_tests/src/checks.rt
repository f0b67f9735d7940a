//! The laws of checks, each called once; and how much of a report is read, which no run shows.
use crate::pictures::stepped;
use crate::runs::rules;
use shape_check::law::{holding_is_answered, holding_shows, one_first_bad};
use shape_check::{Judgement, check_flat};
use shape_desk::{Desk, MemoryDesk, Place};
use shape_space::P2;
use std::test::Fail;

#[test]
fn laws() {
    holding_shows();
    one_first_bad();
    holding_is_answered();
}

// Behind a bad line nothing is read: of this report the first 2048 bytes are, with its heading and its second line, which is bad.
#[test]
fn nothing_is_read_behind_a_bad_line(rt: HostRuntime) -> Result<(), Fail> {
    let alloc = rt.alloc();
    let mut report = Vec::from_slice(alloc, b"shape 1 pbm 1 1 none\n")?;
    report.extend_from_slice(&vec![in alloc; b'x'; 1024]?)?;
    report.push(b'\n')?;
    report.extend_from_slice(&vec![in alloc; b'x'; 1006]?)?;
    let mut files = Vec::new(alloc);
    files.push((Vec::from_slice(alloc, b"r")?, report))?;
    let mut desk = MemoryDesk::new(alloc, files, Vec::new(alloc), Vec::new(alloc), 4096, 0)?;
    desk.begin(Place::Report, b"r")?;
    let grid = stepped(alloc, P2 { x: 1, y: 1 }, 1)?;
    let got = check_flat(alloc, &grid, &mut desk, &mut rules(alloc)?);
    assert!(rt; matches!(got, Ok(Judgement::No { line: 2 })));
    let mut buf = [0; 8];
    assert!(rt; desk.read(Place::Report, &mut buf) == Ok(4));
    Ok(())
}
