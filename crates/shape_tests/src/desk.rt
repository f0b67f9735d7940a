//! Desks: what no clause says, that the calls succeed with ample memory, and the edges of lines by example, as no program shows them.
//! A further edge is one more row of a table. Which numbers are read stands in `lines.cases` of `run_cases`.
ghost use Rattle.std.specs.Prelude.{◌≤◌};

use shape_desk::{
    Desk, Failed, LineFault, LineReader, MemoryDesk, Place, SteadyDesk, put_all, put_line,
    put_number, put_number_behind_blank, put_word,
};
use std::alloc::Global;
use std::test::Fail;

// A desk of one file, whose name is `a`.
fn desk_of(
    alloc: Global,
    bytes: &[u8],
    bad_writes: &[u64],
    piece: usize,
    room: usize,
) -> Result<MemoryDesk, Fail>
    requires { 1 ≤ piece }
{
    let mut files = Vec::new(alloc);
    files.push((
        Vec::from_slice(alloc, b"a")?,
        Vec::from_slice(alloc, bytes)?,
    ))?;
    let bad = Vec::from_slice(alloc, bad_writes)?;
    Ok(MemoryDesk::new(alloc, files, Vec::new(alloc), bad, piece, room)?)
}

// A desk of the file `a` and one without a name, whose fourth call of `begin` and `read` fails.
fn two_files(alloc: Global) -> Result<MemoryDesk, Fail> {
    let mut files = Vec::new(alloc);
    files.push((
        Vec::from_slice(alloc, b"a")?,
        Vec::from_slice(alloc, b"123")?,
    ))?;
    files.push((Vec::from_slice(alloc, b"")?, Vec::from_slice(alloc, b"xy")?))?;
    let bad_reads = Vec::from_slice(alloc, &[4])?;
    Ok(MemoryDesk::new(alloc, files, bad_reads, Vec::new(alloc), 2, 0)?)
}

#[test]
fn reads_two_files(rt: HostRuntime) -> Result<(), Fail> {
    let mut desk = two_files(rt.alloc())?;
    let mut buf = [0; 4];
    assert!(rt; desk.begin(Place::Report, b"c") == Err(Failed));
    desk.begin(Place::Picture, b"a")?;
    desk.begin(Place::Report, b"")?;
    assert!(rt; desk.read(Place::Picture, &mut buf) == Err(Failed));
    assert!(rt; desk.read(Place::Picture, &mut buf) == Ok(2) && buf == [b'1', b'2', 0, 0]);
    assert!(rt; desk.read(Place::Report, &mut buf) == Ok(2) && buf == [b'x', b'y', 0, 0]);
    assert!(rt; desk.read(Place::Picture, &mut buf) == Ok(1));
    assert!(rt; desk.read(Place::Picture, &mut buf) == Ok(0));
    Ok(())
}

#[test]
fn writes_until_the_room_is_used(rt: HostRuntime) -> Result<(), Fail> {
    let alloc = rt.alloc();
    let mut desk = desk_of(alloc, b"", &[2], 2, 6)?;
    assert!(rt; put_line(b"abc", &mut desk) == Err(Failed));
    assert!(rt; desk.output() == b"ab".as_slice() && put_line(b"c", &mut desk) == Ok(()));
    assert!(rt; put_line(b"de", &mut desk) == Err(Failed));
    assert!(rt; desk.output() == b"abc\nde".as_slice());
    Ok(())
}

#[test]
fn puts_words_and_numbers(rt: HostRuntime) {
    let mut buf = [b'.'; 50];
    let mut at = put_word(b"near", &mut buf, 1);
    at = put_number(i64::MIN, &mut buf, at);
    at = put_number(0, &mut buf, at);
    assert!(rt; &buf[..at] == b".near-92233720368547758080".as_slice());
}

#[test]
fn puts_numbers_behind_blanks(rt: HostRuntime) {
    let mut buf = [b'.'; 110];
    let mut at = put_number_behind_blank(0, &mut buf, 1);
    at = put_number_behind_blank(999, &mut buf, at);
    at = put_number_behind_blank(9999, &mut buf, at);
    at = put_number_behind_blank(-1, &mut buf, at);
    at = put_number_behind_blank(i64::MIN, &mut buf, at);
    assert!(rt; &buf[..at] == b". 0 999 9999 -1 -9223372036854775808".as_slice());
}

// A line of so many bytes, and what is read.
const LENGTHS: [(usize, Result<Option<usize>, LineFault>); 3] = [
    (0, Ok(Some(0))),
    (1024, Ok(Some(1024))),
    (1025, Err(LineFault::TooLong)),
];

#[test]
fn reads_lines_of_any_length_up_to_1024(rt: HostRuntime) -> Result<(), Fail> {
    let alloc = rt.alloc();
    for (count, want) in &LENGTHS {
        let mut bytes = vec![in alloc; b'x'; *count]?;
        bytes.push(b'\n')?;
        let mut desk = desk_of(alloc, &bytes, &[], 700, 0)?;
        desk.begin(Place::Report, b"a")?;
        let mut reader = LineReader::new(alloc)?;
        assert!(rt; reader.next_line(&mut desk) == *want, "{count}");
    }
    Ok(())
}

// Texts, and what is read behind their third line.
const ENDS: [(&[u8], Result<Option<usize>, LineFault>); 2] = [
    (b"ab\n\nc\n", Ok(None)),
    (b"ab\n\nc\nd", Err(LineFault::NoLf)),
];

#[test]
fn ends_at_the_last_line_feed(rt: HostRuntime) -> Result<(), Fail> {
    for (bytes, want) in &ENDS {
        let mut desk = desk_of(rt.alloc(), bytes, &[], 3, 0)?;
        desk.begin(Place::Report, b"a")?;
        let mut reader = LineReader::new(rt.alloc())?;
        assert!(rt;
            reader.next_line(&mut desk) == Ok(Some(2)) && reader.line() == b"ab".as_slice()
        );
        assert!(rt; reader.next_line(&mut desk) == Ok(Some(0)));
        assert!(rt; reader.next_line(&mut desk) == Ok(Some(1)) && reader.line() == b"c".as_slice());
        assert!(rt; reader.next_line(&mut desk) == *want && reader.line() == b"c".as_slice());
    }
    Ok(())
}

#[test]
fn reads_a_report_twice(rt: HostRuntime) -> Result<(), Fail> {
    let alloc = rt.alloc();
    let picture = Vec::from_slice(alloc, b"P1")?;
    let report = Vec::from_slice(alloc, b"ab\nc\n")?;
    let mut desk = SteadyDesk::new(picture, report);
    for _ in 0..2 {
        let mut reader = LineReader::new(alloc)?;
        assert!(rt; reader.next_line(&mut desk) == Ok(Some(2)));
        assert!(rt; reader.next_line(&mut desk) == Ok(Some(1)) && reader.line() == b"c".as_slice());
        assert!(rt; reader.next_line(&mut desk) == Ok(None));
        assert!(rt; put_all(b"end", &mut desk) == Ok(()));
        desk.begin(Place::Report, b"any")?;
    }
    let mut buf = [0; 4];
    assert!(rt; desk.read(Place::Picture, &mut buf) == Ok(2) && buf == [b'P', b'1', 0, 0]);
    Ok(())
}
