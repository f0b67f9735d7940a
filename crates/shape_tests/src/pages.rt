//! A page as it is told on: when it goes to the desk, and what a write that fails leaves.
//! That all that is told is written in the end is proved; a further way to tell on a page is one more test.
use report_text::Page;
use shape_desk::MemoryDesk;
use shape_report::Line;
use shape_space::P2;
use std::alloc::Global;
use std::test::Fail;

// A desk without files, whose output takes so many bytes.
fn desk(alloc: Global, room: usize) -> Result<MemoryDesk, Fail> {
    Ok(MemoryDesk::new(
        alloc,
        Vec::new(alloc),
        Vec::new(alloc),
        Vec::new(alloc),
        999,
        room,
    )?)
}

// Tells 8000 lines of ten bytes.
fn tell_many(page: &mut Page, desk: &mut MemoryDesk) {
    let line = Line::Del {
        p: P2 { x: 10, y: 20 },
    };
    for _ in 0..8000 {
        page.line(&line, desk);
    }
}

#[test]
fn a_page_is_written_when_a_longest_line_has_no_room(rt: HostRuntime) -> Result<(), Fail> {
    let mut desk = desk(rt.alloc(), 100000)?;
    let mut page = Page::new(rt.alloc())?;
    tell_many(&mut page, &mut desk);
    assert!(rt; desk.output().len() == 64520);
    assert!(rt; page.finish(&mut desk).is_ok());
    assert!(rt; desk.output().len() == 80000);
    Ok(())
}

#[test]
fn a_failed_write_is_told_at_the_end(rt: HostRuntime) -> Result<(), Fail> {
    let mut desk = desk(rt.alloc(), 70007)?;
    let mut page = Page::new(rt.alloc())?;
    tell_many(&mut page, &mut desk);
    page.text(b"more", &mut desk);
    tell_many(&mut page, &mut desk);
    assert!(rt; page.finish(&mut desk).is_err());
    assert!(rt; desk.output().len() == 70007);
    assert!(rt; desk.output().ends_with(b"del 10 20\ndel 10 "));
    Ok(())
}
