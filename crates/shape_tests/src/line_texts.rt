//! Lines of every kind, read and spelled again; and values of lines that no program shows.
//! A further line, of the plane or of space, is one more line of a text. Which texts are none stands in `lines.cases` of `run_cases`.
use shape_refute::{Naive, Refusal, Turn};
use shape_report::{Line, Report, read_claim};
use shape_space::{P2, P3, Point};
use std::alloc::{AllocError, Global};
use std::test::Fail;

// The report of the lines of a text, each read and spelled again.
fn spelled<P: Point>(alloc: Global, text: &str) -> Result<Report, Fail> {
    let mut report = Report::new(alloc);
    for line in text.lines() {
        let is_added = match read_claim::<P>(line.as_bytes()) {
            Some(claim) => report.add(&claim).is_ok(),
            None => false,
        };
        if !is_added {
            return Err(Fail::from(AllocError));
        }
    }
    Ok(report)
}

// Lines of every kind of the plane, and lines of faces.
const FLAT: &str = "shape 1 pbm 2 1 few\n\
parts 4 1 2\n\
near 0 0 -1 0 1\n\
contour 0 0 3 4 0\n\
at 12 7\n\
seg 1 4 y -1 3 0\n\
least 0 4 3 1\n\
turn x 2 7\n\
cut y 2 1 0 1 4 1 2 2 0\n\
cut x 0 1 7 1 3 5 up 6 up+y 7 up-y\n\
del 0 0\n\
tip -1 7\n\
kept 3 1 2\n\
end\n";

const SOLID: &str = "shape 1 raw 3 1 2 none\n\
face x - 3\n\
patch 2 1 0 -1 0\n\
on 0 0 0\n\
on 1 0 1\n\
off 2 0 0 1 1 0 1 1 2 1 1 up\n\
face z + 3\n\
off 2 0 0 2 1 0 1 2 1 2 1 0\n\
off -1 7 2 0 1 7 1 2 5 up-z 6 up+x\n\
end\n";

#[test]
fn lines_of_every_kind_are_read_and_written(rt: HostRuntime) -> Result<(), Fail> {
    assert!(rt; spelled::<P2>(rt.alloc(), FLAT)?.text() == FLAT.as_bytes());
    assert!(rt; spelled::<P3>(rt.alloc(), SOLID)?.text() == SOLID.as_bytes());
    Ok(())
}

#[test]
fn lines_are_read(rt: HostRuntime) {
    assert!(rt;
        matches!(
            read_claim::<P2>(b"near 10 0 -2147483648 2147483647 9223372036854775807"),
            Some(Line::Near {
                p: P2 { x: 10, y: 0 },
                q: P2 {
                    x: i32::MIN,
                    y: i32::MAX
                },
                s: 9223372036854775807
            })
        )
    );
    assert!(rt;
        matches!(
            read_claim::<P2>(b"turn x 2 7"),
            Some(Line::Gap {
                axis: 0,
                refusal: Refusal::Turned(Turn { i: 2, j: 7 })
            })
        )
    );
    let Some(Line::Seg { first, last, line }) = read_claim::<P2>(
        b"seg 1 4 y -9223372036854775808 3 -2",
    ) else {
        panic!(rt; "a `seg` line")
    };
    assert!(rt; (first, last) == (1, 4));
    let naive = Naive {
        a: [i64::MIN, 3, 0],
        mu: -2,
        axis: 1,
    };
    assert!(rt; line == naive);
}
