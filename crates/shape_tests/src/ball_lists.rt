//! Every list of centres of the full square of 3 by 3: the one that holds is that of the centre alone.
//! The ball of each other point is that point, and so is its own point; the centre's ball is tried with each own point.
use crate::pictures::stepped;
use judge_balls::check_balls;
use report_text::Judgement;
use shape_desk::SteadyDesk;
use shape_space::P2;
use std::alloc::Global;
use std::test::Fail;

/// The line of the ball of each point; that of the centre lacks its own point.
const LINES: [&[u8]; 9] = [
    b"ball 0 0 0 -1 1 0 0\n",
    b"ball 1 0 1 -1 1 1 0\n",
    b"ball 2 0 2 -1 1 2 0\n",
    b"ball 0 1 -1 1 1 0 1\n",
    b"ball 1 1 1 -1 4 ",
    b"ball 2 1 3 1 1 2 1\n",
    b"ball 0 2 0 3 1 0 2\n",
    b"ball 1 2 1 3 1 1 2\n",
    b"ball 2 2 2 3 1 2 2\n",
];

/// The points as they are spelled.
const POINTS: [&[u8]; 9] = [
    b"0 0\n", b"1 0\n", b"2 0\n", b"0 1\n", b"1 1\n", b"2 1\n", b"0 2\n", b"1 2\n", b"2 2\n",
];

// The report that lists the balls of the points whose bits are set, where the centre's ball has this own point.
fn listing(alloc: Global, bits: u32, own: &[u8]) -> Result<Vec<u8>, Fail> {
    let mut balls = Vec::new(alloc);
    let mut rest = bits;
    for line in &LINES {
        if rest % 2 == 1 {
            balls.extend_from_slice(line)?;
            if !line.ends_with(b"\n") {
                balls.extend_from_slice(own)?;
            }
        }
        rest /= 2;
    }
    let head = format!(in alloc; "balls 1 pbm 3 3 {}\n", bits.count_ones())?;
    let mut text = head.into_bytes();
    text.extend_from_slice(&balls)?;
    text.extend_from_slice(b"end\n")?;
    Ok(text)
}

#[test]
fn one_list_holds(rt: HostRuntime) -> Result<(), Fail> {
    let alloc = rt.alloc();
    let square = stepped(alloc, P2 { x: 3, y: 3 }, 1)?;
    for bits in 0..512 {
        for own in POINTS {
            let mut desk = SteadyDesk::new(Vec::new(alloc), listing(alloc, bits, own)?);
            let holds = check_balls(alloc, &square, &mut desk) == Ok(Judgement::Yes);
            assert!(rt; holds == (bits == 16));
        }
    }
    Ok(())
}
