//! The balls that a report hands out beside its text, by number. What the text says of them is a case of `run_cases`.
use crate::pictures::stepped;
use shape_balls::balls;
use shape_space::P2;
use std::test::Fail;

// Two pixels have a ball each, and a square has one.
#[test]
fn each_ball_is_told(rt: HostRuntime) -> Result<(), Fail> {
    let pair = balls(rt.alloc(), &stepped(rt.alloc(), P2 { x: 2, y: 1 }, 1)?)?;
    assert!(rt; pair.len() == 2);
    if pair.len() == 2 {
        assert!(rt; pair.ball(1).centre == P2 { x: 1, y: 0 });
    }
    let square = balls(rt.alloc(), &stepped(rt.alloc(), P2 { x: 3, y: 3 }, 1)?)?;
    assert!(rt; square.len() == 1);
    if square.len() == 1 {
        let ball = square.ball(0);
        assert!(rt; ball.centre == P2 { x: 1, y: 1 } && ball.s == 4);
    }
    Ok(())
}
