//! Balls as circles with their centres.
//! Another look is a change of the texts here and of the same texts in `specs/Circles.antt`.
ghost use Rattle.std.specs.Prelude.{◌≡◌, ◌<◌, ◌++◌, ◌∷◌, [], ◌/◌, IfOk, OnOk};
ghost use Rattle.std.specs.List.{flat_map};
ghost use Rattle.std.specs.Fmt.{decimal};
ghost use Rattle.shape_terms.specs.Points.{sides_of};
ghost use Rattle.measure_terms.specs.Rounding.{root};
ghost use Rattle.measure_terms.specs.Texts.{three_digits};
ghost use Rattle.drawing.specs.Seen.{flat};
ghost use Rattle.draw_report.specs.Circles.{balls_in, thousandths, field_text, x_text, y_text, centre_text, circle_text, circles_layer, dot_text, centres_layer, balls_layer};
ghost use Rattle.draw_report.specs.Seen.{mark_of, all_marks, ball_of, all_balls};

use crate::part::Mark;
use drawing::Svg;
use itoa::Buffer;
use shape_space::{NoMemory, P2, Sides};
use std::alloc::Global;

/// A ball: its centre, and the square of its radius.
#[derive(Clone, Copy)]
pub struct Ball {
    /// The centre.
    pub centre: P2,
    /// The square of the radius.
    pub square: u64,
}

// Takes of a mark the ball that it is, where its centre is in the box.
fn take_ball(found: &mut Vec<Ball>, sides: Sides<P2>, mark: Mark) -> Result<(), NoMemory>
    ensures { OnOk result (all_balls found.new.items ≡ all_balls found.old.items
        ++ balls_in (sides_of (flat sides.lengths)) (mark_of mark ∷ [])) }
{
    if let Mark::Ball { centre, square } = mark {
        if sides.inside(centre) {
            found.push(Ball { centre, square })?;
        }
    }
    Ok(())
}

// The balls among marks that have their centres in the box.
fn balls_in(alloc: Global, sides: Sides<P2>, marks: &[Mark]) -> Result<Vec<Ball>, NoMemory>
    ensures { IfOk result (λ bs. all_balls bs.items
        ≡ balls_in (sides_of (flat sides.lengths)) (all_marks marks.now)) }
{
    let mut found = Vec::new(alloc);
    for mark in marks {
        take_ball(&mut found, sides, *mark)?;
    }
    Ok(found)
}

// The square root of a number, in thousandths, rounded to nearest.
fn root(square: u64) -> u128
    ensures { result ≡ root square }
{
    let whole = (4_000_000 * square as u128).isqrt();
    (whole + 1) / 2
}

/// Puts a whole number.
pub(crate) fn put_number(n: u128, svg: &mut Svg) -> Result<(), NoMemory>
    ensures { OnOk result (svg.new ≡ svg.old ++ decimal n) }
{
    let mut digits = Buffer::new();
    svg.put(digits.format(n).as_bytes())
}

// Puts the three digits of a number below a thousand: those of one that is greater by a thousand, but the first.
fn put_three_digits(n: u16, svg: &mut Svg) -> Result<(), NoMemory>
    requires { n < 1000 }
    ensures { OnOk result (svg.new ≡ svg.old ++ three_digits n) }
{
    let mut digits = Buffer::new();
    match digits.format(1000 + n).as_bytes() {
        [_, rest @ ..] => svg.put(rest),
        [] => Ok(()),
    }
}

// Puts a coordinate behind the name of its attribute.
fn put_field(name: &[u8], x: i32, svg: &mut Svg) -> Result<(), NoMemory>
    ensures { OnOk result (svg.new ≡ svg.old ++ field_text name.now x) }
{
    svg.put(name)?;
    let mut digits = Buffer::new();
    svg.put(digits.format(x).as_bytes())
}

/// Puts a number of thousandths.
pub(crate) fn put_thousandths(n: u128, svg: &mut Svg) -> Result<(), NoMemory>
    ensures { OnOk result (svg.new ≡ svg.old ++ thousandths n) }
{
    put_number(n / 1000, svg)?;
    svg.put(b".")?;
    put_three_digits((n % 1000) as u16, svg)
}

// Puts the coordinate x of the centre of a circle.
fn put_x(p: P2, svg: &mut Svg) -> Result<(), NoMemory>
    ensures { OnOk result (svg.new ≡ svg.old ++ x_text (flat p)) }
{
    put_field(b" cx=\"", p.x, svg)
}

// Puts the coordinate y of the centre of a circle.
fn put_y(p: P2, svg: &mut Svg) -> Result<(), NoMemory>
    ensures { OnOk result (svg.new ≡ svg.old ++ y_text (flat p)) }
{
    put_field(b"\" cy=\"", p.y, svg)
}

// Puts the centre of a circle.
fn put_centre(p: P2, svg: &mut Svg) -> Result<(), NoMemory>
    ensures { OnOk result (svg.new ≡ svg.old ++ centre_text (flat p)) }
{
    put_x(p, svg)?;
    put_y(p, svg)?;
    Ok(())
}

// Puts the circle of a ball.
fn put_circle(b: Ball, svg: &mut Svg) -> Result<(), NoMemory>
    ensures { OnOk result (svg.new ≡ svg.old ++ circle_text (ball_of b)) }
{
    svg.put(b"<circle")?;
    put_centre(b.centre, svg)?;
    svg.put(b"\" r=\"")?;
    put_thousandths(root(b.square), svg)?;
    svg.put(b"\"/>\n")?;
    Ok(())
}

// Puts all circles.
fn put_circles(balls: &[Ball], svg: &mut Svg) -> Result<(), NoMemory>
    ensures { OnOk result (svg.new ≡ svg.old ++ circles_layer (all_balls balls.now)) }
{
    svg.put(b"<g stroke=\"#0072B2\" stroke-width=\".12\">\n")?;
    for b in balls {
        put_circle(*b, svg)?;
    }
    svg.put(b"</g>\n")?;
    Ok(())
}

// Puts all centres.
fn put_centres(balls: &[Ball], svg: &mut Svg) -> Result<(), NoMemory>
    ensures { OnOk result (svg.new ≡ svg.old ++ centres_layer (all_balls balls.now)) }
{
    svg.put(
        b"<path transform=\"translate(-.2)\" stroke=\"#D55E00\" stroke-width=\".4\" stroke-dasharray=\".4 .6\" d=\"",
    )?;
    for b in balls {
        svg.run(b.centre, 1)?;
    }
    svg.put(b"\"/>\n")?;
    Ok(())
}

/// Puts the balls among marks, with their centres on top.
pub(crate) fn put_balls(
    alloc: Global,
    sides: Sides<P2>,
    marks: &[Mark],
    svg: &mut Svg,
) -> Result<(), NoMemory>
    ensures { OnOk result (svg.new ≡ svg.old
        ++ balls_layer (balls_in (sides_of (flat sides.lengths)) (all_marks marks.now))) }
{
    let balls = balls_in(alloc, sides, marks)?;
    put_circles(&balls, svg)?;
    put_centres(&balls, svg)
}
