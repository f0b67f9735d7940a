//! Reading a short line of one of the kinds of which reports have most lines, where it stands among bytes that follow.
//! What is not read here `read` reads, so a further kind is a matter of speed alone.
ghost use Rattle.std.specs.Prelude.{◌≡◌, ◌≤◌, ◌<◌, ◌+◌, IsTrue, length, take, get_or, IfSome};
ghost use Rattle.text_terms.specs.Fields.{point};
ghost use Rattle.report_terms.specs.Kinds.{Kind, first_word};
ghost use Rattle.report_text.specs.Front.{StandsAt};
ghost use Rattle.shape_report.specs.LineOf.{line_of};
ghost use Rattle.shape_report.specs.Front.{IsFront};
ghost use Rattle.shape_report.specs.declared.line.Line.TheVariants.{Near, At, On, Del};

use crate::line::Line;
use report_text::{Field, short_count, short_flat_axis, short_point, short_signed, short_why};
use shape_refute::{Bounds, Naive, Refusal, Turn};
use shape_space::Point;

/// So many bytes are looked at, with the LF.
const WINDOW: usize = 64;

// Puts a `near` line into a place. Mostly such a line stands there already, and then its fields alone are written.
#[inline(always)]
fn put_near<P: Point>(line: &mut Line<P>, p: P, q: P, s: u64)
    ensures { line.new ≡ Near p q s }
{
    match line {
        Line::Near {
            p: to_p,
            q: to_q,
            s: to_s,
        } => {
            *to_p = p;
            *to_q = q;
            *to_s = s;
        }
        _ => *line = Line::Near { p, q, s },
    }
}

// Puts a `del` line into a place, as `put_near` puts its own.
#[inline(always)]
fn put_del<P: Point>(line: &mut Line<P>, p: P)
    ensures { line.new ≡ Del p }
{
    match line {
        Line::Del { p: to_p } => *to_p = p,
        _ => *line = Line::Del { p },
    }
}

// Puts an `at` line into a place, as `put_near` puts its own.
#[inline(always)]
fn put_at<P: Point>(line: &mut Line<P>, p: P)
    ensures { line.new ≡ At p }
{
    match line {
        Line::At { p: to_p } => *to_p = p,
        _ => *line = Line::At { p },
    }
}

// Puts an `on` line into a place, as `put_near` puts its own.
#[inline(always)]
fn put_on<P: Point>(line: &mut Line<P>, p: P)
    ensures { line.new ≡ On p }
{
    match line {
        Line::On { p: to_p } => *to_p = p,
        _ => *line = Line::On { p },
    }
}

// Reads a `near` line.
#[inline(always)]
fn near<P: Point>(bytes: &[u8], line: &mut Line<P>) -> Option<usize>
    requires room { 64 ≤ length bytes.now }
    requires word { take 4 bytes.now ≡ first_word Kind.Near }
    ensures { IfSome result (λ n. IsFront P.DIM bytes.now n (line_of P.coords line.new)) }
{
    let p = short_point::<P>(bytes, 4)?;
    let q = short_point::<P>(bytes, p.end)?;
    let s = short_count(bytes, q.end)?;
    if bytes[s.end] != b'\n' {
        return None;
    }
    put_near(line, p.value, q.value, u64::from(s.value));
    Some(s.end)
}

// Reads a point that is the last field of a line.
#[inline(always)]
fn last_point<P: Point>(bytes: &[u8], at: usize) -> Option<Field<P>>
    requires { at + 25 ≤ length bytes.now }
    ensures stands { IfSome result
        (λ f. StandsAt bytes.now at f.end 24 ((point P.DIM).words (P.coords f.value))) }
    ensures fits { IfSome result (λ f. (point P.DIM).InRange (P.coords f.value)) }
    ensures lf { IfSome result (λ f. get_or bytes.now f.end 0 ≡ 10) }
{
    let p = short_point::<P>(bytes, at)?;
    if bytes[p.end] == b'\n' { Some(p) } else { None }
}

// Reads an `at` line. It is a line of flat pictures alone.
#[inline(always)]
fn at<P: Point>(bytes: &[u8], line: &mut Line<P>) -> Option<usize>
    requires room { 64 ≤ length bytes.now }
    requires word { take 2 bytes.now ≡ first_word Kind.At }
    ensures { IfSome result (λ n. IsFront P.DIM bytes.now n (line_of P.coords line.new)) }
{
    if P::DIM != 2 {
        return None;
    }
    let p = last_point(bytes, 2)?;
    put_at(line, p.value);
    Some(p.end)
}

// Reads an `on` line. It is a line of volumes alone.
#[inline(always)]
fn on<P: Point>(bytes: &[u8], line: &mut Line<P>) -> Option<usize>
    requires room { 64 ≤ length bytes.now }
    requires word { take 2 bytes.now ≡ first_word Kind.On }
    ensures { IfSome result (λ n. IsFront P.DIM bytes.now n (line_of P.coords line.new)) }
{
    if P::DIM != 3 {
        return None;
    }
    let p = last_point(bytes, 2)?;
    put_on(line, p.value);
    Some(p.end)
}

// Reads a `del` line.
#[inline(always)]
fn del<P: Point>(bytes: &[u8], line: &mut Line<P>) -> Option<usize>
    requires room { 64 ≤ length bytes.now }
    requires word { take 3 bytes.now ≡ first_word Kind.Del }
    ensures { IfSome result (λ n. IsFront P.DIM bytes.now n (line_of P.coords line.new)) }
{
    let p = last_point(bytes, 3)?;
    put_del(line, p.value);
    Some(p.end)
}

// Reads a `least` line. It is a line of flat pictures alone.
#[inline(never)]
fn least<P: Point>(bytes: &[u8], line: &mut Line<P>) -> Option<usize>
    requires room { 64 ≤ length bytes.now }
    requires word { take 5 bytes.now ≡ first_word Kind.Least }
    ensures { IfSome result (λ n. IsFront P.DIM bytes.now n (line_of P.coords line.new)) }
{
    if P::DIM != 2 {
        return None;
    }
    let low1 = short_count(bytes, 5)?;
    let high1 = short_count(bytes, low1.end)?;
    let low2 = short_count(bytes, high1.end)?;
    let high2 = short_count(bytes, low2.end)?;
    if bytes[high2.end] != b'\n' {
        return None;
    }
    let bounds = Bounds {
        low1: low1.value,
        high1: high1.value,
        low2: low2.value,
        high2: high2.value,
    };
    *line = Line::Least { bounds };
    Some(high2.end)
}

// Reads a `turn` line. It is a line of flat pictures alone.
#[inline(never)]
fn turn<P: Point>(bytes: &[u8], line: &mut Line<P>) -> Option<usize>
    requires room { 64 ≤ length bytes.now }
    requires word { take 4 bytes.now ≡ first_word Kind.Turn }
    ensures { IfSome result (λ n. IsFront P.DIM bytes.now n (line_of P.coords line.new)) }
{
    if P::DIM != 2 {
        return None;
    }
    let axis = short_flat_axis(bytes, 4)?;
    let i = short_count(bytes, axis.end)?;
    let j = short_count(bytes, i.end)?;
    if bytes[j.end] != b'\n' {
        return None;
    }
    let refusal = Refusal::Turned(Turn {
        i: i.value,
        j: j.value,
    });
    *line = Line::Gap {
        axis: axis.value,
        refusal,
    };
    Some(j.end)
}

// Reads a `seg` line. It is a line of flat pictures alone.
#[inline(never)]
fn seg<P: Point>(bytes: &[u8], line: &mut Line<P>) -> Option<usize>
    requires room { 64 ≤ length bytes.now }
    requires word { take 3 bytes.now ≡ first_word Kind.Seg }
    ensures { IfSome result (λ n. IsFront P.DIM bytes.now n (line_of P.coords line.new)) }
{
    if P::DIM != 2 {
        return None;
    }
    let first = short_count(bytes, 3)?;
    let last = short_count(bytes, first.end)?;
    let axis = short_flat_axis(bytes, last.end)?;
    let x = short_signed(bytes, axis.end)?;
    let y = short_signed(bytes, x.end)?;
    let mu = short_signed(bytes, y.end)?;
    if bytes[mu.end] != b'\n' {
        return None;
    }
    let naive = Naive {
        a: [x.value, y.value, 0],
        mu: mu.value,
        axis: axis.value,
    };
    *line = Line::Seg {
        first: first.value,
        last: last.value,
        line: naive,
    };
    Some(mu.end)
}

// Whether LF stands at a place of the bytes that are looked at.
#[inline(always)]
fn ends_at(bytes: &[u8], end: usize) -> bool
    requires { 64 ≤ length bytes.now }
    ensures { IsTrue result → (end < 64) × (get_or bytes.now end 0 ≡ 10) }
{
    end < WINDOW && bytes[end] == b'\n'
}

// Reads a `cut` line. It is a line of flat pictures alone.
#[inline(never)]
fn cut<P: Point>(bytes: &[u8], line: &mut Line<P>) -> Option<usize>
    requires room { 64 ≤ length bytes.now }
    requires word { take 3 bytes.now ≡ first_word Kind.Cut }
    ensures { IfSome result (λ n. IsFront P.DIM bytes.now n (line_of P.coords line.new)) }
{
    if P::DIM != 2 {
        return None;
    }
    let axis = short_flat_axis(bytes, 3)?;
    let why = short_why(bytes, axis.end, 2)?;
    if !ends_at(bytes, why.end) {
        return None;
    }
    *line = Line::Gap {
        axis: axis.value,
        refusal: Refusal::Cut(why.value),
    };
    Some(why.end)
}

// Reads an `off` line. It is a line of volumes alone.
#[inline(never)]
fn off<P: Point>(bytes: &[u8], line: &mut Line<P>) -> Option<usize>
    requires room { 64 ≤ length bytes.now }
    requires word { take 3 bytes.now ≡ first_word Kind.Off }
    ensures { IfSome result (λ n. IsFront P.DIM bytes.now n (line_of P.coords line.new)) }
{
    if P::DIM != 3 {
        return None;
    }
    let p = short_point::<P>(bytes, 3)?;
    let why = short_why(bytes, p.end, 3)?;
    if !ends_at(bytes, why.end) {
        return None;
    }
    *line = Line::Off {
        p: p.value,
        why: why.value,
    };
    Some(why.end)
}

/// Reads a short line that stands with its LF at the front of bytes, into a place, and answers how many bytes it has.
///
/// A line that it answers is one of the reports of pictures whose points are of type `P`, and stands in the place. It may
/// answer none where bytes begin with a line; what stands in the place is then no matter. It takes no memory.
#[inline(always)]
pub fn read_front<P: Point>(bytes: &[u8], line: &mut Line<P>) -> Option<usize>
    ensures front { IfSome result (λ n. IsFront P.DIM bytes.now n (line_of P.coords line.new)) }
    ensures inside { IfSome result (λ n. n < length bytes.now) }
{
    if bytes.len() < WINDOW {
        return None;
    }
    match bytes {
        [b'n', b'e', b'a', b'r', ..] => near(bytes, line),
        [b'd', b'e', b'l', ..] => del(bytes, line),
        [b'a', b't', ..] => at(bytes, line),
        [b'o', b'n', ..] => on(bytes, line),
        [b'o', b'f', b'f', ..] => off(bytes, line),
        [b's', b'e', b'g', ..] => seg(bytes, line),
        [b'l', b'e', b'a', b's', b't', ..] => least(bytes, line),
        [b't', b'u', b'r', b'n', ..] => turn(bytes, line),
        [b'c', b'u', b't', ..] => cut(bytes, line),
        _ => None,
    }
}
