//! The digits of a number, put right where they are to stand: of a short one from a table, of a longer one by the crate `itoa`.
//! That puts them from the last on, so it is told where they end; how they are counted may be changed here.
ghost use Rattle.std.specs.Prelude.{◌≡◌, ◌≤◌, ◌<◌, ◌+◌, ◌/◌, ◌%◌, [], ◌∷◌, length};
ghost use Rattle.std.specs.Fmt.{decimal};
ghost use Rattle.shape_desk.specs.Putting.{PutsAt, PutsLast};

use crate::rows::put_row;
use itoa::write_digits;

// Puts the digits of a number, of which there are so many, and answers the place after them.
fn put_counted(n: u64, count: usize, buf: &mut [u8], at: usize) -> usize
    requires count { count ≡ length (decimal n) }
    requires room { at + count ≤ length buf.old }
    ensures put { PutsAt (decimal n) at buf.old buf.new result }
    ensures place { result ≡ at + count }
{
    let end = at + count;
    write_digits(n, buf, end);
    end
}

// Puts a digit last in a buffer, and answers the place after it.
#[inline(always)]
fn put_digit(d: u64, buf: &mut [u8], at: usize) -> usize
    requires digit { d < 10 }
    requires room { at + 1 ≤ length buf.old }
    ensures put { PutsLast ((48 + d) ∷ []) at buf.old buf.new result }
{
    buf[at] = b'0' + d as u8;
    at + 1
}

// Puts a blank and the digits of a number of four digits last in a buffer, and answers the place after them: the first three
// have a row in the table.
#[inline(always)]
pub(crate) fn put_four(n: u64, buf: &mut [u8], at: usize) -> usize
    requires four { 1000 ≤ n }
    requires short { n < 10000 }
    requires room { at + 5 ≤ length buf.old }
    ensures put { PutsLast (32 ∷ decimal n) at buf.old buf.new result }
    ensures few { result ≤ at + 5 }
{
    let end = put_row(n / 10, buf, at);
    put_digit(n % 10, buf, end)
}

// How many digits a number below 10000 has.
fn short_count(n: u64) -> usize
    requires { n < 10000 }
    ensures { result ≡ length (decimal n) }
{
    if n < 10 {
        return 1;
    }
    if n < 100 {
        return 2;
    }
    if n < 1000 {
        return 3;
    }
    4
}

// How many digits a number has: four for each time that its last four are cut off, and those of what is left.
fn digit_count(n: u64) -> usize
    ensures { result ≡ length (decimal n) }
{
    let mut left = n;
    let mut count = 0;
    while left >= 10_000 {
        left /= 10_000;
        count += 4;
    }
    count + short_count(left)
}

// Puts the digits of a number at a place of the buffer, and answers the place after them.
pub(crate) fn put_digits(n: u64, buf: &mut [u8], at: usize) -> usize
    requires { at + length (decimal n) ≤ length buf.old }
    ensures { PutsAt (decimal n) at buf.old buf.new result }
{
    put_counted(n, digit_count(n), buf, at)
}
