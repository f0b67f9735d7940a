//! Reading a short number, of at most six digits, at the front of bytes: most numbers of a report are as short.
//! It answers none where `read_number` may yet find a number; how many digits are short may be changed here.
ghost use Rattle.std.specs.Prelude.{◌≡◌, ◌≤◌, ◌<◌, ◌+◌, ◌*◌, length, get_or, IfSome};
ghost use Rattle.shape_desk.specs.Number.{IsShortNumber};

/// A number without sign that stands at the front of bytes.
#[derive(Clone, Copy)]
pub struct Short {
    /// Its value.
    pub value: u32,
    /// How many bytes it has.
    pub len: usize,
}

/// The number of digits past those of a short number.
const LONG: usize = 7;

// What a byte stands for as a digit; it is more than 9 where the byte is none.
#[inline(always)]
fn digit_value(byte: u8) -> u32
    ensures { result ≤ 9 → byte ≡ 48 + result }
{
    u32::from(byte).wrapping_sub(48)
}

// The value with one digit more.
#[inline(always)]
fn with_digit(value: u32, digit: u32) -> u32
    requires fits { value < 1000000 }
    requires digit { digit ≤ 9 }
    ensures { result ≡ value * 10 + digit }
{
    value * 10 + digit
}

// The digits at the front, the first of which is not 0, as a short number.
#[inline(always)]
fn short_run(bytes: &[u8]) -> Option<Short>
    requires room { 7 ≤ length bytes.now }
    requires low { 48 < get_or bytes.now 0 0 }
    requires high { get_or bytes.now 0 0 ≤ 57 }
    ensures { IfSome result (λ s. IsShortNumber bytes.now s.len s.value) }
{
    let mut value = u32::from(bytes[0]) - u32::from(b'0');
    for len in 1..LONG {
        let digit = digit_value(bytes[len]);
        if digit > 9 {
            return Some(Short { value, len });
        }
        value = with_digit(value, digit);
    }
    None
}

/// Reads a short number at the front of bytes, and of several digits the first is not 0. It looks at seven bytes at most.
///
/// Whether a number ends there is for its reader to see, in the byte behind it: behind 0 a digit may stand. It may answer none where
/// `read_number` answers a number.
#[inline(always)]
pub fn read_short(bytes: &[u8]) -> Option<Short>
    requires { 7 ≤ length bytes.now }
    ensures { IfSome result (λ s. IsShortNumber bytes.now s.len s.value) }
{
    let first = bytes[0];
    if first > b'0' && first <= b'9' {
        return short_run(bytes);
    }
    if first == b'0' {
        return Some(Short { value: 0, len: 1 });
    }
    None
}
