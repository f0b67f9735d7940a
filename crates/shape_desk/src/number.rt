//! Reading a decimal number at the front of bytes.
//! The spelling is the one that `put_number` writes: a change of it is a change of both and of the specification.
ghost use Rattle.std.specs.Prelude.{◌≡◌, ◌≢◌, ◌↔◌, IsTrue, ◌≤◌, ◌<◌, ◌^◌, ◌+◌, ◌-◌, ◌*◌, ℕ, true, ◌∷◌, negsuc, length, get_or, take_while, decimal, MatchOption};
ghost use Rattle.std.specs.Char.{is_ascii_digit};
ghost use Rattle.std.specs.Str.Parse.{digits_value};
ghost use Rattle.shape_desk.specs.Number.{ReadsNumber, HasNoLeadingZero, IsSizeOf, IsRunSoFar, IsSpelledRun};

/// The greatest size of a negative number of 64 bits.
const MAX_SIZE: u64 = 1 << 63;

/// The number of digits past those of a short run.
const SHORT: usize = 4;

// The longest run of digits at the front of bytes: how many, and their value where it is at most 2 ^ 63, and else any greater number.
#[derive(Clone, Copy)]
struct Run {
    len: usize,
    value: u64,
}

// The value with one digit more, where that is not too great; and what is too great stays so.
fn next_value(value: u64, digit: u8) -> u64
    requires { is_ascii_digit digit ≡ true }
    ensures next { value ≤ 922337203685477580 → result ≡ value * 10 + (digit - 48) }
    ensures great { 922337203685477580 < value → 2 ^ 63 < result }
{
    if value > MAX_SIZE / 10 {
        MAX_SIZE + 1
    } else {
        value * 10 + u64::from(digit - b'0')
    }
}

// The run of digits at the front, of which those up to a place were read.
#[inline(never)]
fn longer_run(bytes: &[u8], from: usize, begun: u64) -> Run
    requires { IsRunSoFar bytes.now from begun }
    ensures len { result.len ≡ length (take_while is_ascii_digit bytes.now) }
    ensures value { IsSizeOf (digits_value 10 (take_while is_ascii_digit bytes.now)) result.value }
{
    let mut value = begun;
    for i in from..bytes.len() {
        if !bytes[i].is_ascii_digit() {
            return Run { len: i, value };
        }
        value = next_value(value, bytes[i]);
    }
    Run {
        len: bytes.len(),
        value,
    }
}

// The run of digits at the front, whose first byte is a digit, in one look at its bytes. Few runs are not short.
#[inline(always)]
fn run_of(bytes: &[u8]) -> Run
    requires { 0 < length (take_while is_ascii_digit bytes.now) }
    ensures len { result.len ≡ length (take_while is_ascii_digit bytes.now) }
    ensures value { IsSizeOf (digits_value 10 (take_while is_ascii_digit bytes.now)) result.value }
{
    let mut value = u64::from(bytes[0] - b'0');
    for i in 1..SHORT {
        if i >= bytes.len() {
            return Run { len: i, value };
        }
        if !bytes[i].is_ascii_digit() {
            return Run { len: i, value };
        }
        value = next_value(value, bytes[i]);
    }
    longer_run(bytes, SHORT, value)
}

// Whether there are digits at the front, and the first of several is not 0.
#[inline(always)]
fn has_no_leading_zero(bytes: &[u8]) -> bool
    ensures { IsTrue result ↔ HasNoLeadingZero (take_while is_ascii_digit bytes.now) }
{
    match bytes {
        [b'0', second, ..] => !second.is_ascii_digit(),
        [first, ..] => first.is_ascii_digit(),
        [] => false,
    }
}

// The run of digits at the front, where it is the spelling of a number up to a greatest one.
#[inline(always)]
fn size_of(bytes: &[u8], greatest: u64) -> Option<Run>
    requires { greatest ≤ 2 ^ 63 }
    ensures { MatchOption result
        ((n : ℕ) → n ≤ greatest → take_while is_ascii_digit bytes.now ≢ decimal n)
        (λ run. (run.value ≤ greatest) × IsSpelledRun bytes.now run.len run.value) }
{
    if !has_no_leading_zero(bytes) {
        return None;
    }
    let run = run_of(bytes);
    if run.value <= greatest {
        Some(run)
    } else {
        None
    }
}

// The negative number of a size.
fn negative(size: u64) -> i64
    requires some { 0 < size }
    requires fits { size ≤ 2 ^ 63 }
    ensures { result ≡ negsuc (size - 1) }
{
    -1 - (size - 1) as i64
}

// Reads a number whose minus sign stands before these bytes.
#[inline(never)]
fn read_negative(bytes: &[u8]) -> Option<(i64, usize)>
    ensures { ReadsNumber (45 ∷ bytes.now) result }
{
    let Some(found) = size_of(bytes, MAX_SIZE) else {
        return None;
    };
    if found.value == 0 {
        None
    } else {
        Some((negative(found.value), found.len + 1))
    }
}

// Reads a number that has no sign.
#[inline(always)]
fn read_unsigned(bytes: &[u8]) -> Option<(i64, usize)>
    requires { get_or bytes.now 0 0 ≢ 45 }
    ensures { ReadsNumber bytes.now result }
{
    match size_of(bytes, MAX_SIZE - 1) {
        Some(found) => Some((found.value as i64, found.len)),
        None => None,
    }
}

/// Reads the decimal spelling at the front of the bytes, and answers its value and its length.
///
/// The front that is considered is a minus sign, if one stands first, and the longest run of digits. There is one
/// spelling of each number: no plus sign, no leading zero, no minus before 0.
#[inline(always)]
pub fn read_number(bytes: &[u8]) -> Option<(i64, usize)>
    ensures { ReadsNumber bytes.now result }
{
    match bytes {
        [b'-', rest @ ..] => read_negative(rest),
        _ => read_unsigned(bytes),
    }
}
