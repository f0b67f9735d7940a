//! Bytes that a line of a case can't hold as they are. A further one is one more row of `meant`.
use std::alloc::Global;
use std::io;

// The value of a digit of a number to the base 16, and 0 of anything else.
fn digit(byte: u8) -> u8 {
    match byte {
        b'0'..=b'9' => byte.wrapping_sub(b'0'),
        b'A'..=b'F' => byte.wrapping_sub(b'A').wrapping_add(10),
        _ => 0,
    }
}

// What stands for the bytes behind a backslash, and how many of these are meant.
fn meant(behind: &[u8]) -> (u8, usize) {
    match behind {
        [b'n', ..] => (b'\n', 1),
        [b'r', ..] => (b'\r', 1),
        [b't', ..] => (b'\t', 1),
        [b'x', high, low, ..] => (digit(*high).wrapping_shl(4) | digit(*low), 3),
        _ => (b'\\', 0),
    }
}

/// The bytes of a text, in which `\n`, `\r`, `\t` and `\x` with two digits of a number to the base 16 stand for single bytes.
pub(crate) fn unescaped(alloc: Global, text: &[u8]) -> io::Result<Vec<u8>> {
    let mut bytes = Vec::new(alloc);
    let mut passed: usize = 0;
    for (i, byte) in text.iter().enumerate() {
        if passed > 0 {
            passed = passed.saturating_sub(1);
        } else if *byte == b'\\' {
            let (meant, count) = meant(text.get(i.saturating_add(1)..).unwrap_or_default());
            bytes.push(meant)?;
            passed = count;
        } else {
            bytes.push(*byte)?;
        }
    }
    Ok(bytes)
}
