//! Copies from the front of bytes in memory.
//! Every desk in memory reads by these calls; none knows of places or files.
ghost use Rattle.std.specs.Prelude.{◌≡◌, ◌<◌, ◌≤◌, ◌+◌, ◌^◌, ◌++◌, [], min, length, take, drop};

// The bytes from a place on.
fn rest(bytes: &[u8], at: usize) -> &[u8]
    ensures { result.now ≡ drop at bytes.now }
{
    if at < bytes.len() { &bytes[at..] } else { &[] }
}

/// Copies as many bytes as there are, as there is room for and as may be moved.
pub fn copy_front(from: &[u8], to: &mut [u8], most: usize) -> usize
    ensures count { result ≡ min (min (length from.now) (length to.old)) most }
    ensures copied { take result to.new ≡ take result from.now }
    ensures length { length to.new ≡ length to.old }
{
    let n = from.len().min(to.len()).min(most);
    to[..n].copy_from_slice(&from[..n]);
    n
}

/// Reads bytes from a place on, as many as there are, as there is room for and as may be moved.
pub fn read_at(bytes: &[u8], at: usize, buf: &mut [u8], most: usize) -> usize
    requires { 1 ≤ most }
    ensures count { result ≡ min (min (length (drop at bytes.now)) (length buf.old)) most }
    ensures within { result ≤ length buf.new }
    ensures read { drop at bytes.now ≡ take result buf.new ++ drop (at + result) bytes.now }
    ensures end { result ≡ 0 → 0 < length buf.new → drop at bytes.now ≡ [] }
    ensures sum { at + result < 2 ^ 64 }
{
    copy_front(rest(bytes, at), buf, most)
}
