// Counted strings: a length byte 0 to 254 and as many bytes, or the byte 255, a length of four bytes and as many bytes.
ghost use Rattle.std.specs.Prelude.{◌≡◌, ◌<◌, ◌≤◌, length};
ghost use Rattle.wire.specs.Equal.{eq_bytes};
ghost use Rattle.wire.specs.Number.{num_at};
ghost use Rattle.wire.specs.Text.{least_long, prefix_size, text_in};

use crate::number::{be8, be32};

// The least length that takes the long form, and the byte that opens it.
pub const LEAST_LONG: usize = 255;

// The bytes of a length in the long form: that byte and four more.
pub const LONG_PREFIX: usize = 5;

// Where a string stands: the first byte of its content, its length, and the place after it.
#[derive(Clone, Copy)]
pub struct Text {
    pub start: usize,
    pub len: usize,
    pub next: usize,
}

// The bytes before those of a string of n bytes: 1, or 5 from 255 on.
#[tactic(auto, using(crate::proofs::Texts::short_size, crate::proofs::Texts::long_size))]
pub fn prefix_size(n: usize) -> usize
    ensures { (result ≡ prefix_size n) × (result ≤ 5) }
{
    if n < LEAST_LONG {
        return 1;
    }
    LONG_PREFIX
}

// The string in the long form at a place, if its length takes that form and it ends at or before end.
fn long_text(s: &[u8], at: usize, end: usize) -> Option<Text>
    requires { (least_long ≤ num_at 1 s.now at) × (at < end) × (end ≤ length s.now) }
    ensures { result ≡ text_in s.now at end }
{
    let len = be32(s, at + 1) as usize;
    if len < LEAST_LONG {
        return None;
    }
    let size = LONG_PREFIX + len;
    if end - at < size {
        return None;
    }
    Some(Text {
        start: at + LONG_PREFIX,
        len,
        next: at + size,
    })
}

// The string that begins at a place, if it has the form of its length and ends at or before end; none where end is past the slice.
pub fn read_text(s: &[u8], at: usize, end: usize) -> Option<Text>
    ensures { result ≡ text_in s.now at end }
{
    if s.len() < end {
        return None;
    }
    if end <= at {
        return None;
    }
    let len = be8(s, at) as usize;
    if LEAST_LONG <= len {
        return long_text(s, at, end);
    }
    if end - at <= len {
        return None;
    }
    Some(Text {
        start: at + 1,
        len,
        next: at + (1 + len),
    })
}

// Whether two slices hold the same bytes.
#[tactic(auto, using(crate::proofs::Equal::pointwise_bytes))]
pub fn same(a: &[u8], b: &[u8]) -> bool
    ensures { result ≡ eq_bytes a.now b.now }
{
    a == b
}
