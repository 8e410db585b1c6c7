// Big-endian numbers, read at any place, and signed numbers of 16 bits.
ghost use Rattle.std.specs.Prelude.{◌≡◌, ◌<◌, ◌≤◌, ◌+◌, ◌^◌, MatchOption};
ghost use Rattle.wire.specs.Layout.{width_of};
ghost use Rattle.wire.specs.Number.{num_at, be_value, lesser, signed_of, bits16};

// The number of 1 byte at a place; 0 unless it is there.
pub fn be8(s: &[u8], at: usize) -> u32
    ensures { result ≡ num_at 1 s.now at }
{
    if s.len() <= at {
        return 0;
    }
    s[at] as u32
}

// The N bytes at a place, if all of them are there.
fn bytes_at<const N: usize>(s: &[u8], at: usize) -> Option<&[u8; N]>
    ensures { MatchOption result (num_at N s.now at ≡ 0) (λ b. num_at N s.now at ≡ be_value N b.now 0) }
{
    if s.len() < N || s.len() - N < at {
        return None;
    }
    s[at..at + N].first_chunk()
}

// The number of 2 bytes at a place; 0 unless both are there.
#[tactic(auto, using(crate::proofs::Numbers::value2))]
pub fn be16(s: &[u8], at: usize) -> u32
    ensures { (result ≡ num_at 2 s.now at) × (result < 65536) }
{
    match bytes_at::<2>(s, at) {
        Some(pair) => u16::from_be_bytes(*pair) as u32,
        None => 0,
    }
}

// The number of 4 bytes at a place; 0 unless all are there.
#[tactic(auto, using(crate::proofs::Numbers::value4))]
pub fn be32(s: &[u8], at: usize) -> u32
    ensures { result ≡ num_at 4 s.now at }
{
    match bytes_at::<4>(s, at) {
        Some(four) => u32::from_be_bytes(*four),
        None => 0,
    }
}

// The number of 8 bytes at a place; 0 unless all are there.
#[tactic(auto, using(crate::proofs::Numbers::value8))]
pub fn be64(s: &[u8], at: usize) -> u64
    ensures { result ≡ num_at 8 s.now at }
{
    match bytes_at::<8>(s, at) {
        Some(eight) => u64::from_be_bytes(*eight),
        None => 0,
    }
}

// The bytes of an offset: eight in the wide form, else four.
pub fn width(wide: bool) -> usize
    ensures { (result ≡ width_of wide) × (4 ≤ result) × (result ≤ 8) }
{
    if wide {
        return 8;
    }
    4
}

// The greatest offset of eight bytes in the wide form, else of four.
pub fn greatest(wide: bool) -> u64
    ensures { result + 1 ≡ 256 ^ width_of wide }
{
    if wide {
        return 18446744073709551615;
    }
    4294967295
}

// The offset at a place; 0 unless all its bytes are there.
pub fn be_offset(s: &[u8], at: usize, wide: bool) -> u64
    ensures { result ≡ num_at (width_of wide) s.now at }
{
    if wide {
        return be64(s, at);
    }
    be32(s, at) as u64
}

// The lesser of two numbers, as the definitions say it.
pub fn least(a: usize, b: usize) -> usize
    ensures { result ≡ lesser a b }
{
    a.min(b)
}

// The signed value of 16 bits. No conversion of std has this promise: `as` may lose nothing.
#[tactic(auto, using(crate::proofs::Signs::low, crate::proofs::Signs::high))]
pub fn signed16(raw: u16) -> i32
    ensures { result ≡ signed_of 2 raw }
{
    if raw < 32768 {
        return raw as i32;
    }
    raw as i32 - 65536
}

// The 16 bits of a signed number, if they hold it.
#[tactic(auto, using(crate::proofs::Signs::too_low, crate::proofs::Signs::too_high, crate::proofs::Signs::sum_is, crate::proofs::Signs::below, crate::proofs::Signs::over_is, crate::proofs::Signs::above))]
pub fn bits_of(z: i32) -> Option<u32>
    ensures { result ≡ bits16 z }
{
    if z < -32768 {
        return None;
    }
    if 32767 < z {
        return None;
    }
    if z < 0 {
        return Some((z + 65536) as u32);
    }
    Some(z as u32)
}
