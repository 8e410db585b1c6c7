// The check of the transfer card. The public function takes any input and has no precondition.
#![tactic(auto)]

ghost use Rattle.std.specs.Prelude.{◌≡◌, ◌+◌, ◌*◌, ◌%◌, ◌^◌};
ghost use Rattle.checksum.specs.Checksum.{step, check_from, check_of};

// The check after one byte more: three times itself plus the byte, wrapping.
#[tactic(auto, using(crate::proofs::Checksums::more_is))]
fn more(check: u32, byte: u8) -> u32
    ensures { result ≡ step check byte }
{
    check.wrapping_mul(3).wrapping_add(byte as u32)
}

// The check after some bytes more.
#[tactic(auto, using(crate::proofs::Checksums::check_began, crate::proofs::Checksums::check_turn, crate::proofs::Checksums::check_ended))]
fn more_bytes(check: u32, bytes: &[u8]) -> u32
    ensures { result ≡ check_from check bytes.now }
{
    let mut sum = check;
    for byte in bytes {
        sum = more(sum, *byte);
    }
    sum
}

// The check of two strings joined, from that of each and 3 to the length of the second, wrapping.
#[tactic(auto, using(crate::proofs::Checksums::join_is))]
fn join(a: u32, b: u32, power: u32) -> u32
    ensures { result ≡ (a * power + b) % 2 ^ 32 }
{
    a.wrapping_mul(power).wrapping_add(b)
}

// 3 to a number, wrapping.
#[tactic(auto, using(crate::proofs::Checksums::power_turn))]
fn power(n: usize) -> u32
    ensures { result ≡ 3 ^ n % 2 ^ 32 }
{
    let mut p: u32 = 1;
    for _ in 0..n {
        p = more(p, 0);
    }
    p
}

// The check of some bytes. Five fifths are done side by side, so that none waits for another, and then joined. At most four bytes are left.
pub fn check(bytes: &[u8]) -> u32
    ensures { result ≡ check_of bytes.now }
{
    let n = bytes.len() / 5;
    let mut a: u32 = 0;
    let mut b: u32 = 0;
    let mut c: u32 = 0;
    let mut d: u32 = 0;
    let mut e: u32 = 0;
    for i in 0..n {
        a = more(a, bytes[i]);
        b = more(b, bytes[n + i]);
        c = more(c, bytes[2 * n + i]);
        d = more(d, bytes[3 * n + i]);
        e = more(e, bytes[4 * n + i]);
    }
    let p = power(n);
    let front = join(join(join(join(a, b, p), c, p), d, p), e, p);
    more_bytes(front, &bytes[5 * n..])
}
