// Headers whose strings are short, tested without being taken apart.
ghost use Rattle.std.specs.Prelude.{◌≡◌, ◌+◌, ◌≤◌, length};
ghost use Rattle.wire.specs.Number.{num_at};
ghost use Rattle.key.specs.Short.{SumsTo, Certain};

use crate::header::{fixed_part, is_formed};
use wire::number::{be_offset, be8, be16, be32, least};

// The greatest KeyLen here: no string of such a header can have 255 bytes.
const MOST_SHORT: u32 = 280;

// The sum of the header at a place, were the length of each string one byte; 0, which no header has, where it is not there: one test less for each record.
fn short_sum(s: &[u8], at: usize, version: u32) -> usize
    requires { (version ≡ num_at 2 s.now (at + 4)) × (at + 34 ≤ length s.now) }
    ensures { SumsTo s.now at result }
{
    let left = s.len() - at;
    let class = fixed_part(version);
    if left <= class {
        return 0;
    }
    let name = class + (1 + be8(s, at + class) as usize);
    if left <= name {
        return 0;
    }
    let title = name + (1 + be8(s, at + name) as usize);
    if left <= title {
        return 0;
    }
    title + (1 + be8(s, at + title) as usize)
}

// Whether a record with short strings stands at a place of a file. A yes is certain; a no says nothing.
pub fn is_short(file: &[u8], at: usize) -> bool
    ensures { Certain file.now at result }
{
    let end = file.len();
    if end < 34 {
        return false;
    }
    if end - 34 < at {
        return false;
    }
    let n = be32(file, at);
    if least(end - at, 2147483647) < n as usize {
        return false;
    }
    let keylen = be16(file, at + 14);
    if MOST_SHORT < keylen {
        return false;
    }
    let version = be16(file, at + 4);
    let sum = short_sum(file, at, version);
    if sum == 0 {
        return false;
    }
    if !is_formed(n, version, be32(file, at + 6), keylen, sum) {
        return false;
    }
    be_offset(file, at + 18, 1000 < version) == at as u64
}
