// What a record is: whether its key is plain and its data unpacked, and its class and name. Every public function takes any input
// and has no precondition.
#![tactic(auto)]

ghost use Rattle.std.specs.Prelude.{◌≡◌, ◌+◌, ◌<◌, ◌≤◌, length, take, drop, MatchOption};
ghost use Rattle.wire.specs.Check.{all};
ghost use Rattle.wire.specs.Name.{t_file, t_directory};
ghost use Rattle.key.specs.Header.{plain, unpacked_data};
ghost use Rattle.record.specs.Name.{same_bytes, named, plain_record, is_info};

use key::header::{Key, sum_for};
use wire::text::{Text, same};

// Whether KeyLen is the sum.
#[tactic(auto, using(crate::proofs::Spans::plain_is))]
pub fn is_plain(k: Key) -> bool
    ensures { result ≡ all (plain k) }
{
    k.keylen as usize == sum_for(k.version, k.class.len, k.name.len, k.title.len)
}

// Whether the data is not packed: ObjLen and KeyLen make Nbytes.
pub fn is_unpacked(k: Key) -> bool
    ensures { result ≡ all (unpacked_data k) }
{
    k.objlen as u64 + k.keylen as u64 == k.nbytes as u64
}

// Whether a key is plain and its data not packed.
pub fn is_plain_record(k: Key) -> bool
    ensures { result ≡ all (plain_record k) }
{
    is_plain(k) && is_unpacked(k)
}

// Whether the same n bytes stand at two places of a file.
#[tactic(auto, using(crate::proofs::Spans::not_first, crate::proofs::Spans::not_second, crate::proofs::Spans::both))]
pub fn same_at(s: &[u8], a: usize, b: usize, n: usize) -> bool
    ensures { result ≡ same_bytes s.now a b n }
{
    // One test of both places: `bytes_at` for each was slower.
    n <= s.len() && a.max(b) <= s.len() - n && same(&s[a..a + n], &s[b..b + n])
}

// The n bytes at a place of a file, if all of them are there.
fn bytes_at(s: &[u8], at: usize, n: usize) -> Option<&[u8]>
    ensures { MatchOption result (length s.now < at + n) (λ part. (at + n ≤ length s.now) × (part.now ≡ take n (drop at s.now))) }
{
    s.get(at..)?.get(..n)
}

// Whether a string of a file is this one.
#[tactic(auto, using(crate::proofs::Spans::not_there, crate::proofs::Spans::compared))]
fn is_name(s: &[u8], t: Text, name: &[u8]) -> bool
    ensures { result ≡ named s.now t name.now }
{
    match bytes_at(s, t.start, t.len) {
        Some(content) => same(content, name),
        None => false,
    }
}

// Whether a string of a file is TFile. It and `is_directory` stay beside `is_name`: promises above cite each name.
pub fn is_file(s: &[u8], t: Text) -> bool
    ensures { result ≡ named s.now t t_file }
{
    is_name(s, t, b"TFile")
}

// Whether a string of a file is TDirectory.
pub fn is_directory(s: &[u8], t: Text) -> bool
    ensures { result ≡ named s.now t t_directory }
{
    is_name(s, t, b"TDirectory")
}

// Whether a key is plain, of class TList and named StreamerInfo.
pub fn is_info_key(s: &[u8], k: Key) -> bool
    ensures { result ≡ all (is_info s.now k) }
{
    is_plain(k) && is_name(s, k.class, b"TList") && is_name(s, k.name, b"StreamerInfo")
}
