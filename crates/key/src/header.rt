// Key headers (document 000, and 003 for the wide form).
ghost use Rattle.std.specs.Prelude.{◌≡◌, ◌+◌, ◌≤◌};
ghost use Rattle.wire.specs.Layout.{offset_width};
ghost use Rattle.wire.specs.Number.{num_at};
ghost use Rattle.key.specs.Header.{fixed_part, bounded_sum, key_at, in_limits, header_in, names_in};

use wire::number::{be_offset, be16, be32, signed16, width};
use wire::text::{Text, prefix_size, read_text};

// The greatest KeyLen.
pub const MOST_KEYLEN: usize = 32767;

// The sum is worked out up to this, which no number of 32 bits reaches.
const SUM_BOUND: usize = 4294967296;

// The bytes of a header before its strings, 26 or 34 by its Version.
pub fn fixed_part(version: u32) -> usize
    ensures { (result ≡ fixed_part (offset_width version)) × (result ≤ 34) }
{
    18 + 2 * width(1000 < version)
}

// The sum of a header with this Version and strings of these lengths, or 4294967296 where it is greater.
#[tactic(auto, using(crate::proofs::Sums::past_sum, crate::proofs::Sums::whole_sum, wire::proofs::Texts::size_least), unfolding(wire::specs::Text::text_size))]
pub fn sum_for(version: u32, class: usize, name: usize, title: usize) -> usize
    ensures { result ≡ bounded_sum version class name title }
{
    if SUM_BOUND < class {
        return SUM_BOUND;
    }
    if SUM_BOUND < name {
        return SUM_BOUND;
    }
    if SUM_BOUND < title {
        return SUM_BOUND;
    }
    let strings = prefix_size(class)
        + class
        + (prefix_size(name) + name)
        + (prefix_size(title) + title);
    let sum = fixed_part(version) + strings;
    if SUM_BOUND < sum {
        return SUM_BOUND;
    }
    sum
}

// The fields of a key header, and where its strings stand.
#[derive(Clone, Copy)]
pub struct Key {
    pub nbytes: u32,
    pub version: u32,
    pub objlen: u32,
    pub datime: u32,
    pub keylen: u32,
    pub cycle: i32,
    pub seekkey: u64,
    pub seekpdir: u64,
    pub class: Text,
    pub name: Text,
    pub title: Text,
}

// The fields of a key header but KeyLen, which the writer works out.
#[derive(Clone, Copy)]
pub struct Fields {
    pub nbytes: u32,
    pub version: u32,
    pub objlen: u32,
    pub datime: u32,
    pub cycle: i32,
    pub seekkey: u64,
    pub seekpdir: u64,
}

// The three strings of a header.
#[derive(Clone, Copy)]
pub struct Names {
    pub class: Text,
    pub name: Text,
    pub title: Text,
}

// The strings that stand one after the other from a place on, if they end at or before end.
#[tactic(auto, unfolding(crate::specs::Header::names_in, wire::specs::Text::on_text))]
fn read_names(s: &[u8], at: usize, end: usize) -> Option<Names>
    ensures { result ≡ names_in s.now at end }
{
    let class = read_text(s, at, end)?;
    let name_at = class.next;
    let name = read_text(s, name_at, end)?;
    let title_at = name.next;
    let title = read_text(s, title_at, end)?;
    Some(Names { class, name, title })
}

// The key at a place, with its Version and strings, which were read.
fn read_key(s: &[u8], at: usize, version: u32, names: Names) -> Key
    requires { (version ≡ num_at 2 s.now (at + 4)) × (at + fixed_part (offset_width version) ≤ 18446744073709551615) }
    ensures { result ≡ key_at s.now at names }
{
    let class = names.class;
    let name = names.name;
    let title = names.title;
    let wide = 1000 < version;
    Key {
        nbytes: be32(s, at),
        version,
        objlen: be32(s, at + 6),
        datime: be32(s, at + 10),
        keylen: be16(s, at + 14),
        cycle: signed16(be16(s, at + 16) as u16),
        seekkey: be_offset(s, at + 18, wide),
        seekpdir: be_offset(s, at + (18 + width(wide)), wide),
        class,
        name,
        title,
    }
}

// Whether these numbers and this sum are those of a well formed header.
pub fn is_formed(nbytes: u32, version: u32, objlen: u32, keylen: u32, sum: usize) -> bool
    ensures { result ≡ in_limits nbytes version objlen keylen sum }
{
    if version < 1 {
        return false;
    }
    if 2000 < version {
        return false;
    }
    if 2147483647 < objlen {
        return false;
    }
    if 2147483647 < nbytes {
        return false;
    }
    if nbytes < keylen {
        return false;
    }
    if (keylen as usize) < sum {
        return false;
    }
    if MOST_KEYLEN < keylen as usize {
        return false;
    }
    true
}

// The header at a place, read within the bytes before end: if it is well formed; none too where end is past the slice.
pub fn read_header(s: &[u8], at: usize, end: usize) -> Option<Key>
    ensures { result ≡ header_in s.now at end }
{
    if s.len() < end {
        return None;
    }
    if end <= at {
        return None;
    }
    // No header is shorter than the narrow numbers and a length byte: its Version is read only where it is there.
    if end - at <= 26 {
        return None;
    }
    let version = be16(s, at + 4);
    let fixed = fixed_part(version);
    if end - at <= fixed {
        return None;
    }
    let names = read_names(s, at + fixed, end)?;
    let title = names.title;
    let next = title.next;
    let k = read_key(s, at, version, names);
    if is_formed(k.nbytes, k.version, k.objlen, k.keylen, next - at) {
        return Some(k);
    }
    None
}
