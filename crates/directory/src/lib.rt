// Directory headers (document 003), and the head's. Every public function takes any input and has no precondition.
#![tactic(auto)]

ghost use Rattle.std.specs.Prelude.{◌≡◌};
ghost use Rattle.wire.specs.Answer.{Gives};
ghost use Rattle.directory.specs.Dir.{dir_in, head_dir_in, head_in, head_answer, sub_in, sub_answer};

use key::piece::read_record;
use record::{is_file, is_plain_record, is_unpacked};
use wire::number::{be_offset, be16, be32, width};
use wire::text::read_text;

#[derive(Clone, Copy)]
pub struct DirHead {
    pub nbyteskeys: u32,
    pub nbytesname: u32,
    pub seekdir: u64,
    pub seekparent: u64,
    pub seekkeys: u64,
}

// The directory header at a place, if it lies before end and its version is at most 2000.
#[tactic(auto, using(std::proofs::lemmas::Bool::Decides::nat_tests), unfolding(crate::specs::Dir::dir_in, crate::specs::Dir::dir_at))]
fn read_dir(s: &[u8], at: usize, end: usize) -> Option<DirHead>
    ensures { result ≡ dir_in s.now at end }
{
    if s.len() < end {
        return None;
    }
    if end < at {
        return None;
    }
    let version = be16(s, at);
    let wide = 1000 < version;
    let w = width(wide);
    if end - at < 18 + 3 * w {
        return None;
    }
    if 2000 < version {
        return None;
    }
    Some(DirHead {
        nbyteskeys: be32(s, at + 10),
        nbytesname: be32(s, at + 14),
        seekdir: be_offset(s, at + 18, wide),
        seekparent: be_offset(s, at + (18 + w), wide),
        seekkeys: be_offset(s, at + (18 + 2 * w), wide),
    })
}

// The head's directory header after its key at a place: a name, a title, then the header.
#[tactic(auto, using(crate::proofs::Headings::tests), unfolding(crate::specs::Dir::head_dir_in, crate::specs::Dir::kept_if, wire::specs::Text::on_text))]
fn head_dir(s: &[u8], at: usize, end: usize, nbytesname: u32) -> Option<DirHead>
    ensures { result ≡ head_dir_in s.now at end nbytesname }
{
    let name = read_text(s, at, end)?;
    let second = name.next;
    let title = read_text(s, second, end)?;
    let third = title.next;
    let d = read_dir(s, third, end)?;
    if d.seekdir != 100 {
        return None;
    }
    if d.seekparent != 0 {
        return None;
    }
    if d.nbytesname as u64 + 100 != third as u64 {
        return None;
    }
    if nbytesname as u64 + 100 != third as u64 {
        return None;
    }
    Some(d)
}

// The head: a plain unpacked record of class TFile at 100, and its directory header; else none: Head at 100.
#[tactic(auto, using(crate::proofs::Headings::tests), unfolding(crate::specs::Dir::head_in))]
pub fn read_head(file: &[u8], nbytesname: u32) -> Option<DirHead>
    ensures { Gives head_answer result (head_in file.now nbytesname) }
{
    let k = read_record(file, 100)?;
    if !is_plain_record(k) {
        return None;
    }
    if !is_file(file, k.class) {
        return None;
    }
    head_dir(
        file,
        100 + k.keylen as usize,
        100 + k.nbytes as usize,
        nbytesname,
    )
}

// A subdirectory's header, which follows its key, for a listing directory; else none: Directory at the subdirectory.
#[tactic(auto, using(crate::proofs::Headings::tests), unfolding(crate::specs::Dir::sub_in, crate::specs::Dir::kept_if))]
pub fn read_sub(file: &[u8], at: usize, parent: usize) -> Option<DirHead>
    ensures { Gives (sub_answer at) result (sub_in file.now at parent) }
{
    let k = read_record(file, at)?;
    if !is_unpacked(k) {
        return None;
    }
    let d = read_dir(file, at + k.keylen as usize, at + k.nbytes as usize)?;
    if d.seekdir != at as u64 {
        return None;
    }
    if d.seekparent != parent as u64 {
        return None;
    }
    if d.nbytesname != k.keylen {
        return None;
    }
    Some(d)
}
