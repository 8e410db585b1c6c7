// The free list: its segments are the gaps of the file in file order, then the rest of the file; the second audit does not compare them
// with the gaps. The public function takes any input and has no precondition; its promise is for a table that rises.
#![tactic(auto)]

ghost use Rattle.std.specs.Prelude.{◌≡◌};
ghost use Rattle.wire.specs.Check.{all};
ghost use Rattle.rules.specs.Free.{segment_version, last_fits, gaps, free_holds};
ghost use Rattle.rows.specs.Row.{Rises};
ghost use Rattle.freelist.specs.Segment.{segment_in, after_segment, final_is, segments_are, segments_stand};

use fileheader::FileHead;
use keylist::read_free;
use rows::find_row;
use rows::lists::gap_size;
use wire::number::{be_offset, be16, width};

// A segment: its first and last, and the place after it.
#[derive(Clone, Copy)]
pub struct Segment {
    pub first: u64,
    pub last: u64,
    pub next: usize,
}

// The greatest Version of a segment: above 1000 it has eight-byte ends, which only wide files have.
#[tactic(auto, unfolding(rules::specs::Free::segment_version))]
fn greatest_version(wide: bool) -> u32
    ensures { result ≡ segment_version wide }
{
    if wide { 2000 } else { 1000 }
}

// Whether the final segment may have this last.
#[tactic(auto, unfolding(rules::specs::Free::last_fits))]
fn last_fits(wide: bool, end: usize, last: u64) -> bool
    ensures { result ≡ last_fits wide end last }
{
    if wide {
        (end as u64) < last
    } else {
        last == 2000000000
    }
}

// The segment at a place of the data, if it ends at or before end and the file may have its Version.
#[tactic(auto, using(std::proofs::lemmas::Bool::Decides::nat_tests), unfolding(crate::specs::Segment::segment_in))]
fn read_segment(file: &[u8], at: usize, end: usize, wide: bool) -> Option<Segment>
    ensures { result ≡ segment_in wide file.now at end }
{
    if end < at {
        return None;
    }
    let version = be16(file, at);
    let wide_ends = 1000 < version;
    let w = width(wide_ends);
    if end - at < 2 + 2 * w {
        return None;
    }
    if greatest_version(wide) < version {
        return None;
    }
    Some(Segment {
        first: be_offset(file, at + 2, wide_ends),
        last: be_offset(file, at + (2 + w), wide_ends),
        next: at + (2 + 2 * w),
    })
}

// The place after the segment at a place, if that has this first and last.
#[tactic(auto, using(std::proofs::lemmas::Bool::Decides::nat_tests), unfolding(crate::specs::Segment::segment_in, crate::specs::Segment::after_segment))]
fn after_segment(
    file: &[u8],
    at: usize,
    end: usize,
    wide: bool,
    first: u64,
    last: u64,
) -> Option<usize>
    ensures { result ≡ after_segment wide file.now at end first last }
{
    let g = read_segment(file, at, end, wide)?;
    if g.first == first && g.last == last {
        Some(g.next)
    } else {
        None
    }
}

// Whether the segment at a place is the final one, and the last of the data.
#[tactic(auto, using(crate::proofs::Segments::finals), unfolding(crate::specs::Segment::segment_in))]
fn is_final(file: &[u8], at: usize, end: usize, wide: bool) -> bool
    ensures { result ≡ all (final_is wide file.now at end) }
{
    match read_segment(file, at, end, wide) {
        Some(g) => g.next == end
            && g.first == file.len() as u64
            && last_fits(wide, file.len(), g.last),
        None => false,
    }
}

// Whether some segments, from a place to the end of the data, are the gaps in file order, then the rest of the file.
#[tactic(auto, using(crate::proofs::Segments::matches))]
fn match_segments(
    file: &[u8],
    start: &[u64],
    wide: bool,
    count: u32,
    from: usize,
    end: usize,
) -> bool
    ensures { result ≡ segments_are wide file.now end (gaps file.now start.now) count from }
{
    let mut at = from;
    let mut left = count;
    for place in start {
        let size = gap_size(file, *place as usize);
        if size != 0 {
            let last = *place + size as u64 - 1;
            let Some(next) = after_segment(file, at, end, wide, *place, last) else {
                return false;
            };
            if left == 0 {
                return false;
            }
            at = next;
            left -= 1;
        }
    }
    if left != 1 {
        return false;
    }
    is_final(file, at, end, wide)
}

// Whether some segments, from a place to the end of the data, end with the rest of the file, whatever the others are.
#[tactic(auto, using(crate::proofs::Segments::nothing_left))]
fn end_segments(file: &[u8], wide: bool, count: u32, from: usize, end: usize) -> bool
    ensures { result ≡ segments_stand wide file.now end count from }
{
    if count == 0 {
        return false;
    }
    let mut at = from;
    for _i in 1..count {
        let Some(g) = read_segment(file, at, end, wide) else {
            return false;
        };
        at = g.next;
    }
    is_final(file, at, end, wide)
}

// Whether the free list rule holds, for starts that rise; where compare is false, without the comparison of the segments with the gaps.
#[tactic(auto, using(std::proofs::lemmas::Bool::Decides::nat_tests, rows::proofs::Parts::row_starts), unfolding(rules::specs::Free::free_holds, rules::specs::Free::held_to, crate::specs::Segment::segments_stand, crate::specs::Segment::segments_are))]
pub fn check_free(file: &[u8], start: &[u64], head: FileHead, compare: bool) -> bool
    ensures { Rises start.now → result ≡ free_holds compare file.now start.now head }
{
    let seek = head.seekfree;
    if seek == 100 {
        return false;
    }
    if find_row(start, seek as usize).is_none() {
        return false;
    }
    match read_free(file, seek as usize, head.nbytesfree) {
        Some(d) if compare => match_segments(file, start, head.wide, head.nfree, d.from, d.end),
        Some(d) => end_segments(file, head.wide, head.nfree, d.from, d.end),
        None => false,
    }
}
