// Salvage: a gap is written over the break of a chain, up to the lowest place from which pieces fill the file to its end. The public
// function takes any input and has no precondition.
#![tactic(auto)]

ghost use Rattle.std.specs.Prelude.{◌≡◌, ◌+◌, ◌<◌, ◌≤◌, length};
ghost use Rattle.wire.specs.Fault.{fault};
ghost use Rattle.wire.specs.declared.fault.Reason.TheVariants as reason;
ghost use Rattle.salvage.specs.Mark.{Unmarked, Marks, Dead, Tried, Passed, Bounds, Sought, Finds};
ghost use Rattle.salvage.specs.Salvage.{mended, Mends, Salvages};

use buffer::put32;
use chain::{size_at, walk};
use fileheader::open;
use table::clear;
use wire::fault::{Fault, Reason};
use wire::number::be64;

// The greatest gap, whose size four bytes hold.
const MOST_GAP: usize = 2147483648;

// What was mended: the place of the first fault, and the place after it from which pieces fill the file to its end. Both are END where the
// chain is good.
#[derive(Clone, Copy)]
pub struct Mend {
    pub from: usize,
    pub to: usize,
}

// Marks a place, and tells whether it was marked. Past the table no place is.
#[tactic(auto, using(crate::proofs::Marks::mark_past, crate::proofs::Marks::mark_new))]
fn mark(seen: &mut [u8], i: usize) -> bool
    ensures { Marks seen.old seen.new i result }
{
    let byte = i / 8;
    if seen.len() <= byte {
        return false;
    }
    let bit = 1u8 << (i % 8);
    let marked = seen[byte] & bit != 0;
    seen[byte] |= bit;
    marked
}

// Whether pieces fill the file from a place to its end: the step is a piece, so no range goes over the places. The pieces on the way are marked; where they do not, none that is marked does.
#[tactic(auto, using(chain::proofs::Walks::stepped, crate::proofs::Reaches::try_marked))]
fn reach(file: &[u8], seen: &mut [u8], base: usize, from: usize) -> bool
    requires { Dead file.now base seen.old × (base ≤ from) × (from ≤ length file.now) }
    ensures { Tried file.now base from seen.new result }
{
    let mut next = from;
    while next < file.len() {
        let Ok(size) = size_at(file, next) else {
            return false;
        };
        if mark(seen, next - base) {
            return false;
        }
        next += size;
    }
    true
}

// The first place from a place on, and before stop, that eight zeros do not rule out: where they stand, no piece begins at the first five.
// A file may have gigabytes of them. The step is five, to a place that is told.
fn past_zeros(file: &[u8], from: usize, stop: usize) -> usize
    requires { (from < stop) × (stop ≤ length file.now) }
    ensures { Passed file.now from stop result }
{
    let mut q = from;
    while 8 <= stop - q && be64(file, q) == 0 {
        q += 5;
    }
    q
}

// The lowest place from base on, behind zeros that are passed over, and before stop, from which pieces fill the file to its end; stop where there is none.
fn lowest(file: &[u8], seen: &mut [u8], base: usize, stop: usize) -> usize
    requires { Dead file.now base seen.old × (base ≤ stop) × (stop ≤ length file.now) }
    ensures { Sought file.now base stop result }
{
    let mut q = base;
    while q < stop {
        let next = past_zeros(file, q, stop);
        if reach(file, seen, base, next) {
            return next;
        }
        q = next + 1;
    }
    q
}

// Where the places to try end: at END, or after the last to which a gap at p can reach.
fn end_tries(p: usize, end: usize) -> usize
    requires { p + 4 ≤ end }
    ensures { Bounds p end result }
{
    end.min(p.saturating_add(MOST_GAP + 1))
}

// What is wrong with the chain of a file.
#[tactic(auto, using(crate::proofs::Damages::found_header, crate::proofs::Damages::found_tail, crate::proofs::Damages::found_wide, crate::proofs::Damages::found_hole, crate::proofs::Damages::none_dead))]
fn find(file: &[u8], seen: &mut [u8]) -> Result<Mend, Fault>
    requires { Unmarked seen.old }
    ensures { Finds file.now result }
{
    open(file)?;
    let end = file.len();
    let Err(first) = walk(file, &mut []) else {
        return Ok(Mend { from: end, to: end });
    };
    let from = first.place;
    if end - from < 4 {
        return Err(Reason::Salvage.at(from));
    }
    let to = lowest(file, seen, from + 4, end_tries(from, end));
    if MOST_GAP < to - from {
        return Err(Reason::Salvage.at(from));
    }
    Ok(Mend { from, to })
}

// Writes the four bytes of the gap that mends a file, where one was found.
#[tactic(auto, using(crate::proofs::Damages::mend_refused, crate::proofs::Damages::mend_nothing, crate::proofs::Damages::mend_sized, crate::proofs::Damages::mend_hole))]
fn write_gap(buf: &mut [u8], found: Result<Mend, Fault>)
    requires { Finds buf.old found }
    ensures { Mends buf.old buf.new (mended found) }
{
    let Ok(m) = found else {
        return;
    };
    if m.from < m.to {
        let size = m.to - m.from;
        put32(&mut buf[m.from..], (4294967296 - size) as u32);
    }
}

// Salvages a file whose chain is broken: at the first fault p a gap is written, up to the lowest q from p + 4 on from which pieces fill
// the file to its end; p and q are answered. A good chain stays, with END and END. Refused, with the buffer as it was: as the audit refuses
// the header, or Salvage at p where no gap can be written. seen is a scratch of any length and content, and zeros afterwards: bit i marks the place
// p + 4 + i. With a bit for each place up to END there are at most twice as many reads of a piece as places; a shorter one costs time alone.
#[tactic(auto, using(crate::proofs::Marks::none_marked))]
pub fn salvage(buf: &mut [u8], seen: &mut [u8]) -> Result<Mend, Fault>
    ensures { Salvages buf seen (mended result) }
{
    clear(seen, 0);
    let found = find(buf, seen);
    write_gap(buf, found);
    clear(seen, 0);
    found
}
