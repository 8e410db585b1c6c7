// A directory's keys list and the copies in it, by their bytes: what each gives its record. Every public function takes any input and
// has no precondition; where it matters, the promise is for a table that rises.
#![tactic(auto)]

ghost use Rattle.std.specs.Prelude.{◌≡◌};
ghost use Rattle.wire.specs.Check.{pick};
ghost use Rattle.wire.specs.Name.{t_directory};
ghost use Rattle.record.specs.Name.{named};
ghost use Rattle.rules.specs.Part.{dir, listed};
ghost use Rattle.rules.specs.Turn.{found};
ghost use Rattle.copies.specs.Copy.{Tests, Finds};

use directory::DirHead;
use key::header::Key;
use key::piece::read_record;
use keylist::{read_copy, read_list};
use record::{is_directory, same_at};
use rows::lists::is_nothing;
use rows::{find_row, seek_row};
use wire::fault::{Fault, Reason};

// A keys list: the place of its directory, its own, and the end of its data.
#[derive(Clone, Copy)]
pub struct Span {
    pub dir: u64,
    pub seek: u64,
    pub end: usize,
}

// A record that is to have a part and an owner: its row and both; the next place of a list; the place of a refusal.
#[derive(Clone, Copy)]
pub struct Claim {
    pub row: usize,
    pub part: u64,
    pub dir: u64,
    pub next: usize,
    pub place: usize,
}

// A directory's keys list: what it gives its own record, and the start and end of its data.
#[derive(Clone, Copy)]
pub struct KeysList {
    pub claim: Claim,
    pub from: usize,
    pub end: usize,
}

// The part of a record that is listed, by its number in the table that C lends: 14 is a directory, found and not done.
fn mark_of(file: &[u8], k: Key) -> u64
    ensures { result ≡ pick (named file.now k.class t_directory) (found dir) listed }
{
    if is_directory(file, k.class) { 14 } else { 5 }
}

// Tests a copy of a keys list: part and owner that it gives its record, or Keys at the list or Entry at the copy, as the order has them for
// starts that rise; whichever row is looked at first.
pub fn test_copy(
    file: &[u8],
    start: &[u64],
    list: Span,
    at: usize,
    near: usize,
) -> Result<Claim, Fault>
    ensures { Tests file.now start.now list at result }
{
    let broken = Fault {
        reason: Reason::Keys,
        place: list.seek as usize,
    };
    let unfit = Fault {
        reason: Reason::Entry,
        place: at,
    };
    let Some(k) = read_copy(file, at, list.end) else {
        return Err(broken);
    };
    let place = k.seekkey as usize;
    let Some(row) = seek_row(start, place, near) else {
        return Err(unfit);
    };
    let Some(l) = read_record(file, place) else {
        return Err(unfit);
    };
    if !same_at(file, at, place, k.keylen as usize) {
        return Err(unfit);
    }
    if k.seekpdir != list.dir {
        return Err(unfit);
    }
    Ok(Claim {
        row,
        part: mark_of(file, l),
        dir: list.dir,
        next: at + k.keylen as usize,
        place: at,
    })
}

// The keys list of a directory: none, part and owner that it gives its own record, or Keys at SeekKeys, as the order has them for starts that
// rise.
pub fn find_list(
    file: &[u8],
    start: &[u64],
    dir: u64,
    head: DirHead,
) -> Result<Option<KeysList>, Fault>
    ensures { Finds file.now start.now dir head result }
{
    let seek = head.seekkeys as usize;
    if is_nothing(head.seekkeys, head.nbyteskeys) {
        return Ok(None);
    }
    let bad = Fault {
        reason: Reason::Keys,
        place: seek,
    };
    let Some(row) = find_row(start, seek) else {
        return Err(bad);
    };
    let place = dir as usize;
    let Some(data) = read_list(file, seek, head.nbyteskeys, place) else {
        return Err(bad);
    };
    let claim = Claim {
        row,
        part: 4,
        dir,
        next: data.from + 4,
        place,
    };
    Ok(Some(KeysList {
        claim,
        from: data.from,
        end: data.end,
    }))
}
