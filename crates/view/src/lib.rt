// The viewer's list: the rows of the tables as records, each with the size of its piece.
#![tactic(auto)]

ghost use Rattle.std.specs.Prelude.{◌≡◌, length, get_or};
ghost use Rattle.view.specs.View.{size_in, row_at, up_to};

use wire::number::be32;

// Start, size, part and owner of a piece; a record that shows none is all zero.
#[repr(C)]
#[derive(Clone, Copy)]
pub struct Row {
    pub start: u64,
    pub size: u64,
    pub part: u64,
    pub owner: u64,
}

// An entry of a table; 0 past its end.
fn entry(t: &[u64], i: usize) -> u64
    ensures { result ≡ get_or t.now i 0 }
{
    t.get(i).copied().unwrap_or(0)
}

// The size of the piece that starts at a place, as its bytes give it; 0 at 0, where none starts.
#[tactic(auto, using(crate::proofs::Lists::size_none, crate::proofs::Lists::size_record, crate::proofs::Lists::size_gap))]
fn size_in(file: &[u8], at: u64) -> u64
    ensures { result ≡ size_in file.now at }
{
    if at == 0 {
        return 0;
    }
    let n = be32(file, at as usize) as u64;
    if n < 2147483648 {
        return n;
    }
    4294967296 - n
}

// Entry i of the tables as a record.
#[tactic(auto, unfolding(crate::specs::View::row_at))]
fn row_at(file: &[u8], start: &[u64], part: &[u64], owner: &[u64], i: usize) -> Row
    ensures { result ≡ row_at file.now start.now part.now owner.now i }
{
    let at = entry(start, i);
    Row {
        start: at,
        size: size_in(file, at),
        part: entry(part, i),
        owner: entry(owner, i),
    }
}

// Shows the tables in the list, entry by entry to the list's end, 0 past a table's end; each with the size that the bytes at its start
// give.
#[tactic(auto, using(crate::proofs::Lists::over_none, crate::proofs::Lists::over_more))]
pub fn show(file: &[u8], start: &[u64], part: &[u64], owner: &[u64], list: &mut [Row])
    ensures { list.new ≡ up_to (row_at file.now start.now part.now owner.now) (length list.old) }
{
    for (i, row) in list.iter_mut().enumerate() {
        *row = row_at(file, start, part, owner, i);
    }
}
