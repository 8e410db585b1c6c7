// The rows of three tables as lines.
ghost use Rattle.std.specs.Prelude.{◌≡◌, ◌+◌, ◌<◌, leb, length};

use crate::line::put_line;

// The rows that are listed: three tables of one length, and where the last piece ends.
#[derive(Drop)]
pub(crate) struct Rows<'a> {
    pub start: &'a [u64],
    pub part: &'a [u64],
    pub owner: &'a [u64],
    pub end: usize,
    ghost parts: { length part.now ≡ length start.now },
    ghost owners: { length owner.now ≡ length start.now },
}

impl Rows<'_> {
    ghost use Rattle.report.specs.Put.{Room, Put, end_of, row_of, lines_of};

    // Where the piece of a row ends.
    #[tactic(auto, using(crate::proofs::Listed::ends_next, crate::proofs::Listed::ends_last))]
    fn next_place(&self, i: usize) -> u64
        requires { i < length self.now.start.now }
        ensures { result ≡ end_of self.now i }
    {
        self.start.get(i + 1).copied().unwrap_or(self.end as u64)
    }

    // Writes the line of a row.
    fn put_row(&self, out: &mut [u8], at: usize, i: usize) -> usize
        requires row { i < length self.now.start.now }
        requires room { Room out.old at (row_of self.now i) }
        ensures { Put out.old at (row_of self.now i) out.new result }
    {
        let place = self.start[i];
        let size = self.next_place(i).saturating_sub(place);
        put_line(out, at, place, size, self.part[i], self.owner[i])
    }

    // The length of the line of a row.
    #[tactic(auto, using(crate::proofs::Listed::row_short))]
    fn row_length(&self, i: usize) -> usize
        requires { i < length self.now.start.now }
        ensures { result ≡ length (row_of self.now i) }
    {
        let mut space = [0u8; 72];
        self.put_row(&mut space, 0, i)
    }

    // Whether the lines fit in a room, after the first bytes of it.
    pub(crate) fn fit(&self, first: usize, room: usize) -> bool
        ensures { result ≡ leb (first + length (lines_of self.now (length self.now.start.now))) room }
    {
        let Some(mut left) = room.checked_sub(first) else {
            return false;
        };
        for i in 0..self.start.len() {
            let size = self.row_length(i);
            if left < size {
                return false;
            }
            left -= size;
        }
        true
    }

    // Writes the lines.
    pub(crate) fn put(&self, out: &mut [u8], first: usize) -> usize
        requires { Room out.old first (lines_of self.now (length self.now.start.now)) }
        ensures { Put out.old first (lines_of self.now (length self.now.start.now)) out.new result }
    {
        let mut at = first;
        for i in 0..self.start.len() {
            at = self.put_row(out, at, i);
        }
        at
    }
}
