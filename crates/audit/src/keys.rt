// A directory's keys list: the list and the record of each copy are given their part and owner.
ghost use Rattle.std.specs.Prelude.{◌≡◌, ◌≤◌, ◌<◌, length};
ghost use Rattle.rules.specs.Turn.{keys_turn};
ghost use Rattle.audit.specs.Listing.{Assigns, Marks, copies_step, data_step};

use copies::{Claim, Span, find_list, test_copy};
use directory::DirHead;
use fileheader::FileHead;
use waiting::{Waiting, found, give};
use wire::fault::{Fault, Reason};
use wire::number::be32;

// The next place of a list, and what is kept of the directories found and not done.
#[derive(Clone, Copy)]
pub struct Listed {
    pub next: usize,
    pub waiting: Waiting,
}

// The rows that are audited: a file, its header, and three tables of one length.
#[derive(Drop)]
pub(crate) struct Rows<'r, 't> {
    pub file: &'r [u8],
    pub head: FileHead,
    pub start: &'r [u64],
    pub part: &'t mut [u64],
    pub owner: &'t mut [u64],
}

impl Rows<'_, '_> {
    ghost use Rattle.audit.specs.Rows.{Ready, Runs, Same};

    // Gives a record its part and owner, where it has none, and tells whether it had none. A directory gets its mark after it.
    fn assign_part(&mut self, g: Claim) -> bool
        requires { (g.row < length self.old.part.now) × (length self.old.owner.now ≡ length self.old.part.now) }
        ensures is { Assigns self.old.part.now self.old.owner.now self.new.part.now self.new.owner.now g result }
        ensures same { Same self.old self.new }
    {
        let row = g.row;
        if self.part[row] % 16 != 7 {
            return false;
        }
        give(self.part, row, g.part);
        self.owner[row] = g.dir;
        true
    }

    // The mark of a directory whose part and owner were given.
    fn mark_dir(&mut self, g: Claim, w: Waiting) -> Waiting
        ensures is { Marks self.old.start.now self.old.part.now self.new.part.now g w result }
        ensures owners { self.new.owner.now ≡ self.old.owner.now }
        ensures same { Same self.old self.new }
    {
        if g.part < 8 {
            return w;
        }
        found(self.start, self.part, g.row, w)
    }

    // Some copies of a keys list, one after the other.
    fn list_copies(
        &mut self,
        list: Span,
        from: usize,
        count: u32,
        w: Waiting,
    ) -> Result<Listed, Fault>
        requires { Ready self.old w }
        ensures is { Runs (copies_step self.old.file.now self.old.start.now list count from) self.old self.new result }
        ensures same { Same self.old self.new }
    {
        let mut at = from;
        let mut near: usize = 0;
        let mut kept = w;
        for _i in 0..count {
            let g = test_copy(self.file, self.start, list, at, near)?;
            near = g.row + 1;
            if !self.assign_part(g) {
                return Err(Fault {
                    reason: Reason::Twice,
                    place: g.place,
                });
            }
            kept = self.mark_dir(g, kept);
            at = g.next;
        }
        Ok(Listed {
            next: at,
            waiting: kept,
        })
    }

    // The data of a keys list.
    fn list_data(&mut self, list: Span, from: usize, w: Waiting) -> Result<Listed, Fault>
        requires { Ready self.old w × (from ≤ list.end) × (list.end ≤ length self.old.file.now) }
        ensures is { Runs (data_step self.old.file.now self.old.start.now list from) self.old self.new result }
        ensures same { Same self.old self.new }
    {
        let bad = Fault {
            reason: Reason::Keys,
            place: list.seek as usize,
        };
        if list.end - from < 4 {
            return Err(bad);
        }
        let count = be32(self.file, from);
        let listed = self.list_copies(list, from + 4, count, w)?;
        if listed.next != list.end {
            return Err(bad);
        }
        Ok(listed)
    }

    // The keys list of a directory.
    pub(crate) fn list_keys(&mut self, dir: u64, d: DirHead, w: Waiting) -> Result<Listed, Fault>
        requires { Ready self.old w }
        ensures is { Runs (keys_turn self.old.file.now self.old.start.now dir d) self.old self.new result }
        ensures same { Same self.old self.new }
    {
        let Some(list) = find_list(self.file, self.start, dir, d)? else {
            return Ok(Listed {
                next: 0,
                waiting: w,
            });
        };
        let g = list.claim;
        if !self.assign_part(g) {
            return Err(Fault {
                reason: Reason::Twice,
                place: g.place,
            });
        }
        let span = Span {
            dir,
            seek: d.seekkeys,
            end: list.end,
        };
        self.list_data(span, list.from, w)
    }
}
