// The rules in their order, over three tables of one length.
ghost use Rattle.std.specs.Prelude.{◌≡◌, length};
ghost use Rattle.rules.specs.Turn.{first_parts};
ghost use Rattle.rules.specs.Order.{ruled};
ghost use Rattle.waiting.specs.Waiting.{parts_in, Keeps};
ghost use Rattle.audit.specs.Listing.{rest_parts, Ran, Sized};
ghost use Rattle.rows.specs.Row.{Rises};

use crate::keys::{Listed, Rows};
use directory::read_head;
use fileheader::FileHead;
use freelist::check_free;
use rows::lists::{check_info, part_at};
use rows::seek_row;
use table::clear;
use waiting::{Waiting, found};
use wire::fault::{Fault, Reason};

impl Rows<'_, '_> {
    ghost use Rattle.audit.specs.Rows.{Same};

    // The first parts, before the head is found.
    fn fill_parts(&mut self)
        requires { length self.old.part.now ≡ length self.old.start.now }
        ensures is { self.new.part.now ≡ rest_parts self.old.file.now self.old.head self.old.start.now }
        ensures owners { self.new.owner.now ≡ self.old.owner.now }
        ensures same { Same self.old self.new }
    {
        for (i, place) in self.start.iter().enumerate() {
            self.part[i] = part_at(self.file, *place, self.head) % 8;
        }
    }

    // The parts before the first directory is taken: the head is found.
    fn first_parts(&mut self) -> Waiting
        requires { Rises self.old.start.now × (length self.old.part.now ≡ length self.old.start.now) }
        ensures is { (parts_in self.new.part.now ≡ first_parts self.old.file.now self.old.head self.old.start.now)
            × Keeps self.old.start.now self.new.part.now result }
        ensures owners { self.new.owner.now ≡ self.old.owner.now }
        ensures same { Same self.old self.new }
    {
        self.fill_parts();
        let none = Waiting {
            row: self.part.len(),
            place: 0,
            number: 0,
        };
        match seek_row(self.start, 100, 0) {
            Some(row) => found(self.start, self.part, row, none),
            None => none,
        }
    }

    // Head, free list, info, then the directories; the free list is compared with the gaps, or not.
    fn survey(&mut self, compare: bool) -> Result<Listed, Fault>
        requires { Sized self.old.start.now self.old.part.now self.old.owner.now }
        ensures is { Ran (ruled compare self.old.file.now self.old.head self.old.start.now) result self.new.part.now self.new.owner.now }
        ensures same { Same self.old self.new }
    {
        let head = self.head;
        let Some(_) = read_head(self.file, head.nbytesname) else {
            return Err(Fault {
                reason: Reason::Head,
                place: 100,
            });
        };
        if !check_free(self.file, self.start, head, compare) {
            return Err(Fault {
                reason: Reason::Free,
                place: head.seekfree as usize,
            });
        }
        if !check_info(self.file, self.start, head) {
            return Err(Fault {
                reason: Reason::Info,
                place: head.seekinfo as usize,
            });
        }
        clear(self.owner, 0);
        let w = self.first_parts();
        self.list_dirs(w)
    }
}

// The same over tables that are lent: once a part of a table is in a struct, a caller knows of the part its length alone.
pub(crate) fn survey(
    file: &[u8],
    start: &[u64],
    part: &mut [u64],
    owner: &mut [u64],
    head: FileHead,
    compare: bool,
) -> Result<Listed, Fault>
    requires { Sized start.now part.old owner.old }
    ensures { Ran (ruled compare file.now head start.now) result part.new owner.new }
{
    let mut rows = Rows {
        file,
        head,
        start,
        part,
        owner,
    };
    rows.survey(compare)
}
