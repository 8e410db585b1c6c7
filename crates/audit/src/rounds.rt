// The directories, lowest place first among those found and not done.
ghost use Rattle.std.specs.Prelude.{◌≡◌, ◌<◌, length};
ghost use Rattle.directory.specs.Dir.{dir_of};
ghost use Rattle.rules.specs.Turn.{dir_turn, round_turn};
ghost use Rattle.audit.specs.Listing.{Ran, rounds_from};

use crate::keys::{Listed, Rows};
use directory::{DirHead, read_head, read_sub};
use waiting::{Waiting, settle};
use wire::fault::{Fault, Reason};

impl Rows<'_, '_> {
    ghost use Rattle.audit.specs.Rows.{Ready, Runs, Same};

    // The header of the directory at a place.
    fn read_dir(&self, place: u64, parent: u64) -> Option<DirHead>
        ensures { result ≡ dir_of self.now.file.now self.now.head place parent }
    {
        if place == 100 {
            return read_head(self.file, self.head.nbytesname);
        }
        read_sub(self.file, place as usize, parent as usize)
    }

    // The lowest directory found and not done.
    fn list_dir(&mut self, w: Waiting) -> Result<Listed, Fault>
        requires { Ready self.old w × (w.row < length self.old.start.now) }
        ensures is { Runs (dir_turn self.old.file.now self.old.head self.old.start.now w.row) self.old self.new result }
        ensures same { Same self.old self.new }
    {
        let dir = w.place;
        let Some(d) = self.read_dir(dir, self.owner[w.row]) else {
            return Err(Fault {
                reason: Reason::Directory,
                place: dir as usize,
            });
        };
        self.list_keys(dir, d, w)
    }

    // The same, and it is done.
    fn take_dir(&mut self, w: Waiting) -> Result<Listed, Fault>
        requires { Ready self.old w × (0 < w.number) }
        ensures is { Runs (round_turn self.old.file.now self.old.head self.old.start.now w.row) self.old self.new result }
        ensures same { Same self.old self.new }
    {
        let listed = self.list_dir(w)?;
        Ok(Listed {
            next: listed.next,
            waiting: settle(self.start, self.part, w.row, listed.waiting),
        })
    }

    // All directories: as long as one is left, the lowest.
    pub(crate) fn list_dirs(&mut self, w: Waiting) -> Result<Listed, Fault>
        requires { Ready self.old w }
        ensures is { Ran (rounds_from self.old.file.now self.old.head self.old.start.now self.old.part.now self.old.owner.now) result
            self.new.part.now self.new.owner.now }
        ensures same { Same self.old self.new }
    {
        let mut listed = Listed {
            next: 0,
            waiting: w,
        };
        // Directories are found on the way, so no range counts the rounds.
        while 0 < listed.waiting.number {
            listed = self.take_dir(listed.waiting)?;
        }
        Ok(listed)
    }
}
