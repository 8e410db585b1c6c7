// The starts of a partition as a table of rows, searched by place. Every public function takes any input and has no
// precondition; where it matters, the promise is for a table that rises.
#![tactic(auto)]

ghost use Rattle.rows.specs.Row.{RowOf};

pub mod lists;

// The row whose start is the place; where the starts rise, none only if there is none.
pub fn find_row(start: &[u64], place: usize) -> Option<usize>
    ensures { RowOf start.now place result }
{
    start.binary_search(&(place as u64)).ok()
}

// The same, whichever row is looked at first.
pub fn seek_row(start: &[u64], place: usize, near: usize) -> Option<usize>
    ensures { RowOf start.now place result }
{
    if near < start.len() && start[near] as usize == place {
        return Some(near);
    }
    find_row(start, place)
}
