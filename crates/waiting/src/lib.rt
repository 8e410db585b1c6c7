// The directories found and not done: the lowest of them and how many, kept by value beside the tables. Which row comes next is told by a
// tree of greatest nodes in the spare bits of the part table. Every public function takes any input and has no precondition; what is kept is
// promised where it was right before.
#![tactic(auto)]

ghost use Rattle.std.specs.Prelude.{◌≡◌, ◌-◌, ◌/◌, ◌<◌, length, get_or, set};
ghost use Rattle.waiting.specs.Waiting.{parts_in, node, NodeAt, Tree, Gives, Finds, Settles};

// The row of the lowest directory found and not done, the number of rows where there is none; its place, 0 where there is none; and how
// many such directories there are: three numbers for none too, as `Keeps` says.
#[derive(Clone, Copy)]
pub struct Waiting {
    pub row: usize,
    pub place: u64,
    pub number: usize,
}

// A node of the tree.
#[tactic(auto, using(crate::proofs::Trees::nodes))]
fn node_at(part: &[u64], i: usize) -> u64
    ensures { NodeAt part.now i result }
{
    let n = part.len();
    if i < n {
        return part[i] / 16;
    }
    let row = i - n;
    if n <= row || part[row] % 16 < 8 {
        return 0;
    }
    (n - row) as u64
}

// Mends the tree above a node that has this value: each node above is the greater of the one just left and the one beside that.
#[tactic(auto, using(crate::proofs::Trees::climbs))]
fn climb(part: &mut [u64], from: usize, value: u64)
    requires { (from / 2 < length part.old) × NodeAt part.old from value }
    ensures { (parts_in part.new ≡ parts_in part.old) × (Tree part.old (from / 2) → Tree part.new 0) }
{
    let mut i = from;
    let mut v = value;
    // A walk up the tree, where i is halved: no range has these steps.
    while 1 < i {
        let beside = node_at(part, i + 1 - i % 2 * 2);
        i = i / 2;
        v = v.max(beside);
        let old = part[i];
        if old / 16 == v {
            return;
        }
        part[i] = v * 16 + old % 16;
    }
}

// Gives a row a part, and mends the tree.
fn put_part(part: &mut [u64], row: usize, new: u64)
    requires { (row < length part.old) × (new < 16) }
    ensures { (parts_in part.new ≡ set (parts_in part.old) row new) × (Tree part.old 0 → Tree part.new 0) }
{
    let old = part[row];
    part[row] = old / 16 * 16 + new;
    let leaf = part.len() + row;
    let value = node_at(part, leaf);
    climb(part, leaf, value);
}

// The lowest of so many directories.
#[tactic(auto, using(std::proofs::lemmas::Option::gets))]
fn lowest(start: &[u64], part: &[u64], number: usize) -> Waiting
    ensures { (result.number ≡ number) × (result.row ≡ length part.now - node part.now 1)
        × (result.place ≡ get_or start.now result.row 0) }
{
    let n = part.len();
    let row = n.saturating_sub(node_at(part, 1) as usize);
    Waiting {
        row,
        place: start.get(row).copied().unwrap_or(0),
        number,
    }
}

// Gives a row a part without the mark; no other row's part changes, and what was kept for a row that did not wait stays right.
pub fn give(part: &mut [u64], row: usize, new: u64)
    ensures { Gives part row new }
{
    if part.len() <= row {
        return;
    }
    part[row] = part[row] / 16 * 16 + new % 8;
}

// A directory is found in a row: its part gets the mark. Where what was kept was right, so is what is told: row and place of the lowest
// that waits, and how many there are.
pub fn found(start: &[u64], part: &mut [u64], row: usize, w: Waiting) -> Waiting
    ensures { Finds start part row w result }
{
    let n = part.len();
    if n <= row {
        return w;
    }
    let small = part[row] % 8;
    put_part(part, row, small + 8);
    lowest(start, part, w.number.min(n - 1) + 1)
}

// The directory in a row is done: its part loses the mark, and what is told is as for one found.
pub fn settle(start: &[u64], part: &mut [u64], row: usize, w: Waiting) -> Waiting
    ensures { Settles start part row w result }
{
    if part.len() <= row {
        return w;
    }
    let small = part[row] % 8;
    put_part(part, row, small);
    lowest(start, part, w.number.saturating_sub(1))
}
