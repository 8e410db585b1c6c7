// The start of an object, the elements of a class, and the row of each.
ghost use Rattle.std.specs.Prelude.{◌≡◌, ◌+◌, ◌<◌, ◌≤◌, set, IfOk};
ghost use Rattle.infotag.specs.Stand.{once};
ghost use Rattle.infotag.specs.Tag.{head_at};
ghost use Rattle.streamer.specs.Row.{row_of, element_at};
ghost use Rattle.streamer.specs.Runs.{Within, Ran};

use infoelement::element::{Fields, read_member};
use infofield::field::{ended, offset};
use inforow::{Row, put_row};
use infotag::tag::{Classes, Start, read_head};
use wire::fault::Fault;

// The classes of elements.
const ELEMENTS: Classes = Classes { low: 2, high: 11 };

// Whose elements are read: the place of the record, and the index of the class.
#[derive(Clone, Copy)]
pub struct Owner {
    pub rec: usize,
    pub class: u32,
}

// The place after what was read, and the number of rows so far.
#[derive(Clone, Copy)]
pub struct Rows {
    pub next: usize,
    pub count: usize,
}

// What an object of one of the classes starts with; its tag is remembered.
pub(crate) fn start(
    file: &[u8],
    rec: usize,
    at: usize,
    end: usize,
    classes: Classes,
    tags: &mut [usize; 12],
) -> Result<Start, Fault>
    requires { classes.high < 12 }
    ensures value { result ≡ head_at file.now rec at end classes tags.old }
    ensures within { IfOk result (λ h. h.close ≤ end) }
    ensures high { IfOk result (λ h. h.class ≤ classes.high) }
    ensures seen { IfOk result (λ h. tags.new ≡ set tags.old h.class h.offset) }
{
    let start = read_head(file, rec, at, end, classes, &*tags)?;
    tags[start.class] = start.offset;
    Ok(start)
}

// The row of an element.
fn row_of(owner: Owner, kind: u32, m: Fields) -> Row
    requires { (m.name ≤ owner.rec + 2147483647) × (m.typename ≤ owner.rec + 2147483647) }
    ensures { result ≡ row_of owner kind m }
{
    Row {
        class: owner.class,
        kind,
        name: offset(owner.rec, m.name) as u32,
        typename: offset(owner.rec, m.typename) as u32,
        ftype: m.ftype,
        length: m.length,
    }
}

// An element of a class: its row is written, where there is room for it.
#[tactic(auto, using(crate::proofs::Runs::ran_stop, crate::proofs::Runs::one_row), unfolding(crate::specs::Row::element_at))]
pub(crate) fn element(
    file: &[u8],
    owner: Owner,
    end: usize,
    tags: &mut [usize; 12],
    table: &mut [u32],
    rows: Rows,
) -> Result<Rows, Fault>
    requires { Within owner.rec end rows.count 1 }
    ensures run { Ran (element_at once file.now owner end tags.old rows.next) table.old rows.count result tags.new table.new }
    ensures grown { IfOk result (λ r. r.count ≤ rows.count + 1) }
{
    let start = start(file, owner.rec, rows.next, end, ELEMENTS, &mut *tags)?;
    let kind = offset(1, start.class);
    let member = read_member(file, kind, start.next, start.close)?;
    let next = ended(member.next, start.close)?;
    put_row(&mut *table, rows.count, row_of(owner, kind as u32, member));
    Ok(Rows {
        next,
        count: rows.count + 1,
    })
}
