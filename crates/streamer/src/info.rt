// The objects of a StreamerInfo record (document 002).
ghost use Rattle.std.specs.Prelude.{◌+◌, ◌≤◌, IfOk};
ghost use Rattle.infotag.specs.Stand.{once};
ghost use Rattle.streamer.specs.Row.{times};
ghost use Rattle.streamer.specs.Info.{elements_at, array_at, class_at, list_object_at, info_at};
ghost use Rattle.streamer.specs.Runs.{Within, Ran, Ended};

use crate::row::{Owner, Rows, element, start};
use infoelement::element::read_class;
use infofield::field::ended;
use infolist::list::{Objects, read_array, read_list, read_option};
use infotag::tag::Classes;
use wire::fault::Fault;

// The class of the list's objects, and of their arrays.
const INFO: Classes = Classes { low: 0, high: 0 };

const ARRAY: Classes = Classes { low: 1, high: 1 };

// The elements of a class, the objects of its array, from so many rows on.
#[tactic(auto, using(crate::proofs::Runs::read_began, crate::proofs::Runs::read_more, crate::proofs::Runs::read_stopped, crate::proofs::Runs::read_ended), unfolding(crate::specs::Info::elements_at))]
fn elements(
    file: &[u8],
    owner: Owner,
    list: Objects,
    tags: &mut [usize; 12],
    table: &mut [u32],
    count: usize,
) -> Result<Rows, Fault>
    requires { Within owner.rec list.end count 4294967295 }
    ensures run { Ran (elements_at once file.now owner list tags.old)
        table.old count result tags.new table.new }
    ensures grown { IfOk result (λ r. r.count ≤ count + 4294967295) }
{
    let mut rows = Rows {
        next: list.from,
        count,
    };
    for _ in 0..list.count {
        rows = element(file, owner, list.end, &mut *tags, &mut *table, rows)?;
    }
    Ok(rows)
}

// A TObjArray of elements.
#[tactic(auto, using(crate::proofs::Runs::ran_stop, crate::proofs::Runs::ran_ends), unfolding(crate::specs::Info::array_at))]
fn array(
    file: &[u8],
    owner: Owner,
    end: usize,
    tags: &mut [usize; 12],
    table: &mut [u32],
    rows: Rows,
) -> Result<Rows, Fault>
    requires { Within owner.rec end rows.count 4294967295 }
    ensures run { Ran (array_at once file.now owner end tags.old rows.next)
        table.old rows.count result tags.new table.new }
    ensures grown { IfOk result (λ r. r.count ≤ rows.count + 4294967295) }
{
    let start = start(file, owner.rec, rows.next, end, ARRAY, &mut *tags)?;
    let list = read_array(file, start.next, start.close)?;
    let rows = elements(file, owner, list, &mut *tags, &mut *table, rows.count)?;
    let stop = ended(rows.next, list.end)?;
    let next = ended(stop, start.close)?;
    Ok(Rows { next, ..rows })
}

// A TStreamerInfo.
#[tactic(auto, using(crate::proofs::Runs::ran_stop, crate::proofs::Runs::ran_ends), unfolding(crate::specs::Info::class_at))]
fn class(
    file: &[u8],
    owner: Owner,
    end: usize,
    tags: &mut [usize; 12],
    table: &mut [u32],
    rows: Rows,
) -> Result<Rows, Fault>
    requires { Within owner.rec end rows.count 4294967295 }
    ensures run { Ran (class_at once file.now owner end tags.old rows.next)
        table.old rows.count result tags.new table.new }
    ensures grown { IfOk result (λ r. r.count ≤ rows.count + 4294967295) }
{
    let start = start(file, owner.rec, rows.next, end, INFO, &mut *tags)?;
    let body = read_class(file, start.next, start.close)?;
    let inner = Rows {
        next: body.from,
        ..rows
    };
    let rows = array(file, owner, body.close, &mut *tags, &mut *table, inner)?;
    let stop = ended(rows.next, body.close)?;
    let next = ended(stop, start.close)?;
    Ok(Rows { next, ..rows })
}

// An object of a list: a TStreamerInfo, and the list's option after it.
#[tactic(auto, using(crate::proofs::Runs::ran_stop, crate::proofs::Runs::ran_onward), unfolding(crate::specs::Info::list_object_at))]
fn list_object(
    file: &[u8],
    owner: Owner,
    list: Objects,
    tags: &mut [usize; 12],
    table: &mut [u32],
    rows: Rows,
) -> Result<Rows, Fault>
    requires { Within owner.rec list.end rows.count 4294967295 }
    ensures run { Ran (list_object_at once file.now owner.rec list owner.class tags.old rows.next)
        table.old rows.count result tags.new table.new }
    ensures grown { IfOk result (λ r. r.count ≤ rows.count + 4294967295) }
{
    let rows = class(file, owner, list.end, &mut *tags, &mut *table, rows)?;
    let next = read_option(file, list.version, rows.next, list.end)?;
    Ok(Rows { next, ..rows })
}

// The objects of a list, each with its option.
#[tactic(auto, using(crate::proofs::Runs::read_began, crate::proofs::Runs::read_more, crate::proofs::Runs::read_stopped, crate::proofs::Runs::read_ended))]
fn list_objects(
    file: &[u8],
    rec: usize,
    list: Objects,
    tags: &mut [usize; 12],
    table: &mut [u32],
) -> Result<Rows, Fault>
    requires { list.end ≤ rec + 2147483647 }
    ensures { Ran (times (list_object_at once file.now rec list) tags.old list.from list.count)
        table.old 0 result tags.new table.new }
{
    let mut rows = Rows {
        next: list.from,
        count: 0,
    };
    for class in 0..list.count {
        rows = list_object(
            file,
            Owner { rec, class },
            list,
            &mut *tags,
            &mut *table,
            rows,
        )?;
    }
    Ok(rows)
}

// The rows of the record at a place.
#[tactic(auto, using(crate::proofs::Runs::ended_stop, crate::proofs::Runs::ended_onward), unfolding(crate::specs::Info::info_at))]
pub(crate) fn read_record(file: &[u8], at: usize, table: &mut [u32]) -> Result<Rows, Fault>
    ensures { Ended (info_at once file.now at) table.old result table.new }
{
    let list = read_list(file, at)?;
    let mut tags = [0usize; 12];
    let rows = list_objects(file, at, list, &mut tags, &mut *table)?;
    let next = ended(rows.next, list.end)?;
    Ok(Rows { next, ..rows })
}
