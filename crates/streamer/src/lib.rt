// The StreamerInfo record of a ROOT file: the reader of an unpacked record, a row for every element.
// Every public function takes any input and has no precondition.
#![tactic(auto)]

mod info;
mod row;

ghost use Rattle.wire.specs.Fault.{answer_of};
ghost use Rattle.streamer.specs.Info.{Informs};

use crate::info::read_record;
use table::clear;
use wire::fault::{Fault, Reason};

// The rows of the StreamerInfo record at a place, one for each element, then zeros; or only zeros and a piece's refusal, NotInfo, Packed, the
// first faulty field in byte order (Count, Tag, Referenced), or Rows with the rows needed. Every class that an object is taken as has its tag in the record.
pub fn read_info(file: &[u8], at: usize, table: &mut [u32]) -> Result<usize, Fault>
    ensures { Informs file at table (answer_of result) }
{
    clear(&mut *table, 0);
    match read_record(file, at, &mut *table) {
        Ok(rows) => {
            if rows.count <= table.len() / 6 {
                return Ok(rows.count);
            }
            clear(&mut *table, 0);
            Err(Fault {
                reason: Reason::Rows(rows.count as u64),
                place: 0,
            })
        }
        Err(fault) => {
            clear(&mut *table, 0);
            Err(fault)
        }
    }
}
