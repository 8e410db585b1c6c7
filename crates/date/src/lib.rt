// Packed dates (document 000, Datime). Every public function takes any input and has no precondition.
#![tactic(auto)]

ghost use Rattle.wire.specs.Fault.{answer_of};
ghost use Rattle.date.specs.Date.{Packs, Unpacks};

use wire::fault::{Fault, Reason};

#[derive(Clone, Copy)]
pub struct Date {
    pub year: u32,
    pub month: u32,
    pub day: u32,
    pub hour: u32,
    pub minute: u32,
    pub second: u32,
}

// The 32 bits of a date, which unpack to the same date; Date for a field out of its range.
#[tactic(auto, using(crate::proofs::Dates::out_of_range))]
pub fn pack_date(d: Date) -> Result<u32, Fault>
    ensures { Packs d (answer_of result) }
{
    if d.year < 1995
        || 2058 < d.year
        || 15 < d.month
        || 31 < d.day
        || 31 < d.hour
        || 63 < d.minute
        || 63 < d.second
    {
        return Err(Fault {
            reason: Reason::Date,
            place: 0,
        });
    }
    Ok(
        (d.year - 1995) * 67108864
            + d.month * 4194304
            + d.day * 131072
            + d.hour * 4096
            + d.minute * 64
            + d.second,
    )
}

// The six fields of any 32 bits; packed, they give the same 32 bits.
pub fn unpack_date(v: u32) -> Date
    ensures { Unpacks v result }
{
    Date {
        year: 1995 + v / 67108864,
        month: v / 4194304 % 16,
        day: v / 131072 % 32,
        hour: v / 4096 % 32,
        minute: v / 64 % 64,
        second: v % 64,
    }
}
