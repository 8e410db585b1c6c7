// The text of the list program: an audit's answer and tables in words.
#![tactic(auto)]

ghost use Rattle.std.specs.Prelude.{◌≡◌, ◌≤◌, length};
ghost use Rattle.wire.specs.Fault.{answer_of};
ghost use Rattle.report.specs.Report.{heading, rows_of, report_of, Wrote};

use field::put_text;
use line::put_heading;
use rows::Rows;
use wire::Answer;
use wire::fault::{Fault, Reason};

mod field;
mod line;
mod rows;

// How many rows are listed.
#[tactic(auto, unfolding(crate::specs::Report::rows_of))]
fn count_rows(a: Answer, start: &[u64], part: &[u64], owner: &[u64]) -> usize
    ensures rows { result ≡ rows_of a start.now part.now owner.now }
    ensures within { (result ≤ length start.now) × (result ≤ length part.now) × (result ≤ length owner.now) }
{
    if a.number != 0 {
        return 0;
    }
    (a.count as usize).min(start.len().min(part.len().min(owner.len())))
}

// The length of the first line.
#[tactic(auto, using(crate::proofs::Words::heading_short))]
fn heading_length(a: Answer) -> usize
    ensures { result ≡ length (heading a) }
{
    let mut space = [0u8; 72];
    put_heading(&mut space, a)
}

// Writes a text at the front of a buffer, and counts its bytes. Room, and nothing is written, where the buffer cannot
// hold it.
pub fn write_text(text: &[u8], out: &mut [u8]) -> Result<usize, Fault>
    ensures { Wrote text.now out.old (answer_of result) out.new }
{
    if out.len() < text.len() {
        return Err(Fault {
            reason: Reason::Room,
            place: 0,
        });
    }
    Ok(put_text(out, 0, text))
}

// The same of the report of an audit's answer and tables, whatever they say, for a file of end bytes: 72 bytes a line always hold it.
pub fn write_report(
    a: Answer,
    start: &[u64],
    part: &[u64],
    owner: &[u64],
    end: usize,
    out: &mut [u8],
) -> Result<usize, Fault>
    ensures { Wrote (report_of a start.now part.now owner.now end) out.old (answer_of result) out.new }
{
    let n = count_rows(a, start, part, owner);
    let rows = Rows {
        start: &start[..n],
        part: &part[..n],
        owner: &owner[..n],
        end,
    };
    if rows.fit(heading_length(a), out.len()) {
        let at = put_heading(out, a);
        return Ok(rows.put(out, at));
    }
    Err(Fault {
        reason: Reason::Room,
        place: 0,
    })
}
