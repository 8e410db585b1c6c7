// The audit of a whole file.
#![tactic(auto)]

ghost use Rattle.wire.specs.Fault.{answer_of};
ghost use Rattle.audit.specs.Examined.{Examines};
ghost use Rattle.audit.specs.Tables.{Audits, AuditsSalvaged, AuditsFor, AuditsWithin};

use chain::walk;
use fileheader::open;
use survey::survey;
use table::clear;
use wire::fault::{Fault, Reason};

mod keys;
mod rounds;
mod survey;

// The verdict; on a pass the tables begin with the rows.
fn examine(
    file: &[u8],
    start: &mut [u64],
    part: &mut [u64],
    owner: &mut [u64],
    limit: usize,
    compare: bool,
) -> Result<usize, Fault>
    ensures { Examines compare limit file start part owner (answer_of result) }
{
    let head = open(file)?;
    let n = walk(file, start)?;
    let room = limit.min(start.len().min(part.len().min(owner.len())));
    if room < n {
        let unfinished = Fault {
            reason: Reason::Unfinished(n as u64),
            place: 0,
        };
        return Err(unfinished);
    }
    survey(
        file,
        &start[..n],
        &mut part[..n],
        &mut owner[..n],
        head,
        compare,
    )?;
    Ok(n)
}

// Audits a file: the verdict, which means what the third demand says, for the least of a limit and the tables' lengths; free segments are
// compared with the gaps or, where compare is false, not. On a pass row i of the tables is start, part and owner of piece i, later entries
// are 0; on a refusal all entries are 0.
pub fn audit_within(
    file: &[u8],
    start: &mut [u64],
    part: &mut [u64],
    owner: &mut [u64],
    limit: usize,
    compare: bool,
) -> Result<usize, Fault>
    ensures { AuditsWithin compare limit file start part owner (answer_of result) }
{
    let r = examine(file, start, part, owner, limit, compare);
    let n = r.unwrap_or(0);
    clear(start, n);
    clear(part, n);
    clear(owner, n);
    r
}

// Either audit with no limit but the tables.
fn audit_as(
    file: &[u8],
    start: &mut [u64],
    part: &mut [u64],
    owner: &mut [u64],
    compare: bool,
) -> Result<usize, Fault>
    ensures { AuditsFor file start part owner compare (answer_of result) }
{
    let limit = start.len();
    audit_within(file, start, part, owner, limit, compare)
}

// The first audit of a file: the verdict and the rows as above, with no limit but the tables; free segments are compared with the gaps.
pub fn audit(
    file: &[u8],
    start: &mut [u64],
    part: &mut [u64],
    owner: &mut [u64],
) -> Result<usize, Fault>
    ensures { Audits file start part owner (answer_of result) }
{
    audit_as(file, start, part, owner, true)
}

// The second audit, for a file that was salvaged: the same, but free segments are not compared with the gaps, and the third demand is
// without that rule.
pub fn audit_salvaged(
    file: &[u8],
    start: &mut [u64],
    part: &mut [u64],
    owner: &mut [u64],
) -> Result<usize, Fault>
    ensures { AuditsSalvaged file start part owner (answer_of result) }
{
    audit_as(file, start, part, owner, false)
}
