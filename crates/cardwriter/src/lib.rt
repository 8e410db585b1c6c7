// The card writer: the card of a file that passes the audit. The public function takes any input and has no precondition.
#![tactic(auto)]

ghost use Rattle.wire.specs.Fault.{answer_of};
ghost use Rattle.cardwriter.specs.Write.{WritesCard};

use audit::audit;
use cardstore::store_card;
use table::clear;
use wire::fault::Fault;

// Audits a file and writes its card into an output: the card's length, 512 times its blocks, with the card at the output's front,
// the bytes behind it as they were, and the audit's rows in the tables. The reader gives the file back from the card, and a card from which
// it gives this file is the card that is written. Refused with the output as it was and the tables all zero: the audit's own refusal; then
// Room, at 0 with count 0, for too short an output or more than 2^32 blocks.
pub fn write_card(
    file: &[u8],
    out: &mut [u8],
    start: &mut [u64],
    part: &mut [u64],
    owner: &mut [u64],
) -> Result<usize, Fault>
    ensures { WritesCard file out start part owner (answer_of result) }
{
    let _pieces = audit(file, start, part, owner)?;
    let stored = store_card(file, out);
    if stored.is_err() {
        clear(start, 0);
        clear(part, 0);
        clear(owner, 0);
    }
    stored
}
