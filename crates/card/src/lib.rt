// The transfer card: a file in blocks of 512 bytes, each with its number, 504 bytes of the file and a check. Here it is read. Every public
// function takes any input and has no precondition.
#![tactic(auto)]

ghost use Rattle.std.specs.Prelude.{◌≡◌, ◌*◌, ◌≤◌, length, take, MatchResult};
ghost use Rattle.wire.specs.Check.{all};
ghost use Rattle.wire.specs.Fault.{answer_of, fault};
ghost use Rattle.wire.specs.Parts.{parts};
ghost use Rattle.wire.specs.Patch.{patch};
ghost use Rattle.card.specs.Card.{blocks_for};
ghost use Rattle.card.specs.Promise.{ReadsCard};
ghost use Rattle.card.specs.Read.{block_at, block_fault, fault_from, data_at, end_of, needed, zeros, closed, card_fault, Faults, Finds};

use buffer::copy;
use checksum::check;
use fileheader::end_of;
use wire::fault::{Fault, Reason};
use wire::number::{be32, least};

// How many blocks n bytes take: one for every 504 of them, and always block 0.
pub fn blocks_for(n: usize) -> usize
    ensures { result ≡ blocks_for n }
{
    n.saturating_sub(1) / 504 + 1
}

// Whether the block i of a card is whole and has its number and its check.
fn test_block(card: &[u8], i: usize) -> Result<(), Fault>
    ensures { Finds result (block_fault i (block_at card.now i)) }
{
    if card.len() / 512 <= i {
        return Err(Reason::Block.at(0));
    }
    let at = i * 512;
    let block = &card[at..at + 512];
    if be32(block, 0) as usize != i {
        return Err(Reason::BlockNumber.at(0));
    }
    if be32(block, 508) != check(&block[0..508]) {
        return Err(Reason::BlockCheck.at(0));
    }
    Ok(())
}

// Whether the first n blocks of a card are whole and have their numbers and checks.
fn test_blocks(card: &[u8], n: usize) -> Result<(), Fault>
    ensures { Finds result (fault_from card.now n 0) }
{
    for number in 0..n {
        test_block(card, number)?;
    }
    Ok(())
}

// Whether every byte is 0.
fn all_zero(s: &[u8]) -> bool
    ensures { result ≡ zeros s.now }
{
    s.iter().all(|byte| *byte == 0)
}

// Whether a card without a faulty block has an END from 100 on, no byte after its last block, and only zeros as padding.
#[tactic(auto, using(crate::proofs::Fills::spans))]
fn is_closed(card: &[u8], end: usize) -> bool
    requires { (end ≡ end_of card.now) × (fault_from card.now (needed card.now) 0 ≡ 0) }
    ensures { result ≡ all (closed card.now) }
{
    if end < 100 {
        return false;
    }
    let n = blocks_for(end);
    let long = n * 512;
    if card.len() != long {
        return false;
    }
    let from = end + n * 8 - 4;
    let to = long - 4;
    all_zero(&card[from..to])
}

// The END of a card without a fault.
fn test_card(card: &[u8]) -> Result<usize, Fault>
    ensures { MatchResult result (λ e. (e ≡ end_of card.now) × (card_fault card.now ≡ 0)) (λ f. Faults f (card_fault card.now)) }
{
    if card.len() < 512 {
        return Err(Reason::Block.at(0));
    }
    let end = end_of(&card[4..508]) as usize;
    test_blocks(card, blocks_for(end))?;
    if !is_closed(card, end) {
        return Err(Reason::Padding.at(0));
    }
    Ok(end)
}

// Copies the first bytes of the data of a card's blocks to the front of an output.
#[tactic(auto, using(crate::proofs::Fills::copy_spans))]
fn copy_file(card: &[u8], end: usize, out: &mut [u8])
    requires { (blocks_for end * 512 ≤ length card.now) × (end ≤ length out.old) }
    ensures { out.new ≡ patch out.old 0 (take end (parts (data_at card.now) (blocks_for end))) }
{
    for i in 0..blocks_for(end) {
        let at = i * 504;
        let from = i * 512 + 4;
        let to = from + least(504, end - at);
        copy(&mut out[at..], &card[from..to]);
    }
}

// Reads a card into an output: END, the file's length, with the file at the output's front and the bytes behind it as they were; the card
// is then that of the file, and is refused once any one byte of it is changed. Refused, at 0 with count 0 and the output as it was: for each
// block that END needs, and always block 0, in turn Block if it is missing or incomplete, BlockNumber for a wrong number, BlockCheck for a
// wrong check; then Padding for nonzero padding, bytes after the last block or an END below 100; then Room if the output is too short. The
// file is not audited.
pub fn read_card(card: &[u8], out: &mut [u8]) -> Result<usize, Fault>
    ensures { ReadsCard card.now out.old out.new (answer_of result) }
{
    let end = test_card(card)?;
    if out.len() < end {
        return Err(Reason::Room.at(0));
    }
    copy_file(card, end, out);
    Ok(end)
}
