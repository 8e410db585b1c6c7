// The card of a file, written without an audit. The public function takes any input and has no precondition.
#![tactic(auto)]

ghost use Rattle.std.specs.Prelude.{◌≡◌, ◌++◌, ◌*◌, ◌≤◌, ◌^◌, ◌↔◌, length, IsTrue};
ghost use Rattle.wire.specs.Fault.{answer_of};
ghost use Rattle.wire.specs.Number.{be_bytes};
ghost use Rattle.wire.specs.Parts.{parts};
ghost use Rattle.wire.specs.Patch.{patch};
ghost use Rattle.table.specs.Table.{filled};
ghost use Rattle.card.specs.Card.{block_with, block_of, blocks_for};
ghost use Rattle.cardstore.specs.Store.{StoresCard};

use buffer::{copy, put32};
use card::blocks_for;
use checksum::check;
use table::clear;
use wire::fault::{Fault, Reason};
use wire::number::least;

// Writes number and data of a block at the front of a part, with zeros as padding.
fn put_body(part: &mut [u8], i: u32, bytes: &[u8])
    requires { (508 ≤ length part.old) × (length bytes.now ≤ 504) }
    ensures { part.new ≡ patch part.old 0 (be_bytes 4 i ++ filled bytes.now 504) }
{
    put32(&mut *part, i);
    copy(&mut part[4..], bytes);
    let end = 4 + bytes.len();
    clear(&mut part[end..508], 0);
}

// Writes a block at the front of a part.
fn put_block(part: &mut [u8], i: u32, bytes: &[u8])
    requires { (512 ≤ length part.old) × (length bytes.now ≤ 504) }
    ensures { part.new ≡ patch part.old 0 (block_with i (filled bytes.now 504)) }
{
    put_body(&mut *part, i, bytes);
    let sum = check(&part[0..508]);
    put32(&mut part[508..], sum);
}

// Writes the n blocks of a file at the front of an output.
fn put_card(file: &[u8], n: usize, card: &mut [u8])
    requires { (n ≡ blocks_for (length file.now)) × (n ≤ 2 ^ 32) × (n * 512 ≤ length card.old) }
    ensures { card.new ≡ patch card.old 0 (parts (block_of file.now) n) }
{
    for i in 0..n {
        let at = i * 512;
        let from = i * 504;
        let to = least(file.len(), from + 504);
        put_block(&mut card[at..], i as u32, &file[from..to]);
    }
}

// Whether n blocks have numbers, and room in so many bytes.
fn fit(n: usize, room: usize) -> bool
    ensures { IsTrue result ↔ (n ≤ 2 ^ 32) × (n * 512 ≤ room) }
{
    n <= 4294967296 && n <= room / 512
}

// Writes the card of a file into an output, whether the file passes an audit or not: the card's length, 512 times its blocks, with the card
// at the output's front and the bytes behind it as they were; the reader gives a file back whose END is its length. Refused, at 0 with count
// 0 and the output as it was: Room for too short an output or more than 2^32 blocks.
pub fn store_card(file: &[u8], card: &mut [u8]) -> Result<usize, Fault>
    ensures { StoresCard file.now card.old card.new (answer_of result) }
{
    let n = blocks_for(file.len());
    if !fit(n, card.len()) {
        return Err(Fault {
            reason: Reason::Room,
            place: 0,
        });
    }
    put_card(file, n, card);
    Ok(n * 512)
}
