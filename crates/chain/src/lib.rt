// The chain of pieces from 100 to the end. Every public function takes any input and has no precondition.
#![tactic(auto)]

ghost use Rattle.std.specs.Prelude.{◌≡◌};
ghost use Rattle.key.specs.Piece.{piece_at};
ghost use Rattle.chain.specs.Walk.{step_of, Walks};

use key::piece::{Piece, read_piece};
use key::short::is_short;
use wire::fault::{Fault, Reason};
use wire::number::be32;

// The size of the piece at a place, or the refusal there: Chain or Key, and the place. A record with short strings is not taken apart.
#[tactic(auto, using(crate::proofs::Walks::short_step))]
pub fn size_at(file: &[u8], at: usize) -> Result<usize, Fault>
    ensures { result ≡ step_of (piece_at file.now at) }
{
    if is_short(file, at) {
        return Ok(be32(file, at) as usize);
    }
    match read_piece(file, at)? {
        Piece::Record(k) => Ok(k.nbytes as usize),
        Piece::Gap(n) => Ok(n as usize),
    }
}

// Piece by piece, as each says where the next begins: the number of the pieces that fill the file from 100 on, or the refusal of the first that is none; writes the starts before it, as far as
// there is room. A file too short for a chain is Short at 0, and leaves the table as it was.
#[tactic(auto, using(crate::proofs::Walks::stepped))]
pub fn walk(file: &[u8], start: &mut [u64]) -> Result<usize, Fault>
    ensures { Walks file.now start.old start.new result }
{
    if file.len() < 100 {
        return Err(Fault {
            reason: Reason::Short,
            place: 0,
        });
    }
    let mut at: usize = 100;
    let mut n: usize = 0;
    while at < file.len() {
        let size = size_at(file, at)?;
        if n < start.len() {
            start[n] = at as u64;
        }
        n += 1;
        at += size;
    }
    Ok(n)
}
