// Pieces: a record, a gap or a refusal at a place.
ghost use Rattle.std.specs.Prelude.{◌≡◌, ◌+◌, ◌≤◌, IfSome, length, nat_abs};
ghost use Rattle.wire.specs.Number.{signed_of};
ghost use Rattle.key.specs.Piece.{record_at};
ghost use Rattle.key.specs.Writer.{Reads};

use crate::header::{Key, read_header};
use wire::fault::{Fault, Reason};
use wire::number::be32;

// A record with its fields, or a gap with its size.
#[derive(Clone, Copy)]
pub enum Piece {
    Record(Key),
    Gap(u32),
}

// The bytes of the piece that a number of four bytes stands for: it is signed, and a gap's is negative. One select, no branch: where
// pieces are looked for in data, the sign is any.
fn size_for(n: u32) -> u32
    ensures { result ≡ nat_abs (signed_of 4 n) }
{
    if n < 2147483648 {
        return n;
    }
    4294967295 - n + 1
}

// The piece at any place of a file: a record with its fields and where its strings stand, a gap with its size, or Chain or Key at the place. A
// plain record, written with these, gives the KeyLen bytes that stand there.
pub fn read_piece(file: &[u8], at: usize) -> Result<Piece, Fault>
    ensures { Reads file.now at result }
{
    let end = file.len();
    if end <= at {
        return Err(Fault {
            reason: Reason::Chain,
            place: at,
        });
    }
    let n = be32(file, at);
    let size = size_for(n);
    if size < 4 {
        return Err(Fault {
            reason: Reason::Chain,
            place: at,
        });
    }
    if end - at < size as usize {
        return Err(Fault {
            reason: Reason::Chain,
            place: at,
        });
    }
    if 2147483648 <= n {
        return Ok(Piece::Gap(size));
    }
    let Some(k) = read_header(file, at, at + size as usize) else {
        return Err(Fault {
            reason: Reason::Key,
            place: at,
        });
    };
    let seekkey = k.seekkey;
    if seekkey != at as u64 {
        return Err(Fault {
            reason: Reason::Key,
            place: at,
        });
    }
    Ok(Piece::Record(k))
}

// The record at a place: it lies in the file, and its key in it.
#[tactic(auto, using(crate::proofs::Others::record_there_law), unfolding(crate::specs::Piece::record_at, crate::specs::Piece::on_record))]
pub fn read_record(file: &[u8], at: usize) -> Option<Key>
    ensures key { result ≡ record_at file.now at }
    ensures lies { IfSome result (λ k. (at + k.nbytes ≤ length file.now) × (k.keylen ≤ k.nbytes)) }
{
    match read_piece(file, at).ok()? {
        Piece::Record(k) => Some(k),
        Piece::Gap(_) => None,
    }
}
