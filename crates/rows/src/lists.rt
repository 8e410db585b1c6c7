// What is known of the rows before the directories: the gaps and the info record.
ghost use Rattle.std.specs.Prelude.{◌≡◌};
ghost use Rattle.wire.specs.Check.{all, nothing};
ghost use Rattle.key.specs.Piece.{piece_at};
ghost use Rattle.rules.specs.Free.{info_holds};
ghost use Rattle.rules.specs.Turn.{first_part};
ghost use Rattle.rows.specs.Gap.{gap_of};
ghost use Rattle.rows.specs.Row.{Rises};

use crate::find_row;
use fileheader::FileHead;
use key::piece::{Piece, read_piece};
use keylist::is_info;
use wire::number::be32;

// The size of the gap at a place, 0 where no gap stands: no gap has that size, and `gap_of` says it.
#[tactic(auto, using(crate::proofs::Gaps::no_gap))]
pub fn gap_size(file: &[u8], at: usize) -> usize
    ensures { result ≡ gap_of (piece_at file.now at) }
{
    if be32(file, at) < 2147483648 {
        return 0;
    }
    match read_piece(file, at) {
        Ok(Piece::Gap(n)) => n as usize,
        _ => 0,
    }
}

// The part of a piece, by its number in the table that C lends, before the first directory is taken; the head, found and not done, has its part plus 8.
#[tactic(auto, using(crate::proofs::Gaps::gap_tests), unfolding(rules::specs::Turn::first_part))]
pub fn part_at(file: &[u8], place: u64, head: FileHead) -> u64
    ensures { result ≡ first_part file.now head place }
{
    if place == 100 {
        return 9;
    }
    if place == head.seekfree {
        return 2;
    }
    if place == head.seekinfo {
        return 3;
    }
    if gap_size(file, place as usize) == 0 {
        return 7;
    }
    0
}

// Whether a place and a size name no record: both are 0.
pub fn is_nothing(seek: u64, nbytes: u32) -> bool
    ensures { result ≡ all (nothing seek nbytes) }
{
    seek == 0 && nbytes == 0
}

// Whether the info rule holds, for starts that rise.
#[tactic(auto, using(crate::proofs::Parts::row_starts), unfolding(rules::specs::Free::info_holds))]
pub fn check_info(file: &[u8], start: &[u64], head: FileHead) -> bool
    ensures { Rises start.now → result ≡ info_holds file.now start.now head }
{
    let seek = head.seekinfo;
    let nbytes = head.nbytesinfo;
    if is_nothing(seek, nbytes) {
        return true;
    }
    find_row(start, seek as usize).is_some() && is_info(file, seek as usize, nbytes)
}
