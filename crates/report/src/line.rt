// The lines of a report, written into a buffer at a place that has room for them.
ghost use Rattle.std.specs.Prelude.{◌≡◌};
ghost use Rattle.report.specs.Put.{Room, Put};
ghost use Rattle.report.specs.Report.{spaced, part_name, line, heading};

use crate::field::{put_field, put_text};
use wire::Answer;

// A part's name and a space.
#[tactic(auto, using(crate::proofs::Words::no_part), unfolding(crate::specs::Report::part_name, crate::specs::Report::spaced))]
fn part_name(part: u64) -> &'static [u8]
    ensures { result.now ≡ spaced (part_name part) }
{
    match part {
        0 => b"gap ",
        1 => b"head ",
        2 => b"free ",
        3 => b"info ",
        4 => b"keys ",
        5 => b"listed ",
        6 => b"dir ",
        7 => b"unlisted ",
        _ => b"unknown ",
    }
}

// Writes the line of a piece.
pub(crate) fn put_line(
    out: &mut [u8],
    at: usize,
    place: u64,
    size: u64,
    part: u64,
    owner: u64,
) -> usize
    requires { Room out.old at (line place size part owner) }
    ensures { Put out.old at (line place size part owner) out.new result }
{
    let second = put_field(out, at, place, b' ');
    let third = put_field(out, second, size, b' ');
    let fourth = put_text(out, third, part_name(part));
    put_field(out, fourth, owner, b'\n')
}

// Writes the first line, at the front. An answer of any number is taken, so it is no enum.
pub(crate) fn put_heading(out: &mut [u8], a: Answer) -> usize
    requires { Room out.old 0 (heading a) }
    ensures { Put out.old 0 (heading a) out.new result }
{
    match a.number {
        0 => {
            let at = put_text(out, 0, b"passed ");
            put_field(out, at, a.count, b'\n')
        }
        7 => {
            let at = put_text(out, 0, b"unfinished ");
            put_field(out, at, a.count, b'\n')
        }
        _ => {
            let second = put_text(out, 0, b"refused ");
            let third = put_field(out, second, a.number, b' ');
            put_field(out, third, a.place, b'\n')
        }
    }
}
