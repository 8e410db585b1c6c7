// The key writer. The public function takes any input and has no precondition.
#![tactic(auto)]

ghost use Rattle.std.specs.Prelude.{◌≡◌, ◌+◌, ◌≤◌, length};
ghost use Rattle.wire.specs.Fault.{fault, answer_of};
ghost use Rattle.wire.specs.Layout.{offset_width, value_bytes};
ghost use Rattle.wire.specs.Number.{bits_of};
ghost use Rattle.wire.specs.Patch.{patch};
ghost use Rattle.wire.specs.Text.{text_size};
ghost use Rattle.key.specs.Header.{key_layout, fixed_part};
ghost use Rattle.key.specs.Writer.{name_bytes, numbers_of, Writes};
ghost use Rattle.writer.specs.Tested.{tested};

use crate::store::{put_text, put_values};
use key::header::{Fields, MOST_KEYLEN, fixed_part, is_formed, sum_for};
use wire::fault::{Fault, Reason};
use wire::number::{bits_of, greatest, width};

mod store;

// Writes three strings, one after the other, at the front of a part.
fn put_names(part: &mut [u8], class: &[u8], name: &[u8], title: &[u8])
    requires { text_size (length class.now) + text_size (length name.now) + text_size (length title.now) ≤ length part.old }
    ensures { part.new ≡ patch part.old 0 (name_bytes class.now name.now title.now) }
{
    let second = put_text(&mut *part, class);
    let third = second + put_text(&mut part[second..], name);
    put_text(&mut part[third..], title);
}

// Writes the numbers of a header at the front of a part.
fn put_numbers(part: &mut [u8], f: Fields, keylen: usize, cycle: u32)
    requires { (cycle ≡ bits_of 2 f.cycle) × (fixed_part (offset_width f.version) ≤ length part.old) }
    ensures { part.new ≡ patch part.old 0 (value_bytes (key_layout (offset_width f.version)) (numbers_of f keylen)) }
{
    let version = f.version;
    let w = width(1000 < version);
    let numbers: [(usize, u64); 8] = [
        (4, f.nbytes as u64),
        (2, version as u64),
        (4, f.objlen as u64),
        (4, f.datime as u64),
        (2, keylen as u64),
        (2, cycle as u64),
        (w, f.seekkey),
        (w, f.seekpdir),
    ];
    put_values(part, &numbers);
}

// The two bytes of Cycle, where a header with these fields and this sum is written into a buffer of so many bytes; else why it is not.
#[tactic(auto, using(crate::proofs::Tested::too_long, crate::proofs::Tested::wide_cycle, crate::proofs::Tested::wide_key, crate::proofs::Tested::wide_dir, crate::proofs::Tested::not_formed, crate::proofs::Tested::past_room))]
fn check_fields(f: Fields, sum: usize, room: usize) -> Result<u32, Fault>
    ensures { result ≡ tested f sum room }
{
    if MOST_KEYLEN < sum {
        return Err(Reason::Name.at(0));
    }
    let cycle = bits_of(f.cycle).ok_or(Reason::Field.at(0))?;
    let most = greatest(1000 < f.version);
    let formed = is_formed(f.nbytes, f.version, f.objlen, sum as u32, sum);
    if most < f.seekkey || most < f.seekpdir || !formed {
        return Err(Reason::Field.at(0));
    }
    let nbytes = f.nbytes as usize;
    if room < nbytes || room - nbytes < f.seekkey as usize {
        return Err(Reason::Room.at(0));
    }
    Ok(cycle)
}

// Writes a header at the place SeekKey of a buffer and nothing else, and answers KeyLen; the reader finds there what was written.
// Refused with the buffer unchanged: Name for a sum above 32,767, Field for a header that is not well formed or a value that does not
// fit its field, Room for a record that the buffer cannot hold.
#[tactic(auto, using(crate::proofs::Tested::room_told))]
pub fn write_key(
    f: Fields,
    class: &[u8],
    name: &[u8],
    title: &[u8],
    buf: &mut [u8],
) -> Result<usize, Fault>
    ensures { Writes f class.now name.now title.now buf.old buf.new (answer_of result) }
{
    let sum = sum_for(f.version, class.len(), name.len(), title.len());
    let cycle = check_fields(f, sum, buf.len())?;
    let part = &mut buf[f.seekkey as usize..];
    put_numbers(&mut *part, f, sum, cycle);
    let fixed = fixed_part(f.version);
    put_names(&mut part[fixed..], class, name, title);
    Ok(sum)
}
