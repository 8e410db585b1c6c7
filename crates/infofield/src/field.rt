// Fields, ByteCounts and ends of objects (document 002).
ghost use Rattle.std.specs.Prelude.{◌≡◌, ◌-◌, ◌<◌, ◌≤◌, IfOk};
ghost use Rattle.infofield.specs.Field.{count_at, field_at, versioned_at, numbers_at, text_field_at, unnamed_at};
ghost use Rattle.infofield.specs.Field.{object_at, ended_at, zero_at, bad_field};

use wire::fault::{Fault, Reason};
use wire::number::be32;
use wire::text::read_text;

// The content of an object: where it goes on after its ByteCount, or its ByteCount and version, and its end.
#[derive(Clone, Copy)]
pub struct Body {
    pub from: usize,
    pub close: usize,
}

// How far a place lies behind another, 0 where it does not.
pub fn offset(from: usize, at: usize) -> usize
    ensures { result ≡ at - from }
{
    at.saturating_sub(from)
}

// The ByteCount at a place, within the innermost open end: the place after it and the object's end, or Count at it.
#[tactic(auto, using(crate::proofs::Steps::is_count, crate::proofs::Steps::not_count), unfolding(crate::specs::Field::end_of))]
pub fn open(file: &[u8], at: usize, end: usize) -> Result<Body, Fault>
    ensures value { result ≡ count_at file.now at end }
    ensures within { IfOk result (λ b. b.close ≤ end) }
{
    if end < at || end - at < 4 {
        return Err(Reason::Count.at(at));
    }
    let v = be32(file, at);
    if v / 1073741824 != 1 {
        return Err(Reason::Count.at(at));
    }
    let size = (v % 1073741824) as usize;
    if end - at - 4 < size {
        return Err(Reason::Count.at(at));
    }
    Ok(Body {
        from: at + 4,
        close: at + 4 + size,
    })
}

// A field of so many bytes: the place after it, or Count at the field where it ends past end.
#[tactic(auto, using(crate::proofs::Steps::field_in, crate::proofs::Steps::field_out))]
pub fn field(size: usize, at: usize, end: usize) -> Result<usize, Fault>
    ensures { result ≡ field_at size at end }
{
    if end < at || end - at < size {
        return Err(Reason::Count.at(at));
    }
    Ok(at + size)
}

// The ByteCount and the version of an object: the place after them and its end, or Count at the first fault.
#[tactic(auto, unfolding(crate::specs::Field::versioned_at))]
pub fn versioned(file: &[u8], at: usize, end: usize) -> Result<Body, Fault>
    ensures value { result ≡ versioned_at file.now at end }
    ensures within { IfOk result (λ b. b.close ≤ end) }
{
    let body = open(file, at, end)?;
    let from = field(2, body.from, body.close)?;
    Ok(Body { from, ..body })
}

// So many numbers of four bytes: the place after them, or Count at the first that ends past end.
#[tactic(auto, using(crate::proofs::Steps::no_number, crate::proofs::Steps::one_more, crate::proofs::Steps::number_out))]
pub fn numbers(count: usize, at: usize, end: usize) -> Result<usize, Fault>
    ensures { result ≡ numbers_at count at end }
{
    let mut place = at;
    for _ in 0..count {
        place = field(4, place, end)?;
    }
    Ok(place)
}

// A string with its length: the place after it, or Count at one of another form or past end.
#[tactic(auto, using(crate::proofs::Steps::text_before), unfolding(crate::specs::Field::text_field_at))]
pub fn text(file: &[u8], at: usize, end: usize) -> Result<usize, Fault>
    ensures value { result ≡ text_field_at file.now at end }
    ensures before { IfOk result (λ q. at < end) }
{
    match read_text(file, at, end) {
        Some(t) => Ok(t.next),
        None => Err(Reason::Count.at(at)),
    }
}

// The name of a list or an array, which has none: a length byte 0, else Count.
#[tactic(auto, unfolding(crate::specs::Field::unnamed_at))]
pub fn unnamed(file: &[u8], at: usize, end: usize) -> Result<usize, Fault>
    ensures { result ≡ unnamed_at file.now at end }
{
    match read_text(file, at, end) {
        Some(t) if t.len == 0 => Ok(t.next),
        _ => Err(Reason::Count.at(at)),
    }
}

// A number of four bytes that is 0, else Count.
#[tactic(auto, unfolding(crate::specs::Field::zero_at))]
pub fn zero(file: &[u8], at: usize, end: usize) -> Result<usize, Fault>
    ensures { result ≡ zero_at file.now at end }
{
    let next = field(4, at, end)?;
    if be32(file, at) != 0 {
        return Err(Reason::Count.at(at));
    }
    Ok(next)
}

// A TObject: Count at a field that ends past end, Referenced at its bits where it is referenced.
#[tactic(auto, unfolding(crate::specs::Field::object_at))]
pub fn object(file: &[u8], at: usize, end: usize) -> Result<usize, Fault>
    ensures { result ≡ object_at file.now at end }
{
    let id = field(2, at, end)?;
    let bits = field(4, id, end)?;
    let next = field(4, bits, end)?;
    if be32(file, bits) / 16 % 2 != 0 {
        return Err(Fault {
            reason: Reason::Referenced,
            place: bits,
        });
    }
    Ok(next)
}

// An object's content stops where the object ends, else Count where it stops.
#[tactic(auto, unfolding(crate::specs::Field::ended_at))]
pub fn ended(at: usize, end: usize) -> Result<usize, Fault>
    ensures { result ≡ ended_at at end }
{
    if at != end {
        return Err(Reason::Count.at(at));
    }
    Ok(at)
}
