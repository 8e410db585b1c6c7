// What a list and an array start with (document 002), and the option after each object of the list (request 05).
ghost use Rattle.std.specs.Prelude.{◌≡◌, ◌+◌, ◌≤◌, IfOk};
ghost use Rattle.infolist.specs.List.{collection_at, array_body_at, whole_list_at, info_list_at, option_at};

use infofield::field::{field, object, open, text, unnamed, zero};
use key::piece::{Piece, read_piece};
use record::{is_info_key, is_unpacked};
use wire::fault::{Fault, Reason};
use wire::number::{be8, be16, be32};

// The objects of a list or an array: its Version, how many there are, where they start, and the end that they stand within.
#[derive(Clone, Copy)]
pub struct Objects {
    pub version: u32,
    pub count: u32,
    pub from: usize,
    pub end: usize,
}

// Version, TObject, no name and nObjects: what every collection starts with, and the place after it.
#[tactic(auto, unfolding(crate::specs::List::collection_at))]
fn read_collection(file: &[u8], at: usize, end: usize) -> Result<Objects, Fault>
    ensures value { result ≡ collection_at file.now at end }
    ensures within { IfOk result (λ n. n.end ≡ end) }
{
    let base = field(2, at, end)?;
    let name = object(file, base, end)?;
    let count_at = unnamed(file, name, end)?;
    let from = field(4, count_at, end)?;
    Ok(Objects {
        version: be16(file, at),
        count: be32(file, count_at),
        from,
        end,
    })
}

// A TObjArray after its tag, up to its objects: its ByteCount, what every collection starts with, and a lower bound of 0; or the first
// fault, Count or Referenced at the field.
#[tactic(auto, unfolding(crate::specs::List::array_body_at))]
pub fn read_array(file: &[u8], at: usize, end: usize) -> Result<Objects, Fault>
    ensures value { result ≡ array_body_at file.now at end }
    ensures within { IfOk result (λ n. n.end ≤ end) }
{
    let body = open(file, at, end)?;
    let objects = read_collection(file, body.from, body.close)?;
    let from = zero(file, objects.from, body.close)?;
    Ok(Objects { from, ..objects })
}

// A list whose ByteCount ends where the data does.
#[tactic(auto, unfolding(crate::specs::List::whole_list_at))]
fn whole_list(file: &[u8], at: usize, end: usize) -> Result<Objects, Fault>
    ensures value { result ≡ whole_list_at file.now at end }
    ensures within { IfOk result (λ n. n.end ≤ end) }
{
    let body = open(file, at, end)?;
    if body.close != end {
        return Err(Reason::Count.at(at));
    }
    read_collection(file, body.from, body.close)
}

// The list that fills the data of the StreamerInfo record at a place; or the refusal of a piece, NotInfo for no such record, Packed for a packed one,
// then the first fault.
#[tactic(auto, using(crate::proofs::Lists::record_bounds), unfolding(crate::specs::List::info_list_at, crate::specs::List::list_of))]
pub fn read_list(file: &[u8], at: usize) -> Result<Objects, Fault>
    ensures value { result ≡ info_list_at file.now at }
    ensures near { IfOk result (λ n. n.end ≤ at + 2147483647) }
{
    let other = Fault {
        reason: Reason::NotInfo,
        place: at,
    };
    let Piece::Record(k) = read_piece(file, at)? else {
        return Err(other);
    };
    if !is_info_key(file, k) {
        return Err(other);
    }
    if !is_unpacked(k) {
        return Err(Fault {
            reason: Reason::Packed,
            place: at,
        });
    }
    whole_list(file, at + k.keylen as usize, at + k.nbytes as usize)
}

// The option after an object of a list of this Version: the place after it, or Count at it. None below 4; in 4 a length byte 0 to 255; from 5
// on a string.
#[tactic(auto, unfolding(crate::specs::List::option_at))]
pub fn read_option(file: &[u8], version: u32, at: usize, end: usize) -> Result<usize, Fault>
    ensures { result ≡ option_at version file.now at end }
{
    if version < 4 {
        return Ok(at);
    }
    if version < 5 {
        return field(1 + be8(file, at) as usize, at, end);
    }
    text(file, at, end)
}
