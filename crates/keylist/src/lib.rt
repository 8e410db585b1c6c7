// Records that the file header or a directory points to, and the header copies in a keys list. Every public function takes any
// input and has no precondition.
#![tactic(auto)]

ghost use Rattle.std.specs.Prelude.{◌≡◌, ◌+◌, ◌≤◌};
ghost use Rattle.wire.specs.Check.{all};
ghost use Rattle.wire.specs.Answer.{Gives};
ghost use Rattle.keylist.specs.Keys.{span, free_fits, list_class, list_fits, list_in, list_answer, free_in, free_answer, info_in, GivesCopy};

use key::header::{Key, read_header};
use key::piece::read_record;
use record::{is_directory, is_file, is_info_key, is_plain, is_plain_record};
use wire::text::Text;

// A record's data: its first byte and the place after it.
#[derive(Clone, Copy)]
pub struct Data {
    pub from: usize,
    pub end: usize,
}

// Whether a class is TFile or TDirectory.
#[tactic(auto, unfolding(crate::specs::Keys::list_class))]
fn holds_keys(file: &[u8], class: Text) -> bool
    ensures { result ≡ list_class file.now class }
{
    is_file(file, class) || is_directory(file, class)
}

// Whether a record is a keys list of this size for the directory at this place.
fn is_list(file: &[u8], k: Key, nbytes: u32, dir: usize) -> bool
    ensures { result ≡ all (list_fits file.now nbytes dir k) }
{
    k.nbytes == nbytes
        && k.seekpdir == dir as u64
        && is_plain_record(k)
        && holds_keys(file, k.class)
}

// Whether a record is a free list of this size.
fn is_free(file: &[u8], k: Key, nbytes: u32) -> bool
    ensures { result ≡ all (free_fits file.now nbytes k) }
{
    k.nbytes == nbytes && is_plain_record(k) && is_file(file, k.class)
}

// The data of the record at a place.
fn data_of(at: usize, k: Key) -> Data
    requires { (at + k.nbytes ≤ 18446744073709551615) × (k.keylen ≤ k.nbytes) }
    ensures { result ≡ span (at + k.keylen) (at + k.nbytes) }
{
    Data {
        from: at + k.keylen as usize,
        end: at + k.nbytes as usize,
    }
}

// The data of the keys list at a place: plain, unpacked, of class TFile or TDirectory, of this size, and its SeekPdir is the directory's
// place; else none: Keys at the list.
#[tactic(auto, unfolding(crate::specs::Keys::list_in, crate::specs::Keys::data_in, key::specs::Piece::record_at, key::specs::Piece::on_record))]
pub fn read_list(file: &[u8], at: usize, nbytes: u32, dir: usize) -> Option<Data>
    ensures { Gives (list_answer at) result (list_in file.now at nbytes dir) }
{
    let k = read_record(file, at)?;
    if is_list(file, k, nbytes, dir) {
        Some(data_of(at, k))
    } else {
        None
    }
}

// The data of the free list at a place: plain, unpacked, of class TFile, of this size; else none: Free at the place.
#[tactic(auto, unfolding(crate::specs::Keys::free_in, crate::specs::Keys::data_in, key::specs::Piece::record_at, key::specs::Piece::on_record))]
pub fn read_free(file: &[u8], at: usize, nbytes: u32) -> Option<Data>
    ensures { Gives (free_answer at) result (free_in file.now at nbytes) }
{
    let k = read_record(file, at)?;
    if is_free(file, k, nbytes) {
        Some(data_of(at, k))
    } else {
        None
    }
}

// Whether the record at a place is the info record: plain, of class TList, named StreamerInfo, of this size.
#[tactic(auto, unfolding(crate::specs::Keys::info_in, key::specs::Piece::record_at, key::specs::Piece::on_record))]
pub fn is_info(file: &[u8], at: usize, nbytes: u32) -> bool
    ensures { result ≡ info_in file.now at nbytes }
{
    match read_record(file, at) {
        Some(k) => k.nbytes == nbytes && is_info_key(file, k),
        None => false,
    }
}

// The header copy at a place of a list, read within the list's end: well formed and plain; else none: Keys at the list.
#[tactic(auto, unfolding(crate::specs::Keys::copy_in))]
pub fn read_copy(file: &[u8], at: usize, end: usize) -> Option<Key>
    ensures { GivesCopy file.now at end result }
{
    read_header(file, at, end).filter(|k| is_plain(*k))
}
