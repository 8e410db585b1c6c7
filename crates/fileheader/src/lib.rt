// The file header: its first 100 bytes.
#![tactic(auto)]

ghost use Rattle.std.specs.Prelude.{◌≡◌};
ghost use Rattle.wire.specs.Answer.{Gives};
ghost use Rattle.wire.specs.Fault.{fault};
ghost use Rattle.fileheader.specs.File.{is_wide, file_number, file_head, end_fits, opened_as, open_answer};

use wire::fault::{Fault, Reason};
use wire::number::{be_offset, be8, be32, width};

// What the audit needs of a good header.
#[derive(Clone, Copy)]
pub struct FileHead {
    pub wide: bool,
    pub seekfree: u64,
    pub nbytesfree: u32,
    pub nfree: u32,
    pub nbytesname: u32,
    pub seekinfo: u64,
    pub nbytesinfo: u32,
}

// The fields of a header, in the wide form or not.
#[tactic(auto, using(crate::proofs::Opens::placed), unfolding(crate::specs::File::file_head))]
fn read_fields(file: &[u8], wide: bool) -> FileHead
    requires { wide ≡ is_wide file.now }
    ensures { result ≡ file_head file.now }
{
    let w = width(wide);
    let free = 12 + w;
    let after = free + w;
    let info = after + 17;
    FileHead {
        wide,
        seekfree: be_offset(file, free, wide),
        nbytesfree: be32(file, after),
        nfree: be32(file, after + 4),
        nbytesname: be32(file, after + 8),
        seekinfo: be_offset(file, info, wide),
        nbytesinfo: be32(file, info + w),
    }
}

// Whether offsets are wide, as Version says.
fn is_wide(file: &[u8]) -> bool
    ensures { result ≡ is_wide file.now }
{
    1000000 <= be32(file, 4)
}

// END, as the header at the front of some bytes has it, in the width that its Version says; 0 where they end before it.
pub fn end_of(file: &[u8]) -> u64
    ensures { result ≡ file_number file.now 3 }
{
    be_offset(file, 12, is_wide(file))
}

// Whether END is within its limit, which wide files do not have.
#[tactic(auto, unfolding(crate::specs::File::end_fits))]
fn end_fits(wide: bool, end: usize) -> bool
    ensures { result ≡ end_fits wide end }
{
    wide || end <= 1999999999
}

// The header of a whole file, or the first of Short to Bounds that it breaks, at 0.
#[tactic(auto, using(crate::proofs::Opens::tests), unfolding(crate::specs::File::opened_as))]
pub fn open(file: &[u8]) -> Result<FileHead, Fault>
    ensures { Gives open_answer result (opened_as file.now) }
{
    let end = file.len();
    if end < 100 {
        return Err(Reason::Short.at(0));
    }
    if be32(file, 0) != 1919905652 {
        return Err(Reason::Magic.at(0));
    }
    let wide = is_wide(file);
    let w = width(wide);
    if be8(file, w + w + 24) as usize != w {
        return Err(Reason::Wide.at(0));
    }
    if be32(file, 8) != 100 {
        return Err(Reason::Bounds.at(0));
    }
    if be_offset(file, 12, wide) != end as u64 {
        return Err(Reason::Bounds.at(0));
    }
    if !end_fits(wide, end) {
        return Err(Reason::Bounds.at(0));
    }
    Ok(read_fields(file, wide))
}
