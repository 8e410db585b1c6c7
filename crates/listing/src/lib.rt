// What the list program does with its input.
#![tactic(auto)]

ghost use Rattle.std.specs.Prelude.{◌≡◌, ◌≤◌, length, replicate, take, IfOk, IfSome, OnOk};
ghost use Rattle.std.specs.Io.KnownBytes.{Appends};
ghost use Rattle.wire.specs.Fault.{answer_of};
ghost use Rattle.listing.specs.Listing.{input_room, text_room, listing_of, Lists};

use audit::audit;
use report::{write_report, write_text};
use std::io;
use std::io::{Read, Write};
use wire::Answer;
use wire::fault::Fault;

// The bytes that are taken.
const LIMIT: usize = 32768;

// Zeros for the input: one more than the 32,768 bytes that are taken.
pub fn input_buffer() -> [u8; 32769]
    ensures { result ≡ replicate input_room 0 }
{
    [0; 32769]
}

// 73,800 zeros, which hold every text.
pub fn text_buffer() -> [u8; 73800]
    ensures { result ≡ replicate text_room 0 }
{
    [0; 73800]
}

// Writes the list of a file's pieces, audited with tables of 1,024 rows, or that the input is too long, at the front of a buffer, and
// counts its bytes. Room, and nothing is written, where the buffer cannot hold it.
pub fn list(file: &[u8], out: &mut [u8]) -> Result<usize, Fault>
    ensures { Lists file.now out.old out.new (answer_of result) }
{
    if LIMIT < file.len() {
        return write_text(b"input too long\n", out);
    }
    let mut start = [0u64; 1024];
    let mut part = [0u64; 1024];
    let mut owner = [0u64; 1024];
    let verdict = audit(file, &mut start, &mut part, &mut owner);
    let told = Answer::from(verdict);
    write_report(told, &start, &part, &owner, file.len(), out)
}

// Reads until a buffer is full or no byte is left: how many bytes came. Each read tells its own step.
fn fill<R: Read>(input: &mut R, buffer: &mut [u8]) -> io::Result<usize>
    ensures within { IfOk result (λ n. n ≤ length buffer.new) }
    ensures bytes { IfOk result (λ n. IfSome (R.remaining input.old)
        (λ s. take n buffer.new ≡ take (length buffer.new) s)) }
{
    let mut n = 0;
    while n < buffer.len() {
        let read = input.read(&mut buffer[n..])?;
        if read == 0 {
            break;
        }
        n += read;
    }
    Ok(n)
}

// The list program: reads a file to its end, and writes the list of its pieces.
pub fn run<R: Read, W: Write>(input: &mut R, output: &mut W) -> io::Result<()>
    ensures { OnOk result (IfSome (R.remaining input.old)
        (λ s. Appends (W.contents output.old) (W.contents output.new) (listing_of s))) }
{
    let mut file = input_buffer();
    let n = fill(input, &mut file)?;
    let mut text = text_buffer();
    let count = list(&file[..n], &mut text).unwrap();
    output.write_all(&text[..count])
}
