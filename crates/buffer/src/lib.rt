// Lent buffers: bytes and numbers, stored at the front of a part. Every public function takes any input and has no precondition.
#![tactic(auto)]

ghost use Rattle.std.specs.Prelude.{◌≡◌};
ghost use Rattle.wire.specs.Number.{be_bytes};
ghost use Rattle.buffer.specs.Store.{put_front};

// Copies bytes to the front of a part; where it is shorter than they are it stays as it was. A loop: std's `copy_from_slice` is a call of
// memmove, which the archive for C would then ask for.
#[tactic(auto, using(crate::proofs::Stores::put_out, crate::proofs::Stores::store_began, crate::proofs::Stores::store_turn))]
pub fn copy(part: &mut [u8], from: &[u8])
    ensures { part.new ≡ put_front part.old from.now }
{
    if from.len() <= part.len() {
        for (i, byte) in from.iter().enumerate() {
            part[i] = *byte;
        }
    }
}

// Writes a number as four bytes at the front of a part; where it has fewer it stays as it was.
#[tactic(auto, using(crate::proofs::Stores::four_bytes))]
pub fn put32(part: &mut [u8], v: u32)
    ensures { part.new ≡ put_front part.old (be_bytes 4 v) }
{
    copy(part, &v.to_be_bytes());
}
