// Numbers and strings, written at the front of a part of a buffer.
ghost use Rattle.std.specs.Prelude.{◌≡◌, ◌≤◌, length};
ghost use Rattle.wire.specs.Number.{be_bytes};
ghost use Rattle.wire.specs.Patch.{patch};
ghost use Rattle.wire.specs.Text.{prefix_bytes, prefix_size, text_size, text_bytes};
ghost use Rattle.writer.specs.Sized.{sized_extent, sized_bytes};

use buffer::copy;
use wire::text::{LEAST_LONG, LONG_PREFIX};

// Writes a number as w bytes at the front of a part.
#[tactic(auto, using(crate::proofs::Stores::store_turn, crate::proofs::Stores::store_ended))]
fn put_number(part: &mut [u8], v: u64, w: usize)
    requires { w ≤ length part.old }
    ensures { part.new ≡ patch part.old 0 (be_bytes w v) }
{
    let mut rest = v;
    for i in (0..w).rev() {
        part[i] = (rest % 256) as u8;
        rest /= 256;
    }
}

// Writes numbers, each after its width, one after the other at the front of a part.
#[tactic(auto, using(crate::proofs::Stores::lay_began, crate::proofs::Stores::lay_ended))]
pub(crate) fn put_values(part: &mut [u8], numbers: &[(usize, u64)])
    requires { sized_extent numbers.now ≤ length part.old }
    ensures { part.new ≡ patch part.old 0 (sized_bytes numbers.now) }
{
    let mut at: usize = 0;
    for &(w, v) in numbers {
        put_number(&mut part[at..], v, w);
        at += w;
    }
}

// Writes the length of a string, in the form that it takes, at the front of a part, and answers the bytes that it takes.
#[tactic(auto, using(wire::proofs::Texts::short_size, wire::proofs::Texts::long_size, wire::proofs::Texts::short_form, wire::proofs::Texts::long_form))]
fn put_length(part: &mut [u8], len: usize) -> usize
    requires { prefix_size len ≤ length part.old }
    ensures { (result ≡ prefix_size len) × (part.new ≡ patch part.old 0 (prefix_bytes len)) }
{
    if len < LEAST_LONG {
        put_values(part, &[(1, len as u64)]);
        return 1;
    }
    put_values(part, &[(1, LEAST_LONG as u64), (4, len as u64)]);
    LONG_PREFIX
}

// Writes a string with its length at the front of a part, and answers the bytes that it takes.
#[tactic(auto, using(crate::proofs::Stores::text_whole), unfolding(wire::specs::Text::text_size))]
pub(crate) fn put_text(part: &mut [u8], t: &[u8]) -> usize
    requires { text_size (length t.now) ≤ length part.old }
    ensures { (result ≡ text_size (length t.now)) × (part.new ≡ patch part.old 0 (text_bytes t.now)) }
{
    let prefix = put_length(&mut *part, t.len());
    copy(&mut part[prefix..], t);
    prefix + t.len()
}
