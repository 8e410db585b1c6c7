// Words and numbers, written into a buffer at a place that has room for them.
ghost use Rattle.std.specs.Prelude.{[], ◌∷◌, ◌++◌};
ghost use Rattle.report.specs.Put.{Room, Put};
ghost use Rattle.report.specs.Report.{decimal};

// Writes a text at a place: the place after it.
#[tactic(auto, using(crate::proofs::Puts::put_part))]
pub(crate) fn put_text(out: &mut [u8], at: usize, text: &[u8]) -> usize
    requires { Room out.old at text.now }
    ensures { Put out.old at text.now out.new result }
{
    let end = at + text.len();
    out[at..end].copy_from_slice(text);
    end
}

// Writes a number in decimal.
fn put_number(out: &mut [u8], at: usize, v: u64) -> usize
    requires { Room out.old at (decimal v) }
    ensures { Put out.old at (decimal v) out.new result }
{
    if v < 10 {
        out[at] = b'0' + v as u8;
        return at + 1;
    }
    let last = put_number(out, at, v / 10);
    out[last] = b'0' + (v % 10) as u8;
    last + 1
}

// Writes a number in decimal and the byte after it.
pub(crate) fn put_field(out: &mut [u8], at: usize, v: u64, stop: u8) -> usize
    requires { Room out.old at (decimal v ++ stop ∷ []) }
    ensures { Put out.old at (decimal v ++ stop ∷ []) out.new result }
{
    let last = put_number(out, at, v);
    out[last] = stop;
    last + 1
}
