// The first place of a byte.
ghost use Rattle.std.specs.Prelude.{◌≡◌};
ghost use Rattle.classname.specs.Find.{first_in};

// The first place of a byte; none for a number above 255.
#[tactic(auto, unfolding(crate::specs::Find::first_in))]
pub fn first_byte(s: &[u8], byte: u32) -> Option<usize>
    ensures { result ≡ first_in s.now byte }
{
    s.iter().position(|b| *b as u32 == byte)
}
