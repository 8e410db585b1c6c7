// What records are made of: big-endian numbers and counted strings. Every public function takes any input and has
// no precondition.
#![tactic(auto)]

ghost use Rattle.std.specs.Prelude.{◌≡◌};
ghost use Rattle.wire.specs.Fault.{answer_of};

use fault::Fault;

pub mod fault;
pub mod number;
pub mod text;

// A function's answer: a refusal's number or 0, its place, and a count.
#[derive(Clone, Copy)]
pub struct Answer {
    pub number: u64,
    pub place: u64,
    pub count: u64,
}

// What C is told of a count or a refusal.
impl From<Result<usize, Fault>> for Answer {
    ghost from_gives = { λ r a. a ≡ answer_of r };

    fn from(r: Result<usize, Fault>) -> Answer {
        match r {
            Ok(count) => Answer {
                number: 0,
                place: 0,
                count: count as u64,
            },
            Err(f) => Answer {
                number: f.reason.number(),
                place: f.place as u64,
                count: f.reason.needed(),
            },
        }
    }
}
