// Refusals: why something is refused, and where.
ghost use Rattle.std.specs.Prelude.{◌≡◌};
ghost use Rattle.wire.specs.Fault.{fault, number_of, needed_of};

// Why a file, a record or a request is refused: a variant for each number of the C interface.
#[derive(Clone, Copy, Debug)]
pub enum Reason {
    Short,
    Magic,
    Wide,
    Bounds,
    Chain,
    Key,
    // How many pieces there are.
    Unfinished(u64),
    Head,
    Free,
    Info,
    Directory,
    Keys,
    Entry,
    Twice,
    Name,
    Field,
    Room,
    Date,
    Packed,
    NotInfo,
    Count,
    Tag,
    Referenced,
    // How many rows are needed.
    Rows(u64),
    Salvage,
    Block,
    BlockNumber,
    BlockCheck,
    Padding,
}

impl Reason {
    // The refusal for this reason at a place.
    pub fn at(self, place: usize) -> Fault
        ensures { result ≡ fault self place }
    {
        Fault {
            reason: self,
            place,
        }
    }

    // The number that it has in the C interface.
    pub fn number(self) -> u64
        ensures { result ≡ number_of self }
    {
        match self {
            Reason::Short => 1,
            Reason::Magic => 2,
            Reason::Wide => 3,
            Reason::Bounds => 4,
            Reason::Chain => 5,
            Reason::Key => 6,
            Reason::Unfinished(_) => 7,
            Reason::Head => 8,
            Reason::Free => 9,
            Reason::Info => 10,
            Reason::Directory => 11,
            Reason::Keys => 12,
            Reason::Entry => 13,
            Reason::Twice => 14,
            Reason::Name => 15,
            Reason::Field => 16,
            Reason::Room => 17,
            Reason::Date => 18,
            Reason::Packed => 19,
            Reason::NotInfo => 20,
            Reason::Count => 21,
            Reason::Tag => 22,
            Reason::Referenced => 23,
            Reason::Rows(_) => 24,
            Reason::Salvage => 27,
            Reason::Block => 28,
            Reason::BlockNumber => 29,
            Reason::BlockCheck => 30,
            Reason::Padding => 31,
        }
    }

    // How much room is needed, where that is why; else 0.
    pub fn needed(self) -> u64
        ensures { result ≡ needed_of self }
    {
        match self {
            Reason::Unfinished(pieces) => pieces,
            Reason::Rows(rows) => rows,
            _ => 0,
        }
    }
}

// A refusal: why, and the place.
#[derive(Clone, Copy, Debug)]
pub struct Fault {
    pub reason: Reason,
    pub place: usize,
}
