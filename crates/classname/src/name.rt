// The class that a name has: by its length, then by the byte at index 9, then by all of it.
ghost use Rattle.std.specs.Prelude.{◌≡◌, ◌≤◌};
ghost use Rattle.classname.specs.Name.{class_of};
ghost use Rattle.classname.specs.Length.{Decides, Counted};

use crate::find::first_byte;
use wire::number::be8;
use wire::text::same;

// The names. TStreamerSTL and TStreamerObject have no bytes of their own: longer names begin with them. A table that does not fit
// the names of specs/Name.antt is not proved.
const NAMES: [u8; 160] = *b"TObjArray\
    TStreamerInfo\
    TStreamerBase\
    TStreamerLoop\
    TStreamerString\
    TStreamerBasicType\
    TStreamerObjectAny\
    TStreamerSTLString\
    TStreamerBasicPointer\
    TStreamerObjectPointer";

// Where in NAMES the name of class 0, 1 and so on begins.
const STARTS: [u8; 12] = [9, 0, 22, 63, 48, 117, 81, 138, 35, 81, 99, 99];

// The length of the shortest name.
const SHORTEST: usize = 9;

// The length of the longest name.
const LONGEST: usize = 22;

// How many names have less than 9, 10 and so on to 23 bytes.
const SHORTER: [u8; 15] = [0, 1, 1, 1, 2, 5, 5, 7, 7, 7, 10, 10, 10, 11, 12];

// The classes, those with shorter names first.
const CLASSES: [u8; 12] = [1, 10, 0, 2, 8, 4, 6, 3, 9, 11, 5, 7];

// The byte at index 9 of their names, which differs where the length is the same; 0 past a name's end.
const BYTES: [u8; 12] = *b"\0SIBLSOBOSBO";

// The rows of CLASSES and BYTES whose names have one length.
struct Rows {
    first: usize,
    end: usize,
}

// The rows of the names of a length.
fn rows_of(len: usize) -> Rows
    requires { (9 ≤ len) × (len ≤ 22) }
    ensures { Counted len result.first result.end }
{
    // Two uses of a constant would build it twice.
    let shorter = SHORTER;
    let past = len - SHORTEST;
    Rows {
        first: be8(&shorter, past) as usize,
        end: be8(&shorter, past + 1) as usize,
    }
}

// The class that a length and the byte at index 9 leave.
fn candidate(len: usize, byte: u32) -> Option<usize>
    ensures { Decides len byte result }
{
    if len < SHORTEST || LONGEST < len {
        return None;
    }
    let Rows { first, end } = rows_of(len);
    let i = first_byte(&BYTES[first..end], byte)?;
    Some(be8(&CLASSES, first + i) as usize)
}

// The class that a byte string names, if there is one.
pub fn class_of(name: &[u8]) -> Option<usize>
    ensures { result ≡ class_of name.now }
{
    let class = candidate(name.len(), be8(name, 9))?;
    let from = be8(&STARTS, class) as usize;
    let end = from + name.len();
    if same(name, &NAMES[from..end]) {
        return Some(class);
    }
    None
}
