// Class tags (document 002, ClassInfo).
ghost use Rattle.std.specs.Prelude.{◌≡◌, ◌≤◌, IfOk};
ghost use Rattle.wire.specs.Check.{all};
ghost use Rattle.classname.specs.Find.{first_in};
ghost use Rattle.infotag.specs.Tag.{allowed, misplaced, class_name_at, new_tag, old_tag, tag_at, head_at};

use classname::find::first_byte;
use classname::name::class_of;
use infofield::field::{field, offset, open};
use wire::fault::{Fault, Reason};
use wire::number::be32;

// The classes that an object may have: those from one number to another.
#[derive(Clone, Copy)]
pub struct Classes {
    pub low: usize,
    pub high: usize,
}

impl Classes {
    // Whether a class is one of them.
    fn allow(self, class: usize) -> bool
        ensures { result ≡ all (allowed self class) }
    {
        self.low <= class && class <= self.high
    }
}

// The number after the last, which no class has: `head_at` promises of every pair of bounds what it says of this number too.
const NONE: usize = 12;

// A name ended by zero: the class that it names, 12 where it names none, and the place after the zero.
#[derive(Clone, Copy)]
struct ClassName {
    class: usize,
    next: usize,
}

// A tag: its class, the offset of the class's new tag in the record, and the place after it.
#[derive(Clone, Copy)]
struct Tag {
    class: usize,
    offset: usize,
    next: usize,
}

// What an object starts with: its class, the offset of the class's new tag, the place after its tag, and its end.
#[derive(Clone, Copy)]
pub struct Start {
    pub class: usize,
    pub offset: usize,
    pub next: usize,
    pub close: usize,
}

// The class that is named from a place on, within the innermost open end.
fn class_at(file: &[u8], from: usize, end: usize) -> Option<ClassName>
    ensures { result ≡ class_name_at file.now from end }
{
    let stop = end.min(file.len());
    if stop < from {
        return None;
    }
    let last = from + first_byte(&file[from..stop], 0)?;
    Some(ClassName {
        class: class_of(&file[from..last]).unwrap_or(NONE),
        next: last + 1,
    })
}

// A new tag, of this name.
#[tactic(auto, unfolding(crate::specs::Tag::new_tag), using(crate::proofs::Tags::not_allowed, crate::proofs::Tags::repeated, crate::proofs::Tags::is_fresh, crate::proofs::Tags::allowed_high))]
fn new_tag(
    name: ClassName,
    rec: usize,
    at: usize,
    classes: Classes,
    tags: &[usize],
) -> Result<Tag, Fault>
    ensures value { result ≡ new_tag name rec at classes tags.now }
    ensures high { IfOk result (λ t. t.class ≤ classes.high) }
{
    let class = name.class;
    let seen = tags.get(class).copied().unwrap_or(0);
    if !classes.allow(class) || seen != 0 {
        return Err(Reason::Tag.at(at));
    }
    Ok(Tag {
        class,
        offset: offset(rec, at),
        next: name.next,
    })
}

// The class whose new tag stands at an offset. Not one function with `first_byte`, which takes numbers above 255.
#[tactic(auto, unfolding(classname::specs::Find::first_in))]
fn first_offset(tags: &[usize], offset: usize) -> Option<usize>
    ensures { result ≡ first_in tags.now offset }
{
    tags.iter().position(|t| *t == offset)
}

// A number that refers to an earlier tag.
#[tactic(auto, unfolding(crate::specs::Tag::old_tag), using(crate::proofs::Tags::allowed_high))]
fn old_tag(v: u32, at: usize, next: usize, classes: Classes, tags: &[usize]) -> Result<Tag, Fault>
    ensures value { result ≡ old_tag v at next classes tags.now }
    ensures high { IfOk result (λ t. t.class ≤ classes.high) }
{
    if v <= 2147483650 {
        return Err(Reason::Tag.at(at));
    }
    let there = (v - 2147483650) as usize;
    let class = first_offset(tags, there).ok_or(Reason::Tag.at(at))?;
    if !classes.allow(class) {
        return Err(Reason::Tag.at(at));
    }
    Ok(Tag {
        class,
        offset: there,
        next,
    })
}

// The tag at a place, of one of the classes.
#[tactic(auto, unfolding(crate::specs::Tag::tag_at))]
fn read_tag(
    file: &[u8],
    rec: usize,
    at: usize,
    end: usize,
    classes: Classes,
    tags: &[usize],
) -> Result<Tag, Fault>
    ensures value { result ≡ tag_at file.now rec at end classes tags.now }
    ensures high { IfOk result (λ t. t.class ≤ classes.high) }
{
    let next = field(4, at, end)?;
    let v = be32(file, at);
    if v != 4294967295 {
        return old_tag(v, at, next, classes, tags);
    }
    let name = class_at(file, next, end).ok_or(Reason::Count.at(at))?;
    new_tag(name, rec, at, classes, tags)
}

// The ByteCount and the tag of an object of one of the classes: its class, where the class's new tag stands, the place after and the
// end; or Count at the ByteCount or a tag that is cut, Tag at the tag of an unknown, repeated or misplaced class.
#[tactic(auto, unfolding(crate::specs::Tag::head_at))]
pub fn read_head(
    file: &[u8],
    rec: usize,
    at: usize,
    end: usize,
    classes: Classes,
    tags: &[usize],
) -> Result<Start, Fault>
    ensures value { result ≡ head_at file.now rec at end classes tags.now }
    ensures high { IfOk result (λ h. h.class ≤ classes.high) }
    ensures within { IfOk result (λ h. h.close ≤ end) }
{
    let body = open(file, at, end)?;
    let tag = read_tag(file, rec, body.from, body.close, classes, tags)?;
    Ok(Start {
        class: tag.class,
        offset: tag.offset,
        next: tag.next,
        close: body.close,
    })
}
