// TNamed, a TStreamerInfo up to its array, TStreamerElement and the classes over it (document 002).
ghost use Rattle.std.specs.Prelude.{◌≡◌, ◌≤◌, IfOk};
ghost use Rattle.infoelement.specs.Element.{named_at, class_body_at, details_at, base_at, counter_at, own_at, member_at};

use infofield::field::{Body, ended, numbers, object, text, versioned};
use wire::fault::Fault;
use wire::number::be32;

// The place of a name's first length byte, and the place after its TNamed.
#[derive(Clone, Copy)]
pub struct Name {
    pub at: usize,
    pub next: usize,
}

// What a row takes from an element: where its names stand, and two numbers; and the place after it.
#[derive(Clone, Copy)]
pub struct Fields {
    pub name: usize,
    pub typename: usize,
    pub ftype: u32,
    pub length: u32,
    pub next: usize,
}

// A TNamed.
#[tactic(auto, unfolding(crate::specs::Element::named_at))]
fn read_named(file: &[u8], at: usize, end: usize) -> Result<Name, Fault>
    ensures value { result ≡ named_at file.now at end }
    ensures below { IfOk result (λ n. n.at ≤ end) }
{
    let body = versioned(file, at, end)?;
    let name = object(file, body.from, body.close)?;
    let title = text(file, name, body.close)?;
    let stop = text(file, title, body.close)?;
    let next = ended(stop, body.close)?;
    Ok(Name { at: name, next })
}

// A TStreamerInfo after its tag, up to its array: where that starts, and the end of the object; or the first fault.
#[tactic(auto, unfolding(crate::specs::Element::class_body_at))]
pub fn read_class(file: &[u8], at: usize, end: usize) -> Result<Body, Fault>
    ensures value { result ≡ class_body_at file.now at end }
    ensures within { IfOk result (λ b. b.close ≤ end) }
{
    let body = versioned(file, at, end)?;
    let name = read_named(file, body.from, body.close)?;
    let from = numbers(2, name.next, body.close)?;
    Ok(Body { from, ..body })
}

// A TStreamerElement after its name: the numbers and the name of its type.
#[tactic(auto, unfolding(crate::specs::Element::details_at))]
fn details(file: &[u8], name: Name, end: usize) -> Result<Fields, Fault>
    ensures value { result ≡ details_at file.now name end }
    ensures below { IfOk result (λ m. (m.name ≡ name.at) × (m.typename ≤ end)) }
{
    let type_at = name.next;
    let length_at = numbers(2, type_at, end)?;
    let typename = numbers(7, length_at, end)?;
    let stop = text(file, typename, end)?;
    let next = ended(stop, end)?;
    Ok(Fields {
        name: name.at,
        typename,
        ftype: be32(file, type_at),
        length: be32(file, length_at),
        next,
    })
}

// A TStreamerElement.
#[tactic(auto, unfolding(crate::specs::Element::base_at))]
fn base(file: &[u8], at: usize, end: usize) -> Result<Fields, Fault>
    ensures value { result ≡ base_at file.now at end }
    ensures below { IfOk result (λ m. (m.name ≤ end) × (m.typename ≤ end)) }
{
    let body = versioned(file, at, end)?;
    let name = read_named(file, body.from, body.close)?;
    details(file, name, body.close)
}

// fCountVersion, fCountName and fCountClass.
#[tactic(auto, unfolding(crate::specs::Element::counter_at))]
fn counter(file: &[u8], at: usize, end: usize) -> Result<usize, Fault>
    ensures { result ≡ counter_at file.now at end }
{
    let name = numbers(1, at, end)?;
    let class = text(file, name, end)?;
    text(file, class, end)
}

// The data of a kind.
#[tactic(auto, unfolding(crate::specs::Element::own_at))]
fn own(file: &[u8], kind: usize, at: usize, end: usize) -> Result<usize, Fault>
    ensures { result ≡ own_at file.now kind at end }
{
    match kind {
        1 => numbers(1, at, end),
        4 | 7 => counter(file, at, end),
        9 => numbers(2, at, end),
        _ => Ok(at),
    }
}

// An element of any kind after its tag: the places of its name and type name, fType, fArrayLength and the place after; or the first fault.
#[tactic(auto, unfolding(crate::specs::Element::member_at))]
pub fn read_member(file: &[u8], kind: usize, at: usize, end: usize) -> Result<Fields, Fault>
    ensures value { result ≡ member_at file.now kind at end }
    ensures below { IfOk result (λ m. (m.name ≤ end) × (m.typename ≤ end)) }
{
    let body = versioned(file, at, end)?;
    let member = base(file, body.from, body.close)?;
    let stop = own(file, kind, member.next, body.close)?;
    let next = ended(stop, body.close)?;
    Ok(Fields { next, ..member })
}
