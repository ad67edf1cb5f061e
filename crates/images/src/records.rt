// One record more: its bytes, its children, and what it asks of them.
ghost use Rattle.std.specs.Prelude.{◌≡◌, true, List, ℕ, ◌+◌, ◌-◌, ◌≤◌, ◌<◌, length, get_or, map, drop};
ghost use Rattle.grammar.specs.Laid.{laid_out, part_of};
ghost use Rattle.grammar.specs.Layout.{layout_of};
ghost use Rattle.blocks.specs.Inside.{Says};
ghost use Rattle.images.specs.Inner.{tail_part, padded, Worded, text_code, Chain, Open, asks as asked_by, Lands, Checked, dates, age_code, dated_row, Extends, State, Stepped};

use crate::asks::{Text, asks, forward};
use crate::parts::{number, taken};
use crate::roots::Records;
use crate::texts::{is_name, is_number, is_utf8};
use grammar::layout::{Part, Row, layout};
use grammar::tags::Tag;

// Why no record can stand at a place.
#[derive(Clone, Copy, Debug, PartialEq, Eq)]
pub enum Wrong {
    Unknown,
    Malformed,
    Missing,
    Underived,
}

// Of a good record: where it ends, the first record of its tree, how many roots there are then, and the kind of infix records so far.
#[derive(Clone, Copy)]
pub struct Next {
    pub end: usize,
    pub first: usize,
    pub standing: usize,
    pub age: Option<Age>,
}

// The kind of infix records: old ones without the operator's span, new ones.
#[derive(Clone, Copy, Debug, PartialEq, Eq)]
pub enum Age {
    Old,
    New,
}

// Where the payload of a record ends, if it is there.
fn payload_end(bytes: &[u8], at: usize) -> Option<usize>
    requires { at < length bytes.now }
    ensures { Extends bytes.now at result }
{
    let left = bytes.len() - at;
    if left < 3 {
        return None;
    }
    let size = number(bytes, at + 1);
    if left - 3 < size {
        return None;
    }
    Some(at + 3 + size)
}

// The kind of infix records with this one: the first of them decides.
fn aged(tag: u8, size: usize, age: Option<Age>) -> Option<Age>
    ensures { age_code result ≡ dates tag size (age_code age) }
{
    if tag != Tag::INFIX {
        return age;
    }
    age.or(Some(if size == 1 { Age::Old } else { Age::New }))
}

// The parts of a record: an old infix record has the operator alone.
fn parts(tag: u8, row: Row, age: Option<Age>) -> &'static [Part]
    requires { laid_out (Some row) ≡ layout_of tag }
    ensures { padded (map part_of result.now) ≡ drop 1 (dated_row tag (age_code age)) }
{
    if tag == Tag::INFIX && age == Some(Age::Old) {
        &[Part::Below(20)]
    } else {
        row.parts
    }
}

// Whether the text at the end of a payload is of a kind.
fn worded(bytes: &[u8], end: usize, text: Text, size: usize) -> bool
    requires { (size ≤ end) × (end ≤ length bytes.now) }
    ensures { Says (Worded (text_code text) (tail_part size end bytes.now)) result }
{
    let words = &bytes[end - size..end];
    match text {
        Text::Free => true,
        Text::Number => is_number(words),
        Text::Utf8 => is_utf8(words),
        Text::Name => is_name(words),
        Text::Empty => words.is_empty(),
    }
}

// Where the children begin of a record whose bytes and children are there, if some derivation gives such a record.
fn checked(records: Records<'_>, tag: u8, end: usize, v: [usize; 6], from: usize) -> Option<usize>
    requires { ((asked_by tag v).fine ≡ true → Open records.bytes.now records.links.now from ((asked_by tag v).n3 + (asked_by tag v).n2 + (asked_by tag v).n1)) × ((asked_by tag v).size ≤ end) × (end ≤ length records.bytes.now) }
    ensures { ((tags : List ℕ) → Chain records.entry.bytes.now records.entry.links.now from tags → ((asked_by tag v).fine ≡ true → (asked_by tag v).n3 + (asked_by tag v).n2 + (asked_by tag v).n1 ≤ length tags) → Checked records.entry.bytes.now records.entry.links.now tag end v tags result) × Lands records.entry.links.now from ((asked_by tag v).n3 + ((asked_by tag v).n2 + (asked_by tag v).n1)) result }
{
    if !forward(v) {
        return None;
    }
    let asked = asks(tag, v)?;
    if !worded(records.bytes, end, asked.text, asked.size) {
        return None;
    }
    records.fit(from, asked)
}

// The record at a place, after so many records and so many roots.
pub(crate) fn record(
    bytes: &[u8],
    links: &[usize],
    at: usize,
    n: usize,
    standing: usize,
    age: Option<Age>,
) -> Result<Next, Wrong>
    requires { (State bytes.now links.now at n standing (age_code age)) × (at < length bytes.now) }
    ensures { (s : State bytes.now links.now at n standing (age_code age)) → Stepped bytes.now links.now at s.ts result }
{
    let tag = bytes[at];
    let row = layout(tag).ok_or(Wrong::Unknown)?;
    let end = payload_end(bytes, at).ok_or(Wrong::Malformed)?;
    let age = aged(tag, end - at - 3, age);
    let found = taken(bytes, at + 3, end, parts(tag, row, age)).ok_or(Wrong::Malformed)?;
    let children = row.children + found.children;
    if standing < children {
        return Err(Wrong::Missing);
    }
    let records = Records { bytes, links };
    let first = checked(records, tag, end, found.values, n).ok_or(Wrong::Underived)?;
    Ok(Next {
        end,
        first,
        standing: standing - children + 1,
        age,
    })
}
