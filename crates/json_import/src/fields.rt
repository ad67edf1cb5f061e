// An answer in the numbers of documents 01 and 02.
ghost use Rattle.std.specs.Prelude.{◌≡◌, length};
ghost use Rattle.json_import.specs.Importer.{numbers as numbers02, refusal as refusal02, tree_of as tree02, answered, five as five02};

use crate::{Importing, Unread};
use grammar::numbers::Number;

// 02's new number: the text is no JSON.
const NOT_JSON: u8 = 19;

// What a case does not use is 0.
#[derive(Drop)]
pub struct Fields {
    pub number: u64,
    pub start: u64,
    pub end: u64,
    pub detail: u64,
    pub length: u64,
}

fn refusal(number: u8, start: usize, end: usize) -> Fields
    ensures { answered result ≡ refusal02 number start end }
{
    Fields {
        number: number as u64,
        start: start as u64,
        end: end as u64,
        detail: 0,
        length: 0,
    }
}

// A tree that is there: written, or without room.
fn tree(number: u8, length: usize) -> Fields
    ensures { answered result ≡ tree02 number length }
{
    Fields {
        number: number as u64,
        start: 0,
        end: 0,
        detail: 0,
        length: length as u64,
    }
}

#[tactic(auto, unfolding(crate::specs::Importer::numbers))]
pub fn numbers(r: Importing) -> Fields
    ensures { answered result ≡ numbers02 r }
{
    match r {
        Ok(n) => tree(Number::TREE, n),
        Err(Unread::Long) => refusal(Number::LONG, 0, 0),
        Err(Unread::Encoding(n)) => refusal(Number::ENCODING, n, n),
        Err(Unread::NotJson(n)) => refusal(NOT_JSON, n, n),
        Err(Unread::Depth(n)) => refusal(Number::DEPTH, n, n),
        Err(Unread::Room(n)) => tree(Number::ROOM, n),
        Err(Unread::Large(a, e)) => refusal(Number::LARGE, a, e),
    }
}

// The same as a list, as C and lists of answers have it.
pub fn five(r: Importing) -> [u64; 5]
    ensures { (length result ≡ 5) × (five02 result ≡ numbers02 r) }
{
    let f = numbers(r);
    [f.number, f.start, f.end, f.detail, f.length]
}
