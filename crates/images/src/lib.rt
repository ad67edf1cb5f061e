#![tactic(auto)]
// Images read back: whether bytes are one tree's records, and where each record's children are.
ghost use Rattle.std.specs.Prelude.{◌≡◌, ◌≤◌, length, replicate};
ghost use Rattle.images.specs.Images.{needed as needed-for, ReadsBack};
ghost use Rattle.images.specs.Inner.{refusal_at, Whole};

mod asks; // what a record asks of its fields, its text and its children
mod fields; // an answer in 02's numbers
mod parts; // a record's payload by its layout
mod records; // one record more
mod roots; // the row of open roots
mod sorts; // what a record is, by its tag
mod texts; // names, numbers and texts

use crate::records::{Wrong, record};
use crate::sorts::{Sort, is};
pub use fields::{Fields, numbers};
pub use parts::number;

// Why an image is refused, at which record's offset; or that the array is too short. 02's numbers stand beside the cases.
#[derive(Clone, Copy, Debug, PartialEq, Eq)]
pub enum Fault {
    Unknown(usize), // 13: unknown tag
    Malformed(usize), // 14: wrong length, flag or enum byte
    Children(usize), // 15: children missing or left over
    Underived(usize), // 16: a text, a name, a shape, a root or a span that no derivation gives
    Short(usize), // 24: the array is too short; the count of numbers needed
}

// What becomes of an image: accepted, with the number of records (0), or refused.
pub type Answer = Result<usize, Fault>;

// What a refusal leaves in an array that was lent: zeros.
pub fn clear(links: &mut [usize])
    ensures { links.new ≡ replicate (length links.old) 0 }
{
    links.fill(0);
}

fn refused(wrong: Wrong, at: usize) -> Fault
    ensures { result ≡ refusal_at wrong at }
{
    match wrong {
        Wrong::Unknown => Fault::Unknown(at),
        Wrong::Malformed => Fault::Malformed(at),
        Wrong::Missing => Fault::Children(at),
        Wrong::Underived => Fault::Underived(at),
    }
}

// The records one after the other, their links in the array.
fn walk(bytes: &[u8], links: &mut [usize]) -> Answer
    requires { needed-for bytes.now ≤ length links.old }
    ensures { Whole bytes.now (length links.old) result links.new }
{
    let mut at = 0;
    let mut n = 0;
    let mut standing = 0;
    let mut age = None;
    while at < bytes.len() {
        let next = match record(bytes, links, at, n, standing, age) {
            Ok(next) => next,
            Err(wrong) => return Err(refused(wrong, at)),
        };
        links[n * 2] = at;
        links[n * 2 + 1] = next.first;
        n += 1;
        at = next.end;
        standing = next.standing;
        age = next.age;
    }
    if standing != 1 {
        return Err(Fault::Children(at));
    }
    let last = links[n * 2 - 2];
    if !is(bytes[last], Sort::Expression) {
        return Err(Fault::Underived(last));
    }
    Ok(n)
}

// An image read back, and for each of its records, in the lent array, its offset and the number of the first record of its own tree.
pub fn back(bytes: &[u8], links: &mut [usize]) -> Answer
    ensures { ReadsBack bytes.now (length links.old) result links.new }
{
    let needed = bytes.len() / 3 * 2;
    if links.len() < needed {
        clear(links);
        return Err(Fault::Short(needed));
    }
    match walk(bytes, links) {
        Ok(n) => {
            clear(&mut links[n * 2..]);
            Ok(n)
        }
        Err(fault) => {
            clear(links);
            Err(fault)
        }
    }
}
