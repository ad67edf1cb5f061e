#![tactic(auto)]
// The planner's list: the objects of an image that raise mass without depth, or depth without mass, or of which that is undecided.
ghost use Rattle.std.specs.Prelude.{◌≡◌, ◌≤◌, length, replicate};
ghost use Rattle.images.specs.Images.{needed};
ghost use Rattle.mass.specs.Mass.{MassDepth};
ghost use Rattle.mass.specs.declared.Fault.TheVariants.{Image};
ghost use Rattle.mass.specs.Inner.{SomeGiven, Fills, kind_code, Stores};

mod fields; // an answer in 02's numbers
mod members; // what an object's own fields raise

use crate::members::{Listed, listing};
pub use fields::numbers;
use images::clear;

// Why there is no list. 02's numbers stand beside the cases; an image's are 13 to 16 and 24.
#[derive(Clone, Copy, Debug, PartialEq, Eq)]
pub enum Fault {
    Image(images::Fault), // the image is refused, or the array is too short
    ListShort(usize), // 21: the list is too short; the count of listings
}

impl From<images::Fault> for Fault {
    ghost from_gives = { λ f r. r ≡ Image f };

    fn from(fault: images::Fault) -> Fault {
        Fault::Image(fault)
    }
}

// What becomes of an image: the count of listings (0), or why there is no list.
pub type Answer = Result<usize, Fault>;

// One listing behind so many others, if it has room.
fn store(list: &mut [usize], count: usize, at: usize, found: Listed)
    ensures { Stores list.old count at (kind_code found.kind) found.start found.end list.new }
{
    if count >= list.len() / 4 {
        return;
    }
    let i = count * 4;
    list[i] = at;
    list[i + 1] = found.kind.number();
    list[i + 2] = found.start;
    list[i + 3] = found.end;
}

// The listings of n records, in their order, and how many there are; those that have no room are counted all the same.
fn fill(bytes: &[u8], links: &[usize], n: usize, list: &mut [usize]) -> usize
    requires { SomeGiven bytes.now links.now n × (list.old ≡ replicate (length list.old) 0) }
    ensures { Fills bytes.now links.now n (length list.old) result list.new }
{
    let mut count = 0;
    for i in 0..n {
        let Some(found) = listing(bytes, links, i) else {
            continue;
        };
        store(list, count, links[i * 2], found);
        count += 1;
    }
    count
}

fn listed(bytes: &[u8], links: &mut [usize], n: usize, list: &mut [usize]) -> Answer
    requires { (needed bytes.now ≤ length links.old) × SomeGiven bytes.now links.old n × (list.old ≡ replicate (length list.old) 0) }
    ensures { MassDepth bytes.now (length links.old) (length list.old) result links.new list.new }
{
    let count = fill(bytes, links, n, list);
    clear(links);
    if list.len() / 4 < count {
        clear(list);
        return Err(Fault::ListShort(count));
    }
    Ok(count)
}

// Each object of an image that raises mass without depth, or depth without mass, or of which that is undecided: four numbers in the lent list. The
// lent array, of which `images::back` says how long it must be, is for working only.
pub fn list(bytes: &[u8], links: &mut [usize], listings: &mut [usize]) -> Answer
    ensures { MassDepth bytes.now (length links.old) (length listings.old) result links.new listings.new }
{
    clear(listings);
    let n = images::back(bytes, links)?;
    listed(bytes, links, n, listings)
}
