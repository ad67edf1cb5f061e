// The planner's list, as the judge asks for it: the line `NUMBER OFFSET COUNT LIST`, with four numbers for each listing.
ghost use Rattle.std.specs.Prelude.{◌≡◌, length};

use crate::backs::SMEAR;
use crate::is_clear;
use crate::text::Text;

// The listings of a list: none after a refusal.
fn listings<'a>(f: &images::Fields, list: &'a [usize]) -> &'a [usize] {
    let count = if f.number == 0 { f.count as usize } else { 0 };
    &list[..list.len().min(count.saturating_mul(4))]
}

// `dirty` where the list holds more than its listings, or the array anything.
fn tell(f: images::Fields, links: &[usize], list: &[usize], text: &mut Text)
    ensures { length text.new.room.now ≡ length text.old.room.now }
{
    let listings = listings(&f, list);
    if !is_clear(links, 0) || !is_clear(list, listings.len()) {
        text.put("dirty\n");
        return;
    }
    text.put(format_args!("{} {} {} ", f.number, f.offset, f.count));
    text.put_list(listings);
    text.put("\n");
}

// The answer's line for an image.
pub fn answer_into(image: &[u8], links: &mut [usize], list: &mut [usize], text: &mut Text)
    ensures { length text.new.room.now ≡ length text.old.room.now }
{
    links.fill(SMEAR);
    list.fill(SMEAR);
    let f = mass::numbers(mass::list(image, links, list));
    tell(f, links, list, text);
}
