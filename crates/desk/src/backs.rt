// An image read back, as the judge asks for it: the line `NUMBER OFFSET RECORDS PARTS COALESCES`.
ghost use Rattle.std.specs.Prelude.{◌≡◌, length};

use crate::is_clear;
use crate::text::Text;

// Anything but zeros, so that what is left untouched is seen.
pub const SMEAR: usize = 0xAAAA;

// `dirty` where the array holds more than two numbers for each record.
fn tell(f: images::Fields, links: &[usize], text: &mut Text)
    ensures { length text.new.room.now ≡ length text.old.room.now }
{
    let records = f.count as usize;
    if links.len() / 2 < records || !is_clear(links, records * 2) {
        text.put("dirty\n");
        return;
    }
    text.put(format_args!("{} {} {} 0 0\n", f.number, f.offset, f.count));
}

// The answer's line for an image.
pub fn answer_into(image: &[u8], links: &mut [usize], text: &mut Text)
    ensures { length text.new.room.now ≡ length text.old.room.now }
{
    links.fill(SMEAR);
    let f = images::numbers(images::back(image, links));
    tell(f, links, text);
}
