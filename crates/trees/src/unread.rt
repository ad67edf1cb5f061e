// Why an image is not shown.
use show::page::Page;

// In words, by document 02's number.
fn why(number: u64) -> &'static [u8] {
    match number {
        13 => b"no record has this tag",
        14 => {
            b"the record's length, a flag or an operator is wrong, or infix records with and without a place are mixed"
        }
        15 => b"children are missing, or more than one tree stands there",
        16 => {
            b"no source gives this record: its text, a span, its children, or that it stands alone"
        }
        _ => b"the image is too long to be shown",
    }
}

// `NAME: byte OFFSET: WHY.`
pub fn tell(page: &mut Page, name: &[u8], number: u64, offset: u64) {
    page.say_characters(name);
    page.say(b": byte ");
    page.say_number(offset as usize);
    page.say(b": ");
    page.say(why(number));
    page.say(b".\n");
}
