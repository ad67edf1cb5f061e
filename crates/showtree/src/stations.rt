// A station's text that is refused, as a sentence with its line. What is wrong with the bytes, the length, a number or the room is told as of a source.
use show::file::File;
use show::page::Page;
use show::refusals::Refusal;
use show::say::character_end;

// Document 02's numbers of a text that is not JSON, and of values that stand too deep.
const NOT_JSON: u64 = 19;

const DEEP: u64 = 11;

// Whether a text that is one's beginning ends within a string.
fn is_in_string(text: &[u8]) -> bool {
    let mut inside = false;
    let mut escaped = false;
    for b in text {
        if escaped {
            escaped = false;
            continue;
        }
        if *b == b'"' {
            inside = !inside;
        }
        escaped = *b == b'\\';
    }
    inside
}

// Whether nothing but white space stands between a comma and a text's end.
fn is_behind_comma(text: &[u8]) -> bool {
    let mut back = text.iter().rev();
    matches!(back.find(|b| **b == b',' || **b > b' '), Some(b','))
}

// What a string does not go on with.
fn string_fault(b: u8) -> &'static [u8] {
    if b < b' ' {
        b"a string has a control character that is not escaped"
    } else {
        b"a string has an escape that JSON has not, or half of a pair"
    }
}

// What no JSON text goes on with.
fn say_not_json(page: &mut Page, text: &[u8], at: usize) {
    let before = text.get(..at).unwrap_or(text);
    let inside = is_in_string(before);
    if text.len() <= at {
        page.say(if inside {
            b"a string's closing \" is missing"
        } else {
            b"the file ends here, and a JSON text does not"
        });
        return;
    }
    if inside {
        page.say(string_fault(text[at]));
        return;
    }
    let end = character_end(text, at);
    page.say(b"a JSON text does not go on with ");
    page.say_text(b"`", &text[at..end]);
    page.say_if(is_behind_comma(before), b" behind a comma");
}

// The sentence, and the line with a caret under the place.
pub fn tell(page: &mut Page, file: File, f: Refusal) {
    if f.number != NOT_JSON && f.number != DEEP {
        f.tell(page, file);
        return;
    }
    let at = f.start as usize;
    file.say_place(page, at);
    if f.number == NOT_JSON {
        say_not_json(page, file.text, at);
    } else {
        page.say(b"values stand more than 200 deep in each other");
    }
    page.say(b".\n");
    page.say_line(file.text, at, at.saturating_add(1));
}
