// A bad escape of a string, told from its backslash on: what is wrong with it, and what stands there.
use crate::page::Page;
use crate::say::character_end;

// Where the hex digits end that stand after the letter, at most four.
fn digits_end(escape: &[u8]) -> usize {
    let digits = escape.iter().skip(2).take(4);
    2 + digits.take_while(|b| b.is_ascii_hexdigit()).count()
}

// How much of it is shown: its digits, or its letter.
fn shown_end(escape: &[u8], digits: usize) -> usize {
    match escape {
        [_, b'x' | b'u', ..] => digits,
        [_, _, ..] => character_end(escape, 1),
        _ => escape.len(),
    }
}

impl Page {
    // Four digits are bad where they spell a half: from D800 to DBFF it is the high one.
    fn say_half(&mut self, escape: &[u8]) {
        match escape.get(3) {
            Some(b'C'..=b'F' | b'c'..=b'f') => {
                self.say(b"the low half of a surrogate pair stands alone")
            }
            _ => self.say(b"the high half of a surrogate pair has no low half after it"),
        }
    }

    fn say_wrong(&mut self, escape: &[u8], digits: usize) {
        match escape.get(1) {
            Some(b'x') => self.say(b"an escape \\x has fewer than two hex digits"),
            Some(b'u') if digits < 6 => self.say(b"an escape \\u has fewer than four hex digits"),
            Some(b'u') => self.say_half(escape),
            _ => self.say(b"a string has an escape with an unknown letter"),
        }
    }

    pub fn say_escape(&mut self, escape: &[u8]) {
        let digits = digits_end(escape);
        self.say_wrong(escape, digits);
        if let Some(shown) = escape.get(..shown_end(escape, digits)) {
            self.say(b"; ");
            self.say_text(b"`", shown);
            self.say(b" stands there");
        }
    }
}
