// Paths: a variable, `self`, `super` or `$`, and names after it, as `std.map`. A path stands on the line of what it is called or indexed by.
ghost use Rattle.std.specs.Prelude.{◌≤◌, IfSome};

use crate::links::{Record, Tree};
use grammar::tags::Tag;
use show::page::Page;
use show::records::{byte, rest};

// A path has fewer names than this after its first: what is longer has lines of its own, so that none is gone over again and again.
const PARTS: usize = 8;

// So short a name is shown whole.
const SHORT: usize = 40;

// The bases of a path that are no variables.
pub const IDENTITIES: [&str; 3] = ["self", "super", "$"];

// Kept by hand: small letters, which most are, are told first; one `matches!` of all takes 19 instructions a small letter where this takes 8.
fn is_letter(b: u8) -> bool {
    if b >= b'a' {
        return b <= b'z';
    }
    matches!(b, b'A'..=b'Z' | b'0'..=b'9' | b'_')
}

// Whether a text may stand behind a point.
pub fn is_name(text: &[u8]) -> bool {
    !text.is_empty() && text.iter().all(|b| is_letter(*b))
}

// A name. One of letters has nothing that cannot be seen, so it goes out as it is.
pub fn say_letters(page: &mut Page, name: &[u8]) {
    if name.len() <= SHORT && is_name(name) {
        page.say(name);
        return;
    }
    page.say_name(name);
}

impl<'a> Tree<'a> {
    // Whether a record is the index by a name.
    pub fn is_named_part(&self, r: usize) -> bool {
        r >= 2
            && self.tag(r) == Tag::INDEX_PART
            && self.tag(r - 1) == Tag::STRING
            && is_name(self.payload(r - 1))
    }

    // How many names stand after the first in the path that ends with a record, if it is one. A part's name stands before it, and before that what it is
    // a part of.
    fn parts(&self, r: usize) -> Option<usize>
        ensures { IfSome result (λ n. n ≤ 8) }
    {
        let mut c = r;
        for n in 0..PARTS {
            if matches!(self.tag(c), Tag::VARIABLE | Tag::IDENTITY) {
                return Some(n);
            }
            if c < 2 || !self.is_named_part(c) {
                return None;
            }
            c -= 2;
        }
        None
    }

    pub fn is_path(&self, r: usize) -> bool {
        self.parts(r).is_some()
    }

    // Whether a part begins a run, so that what stands before it had parentheses.
    pub fn begins_run(&self, r: usize) -> bool {
        byte(self.payload(r), 4) != 0
    }

    // How many parts of the path between two records begin a run, but for the first.
    fn runs(&self, head: usize, r: usize) -> usize {
        let later = (head..=r).step_by(2).skip(2);
        later.filter(|part| self.begins_run(*part)).count()
    }

    fn say_head(&self, page: &mut Page, head: usize) {
        let p = self.payload(head);
        if self.tag(head) == Tag::IDENTITY {
            page.say_word(&IDENTITIES, byte(p, 0));
            return;
        }
        say_letters(page, rest(p, 4));
    }

    // `.name` or `?.name`, by the part's record.
    pub fn say_part_name(&self, page: &mut Page, r: usize) {
        page.say_if(byte(self.payload(r), 5) != 0, b"?");
        page.say(b".");
        if r > 0 {
            say_letters(page, self.payload(r - 1));
        }
    }

    // The path that ends with a record.
    pub fn say_path(&self, page: &mut Page, r: usize) {
        let Some(parts) = self.parts(r) else {
            return;
        };
        if r < parts * 2 {
            return;
        }
        let head = r - parts * 2;
        page.say_times(b"(", self.runs(head, r));
        self.say_head(page, head);
        for (i, part) in (head..=r).step_by(2).skip(1).enumerate() {
            page.say_if(i > 0 && self.begins_run(part), b")");
            self.say_part_name(page, part);
        }
    }
}
