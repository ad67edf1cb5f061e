// A text as a person reads it: between quotes, line by line, with escapes for what cannot be seen. Its end is never left out: of a long line
// the middle is, and how much that is is said.
ghost use Rattle.std.specs.Prelude.{◌<◌, ◌≤◌, length};

use crate::page::Page;
use crate::say::{Odd, character_end, is_inside, run_end};

// How many characters of a long line are shown before what is left out, and behind it.
const FRONT: usize = 80;

const BACK: usize = 40;

// So few bytes are not left out.
const SPARED: usize = 40;

// How many characters of a name or a lexeme are shown before what is left out, and behind it.
const START: usize = 40;

const END: usize = 20;

// The place so many characters from the start, or the end.
pub fn ahead(text: &[u8], n: usize) -> usize
    ensures { result ≤ length text.now }
{
    let mut i = 0;
    for _ in 0..n {
        if text.len() <= i {
            return i;
        }
        i = character_end(text, i);
    }
    i
}

// The place so many characters from the end, or the start.
pub fn behind(text: &[u8], n: usize) -> usize
    ensures { result ≤ length text.now }
{
    let mut left = n;
    for (i, b) in text.iter().enumerate().rev() {
        if left == 0 {
            return i + 1;
        }
        if !is_inside(*b) {
            left -= 1;
        }
    }
    0
}

// The ends of a text of which the middle is left out.
#[derive(Clone, Copy)]
struct Ends<'a> {
    front: &'a [u8],
    left_out: usize, // how many bytes
    back: &'a [u8],
}

// So many characters of a text's start and of its end, where it has more.
fn shorten(text: &[u8], front: usize, back: usize) -> Option<Ends<'_>> {
    let from = ahead(text, front);
    let to = behind(text, back);
    if to <= from {
        return None;
    }
    Some(Ends {
        front: &text[..from],
        left_out: to - from,
        back: &text[to..],
    })
}

// Whether a byte stands for itself between quotes.
fn is_plain(b: u8) -> bool {
    matches!(b, 0x20..=0x7E) && b != b'"' && b != b'\\'
}

// Where the line that starts at a place ends, its LF included.
pub fn line_end(text: &[u8], from: usize) -> usize
    requires { from < length text.now }
    ensures { (from < result) × (result ≤ length text.now) }
{
    let at = run_end(text, from, |b| b == b'\n');
    if text.len() <= at {
        return text.len();
    }
    at + 1
}

// Whether a text does not end in an LF.
fn is_open(text: &[u8]) -> bool {
    !matches!(text, [.., b'\n'])
}

// How many lines a text has: what stands behind the last LF is one too.
pub fn lines(text: &[u8]) -> usize {
    let feeds = text.iter().filter(|b| **b == b'\n').count();
    if is_open(text) {
        return feeds.saturating_add(1);
    }
    feeds
}

// Whether it has more than one: an LF stands before its last byte.
pub fn has_lines(text: &[u8]) -> bool {
    match text {
        [front @ .., _] => front.contains(&b'\n'),
        [] => false,
    }
}

impl Page {
    // A character that does not stand for itself between quotes.
    fn say_escaped(&mut self, odd: Odd) {
        match odd {
            Odd::Byte(b'"') => self.say(b"\\\""),
            Odd::Byte(b'\\') => self.say(b"\\\\"),
            Odd::Byte(b'\n') => self.say(b"\\n"),
            Odd::Byte(b'\r') => self.say(b"\\r"),
            Odd::Byte(b'\t') => self.say(b"\\t"),
            Odd::Byte(b) => self.say_escape_of(u32::from(b)),
            Odd::Unseen(code) => self.say_escape_of(code),
        }
    }

    // A text whole, between quotes.
    fn quote(&mut self, text: &[u8]) {
        self.say_byte(b'"');
        self.say_each(text, is_plain, |page, odd| page.say_escaped(odd));
        self.say_byte(b'"');
    }

    // A long line between quotes: the middle is left out.
    fn quote_ends(&mut self, line: &[u8]) {
        match shorten(line, FRONT, BACK) {
            Some(ends) if ends.left_out > SPARED => {
                self.quote(ends.front);
                self.say(b" ... ");
                self.say_number(ends.left_out);
                self.say(b" bytes ... ");
                self.quote(ends.back);
            }
            _ => self.quote(line),
        }
    }

    // A line between quotes; of a long one the middle is left out. One that has no more bytes than are shown of a long one is whole.
    pub fn say_quoted(&mut self, line: &[u8]) {
        if line.len() <= FRONT + BACK {
            self.quote(line);
            return;
        }
        self.quote_ends(line);
    }

    // The lines of a text, a line each; the last one tells that no LF follows it.
    pub fn show_lines(&mut self, text: &[u8], depth: usize) {
        for line in text.split_inclusive(|b| *b == b'\n') {
            self.indent(depth);
            self.say_quoted(line);
            self.say_if(is_open(line), b" and no line feed");
            self.say(b"\n");
        }
    }

    // How much is left out, if any.
    fn say_left_out(&mut self, n: usize) {
        if n > 0 {
            self.say(b" (");
            self.say_number(n);
            self.say(b" bytes left out)");
        }
    }

    // What is shown of a name or a lexeme, and how many bytes are not.
    fn say_shortened(&mut self, text: &[u8]) -> usize {
        let Some(ends) = shorten(text, START, END) else {
            self.say_characters(text);
            return 0;
        };
        self.say_characters(ends.front);
        self.say(b"...");
        self.say_characters(ends.back);
        ends.left_out
    }

    // A name; of a long one the middle is left out, and how much that is is said.
    pub fn say_name(&mut self, text: &[u8]) {
        if text.len() <= START + END {
            self.say_characters(text);
            return;
        }
        let n = self.say_shortened(text);
        self.say_left_out(n);
    }

    // A name or a lexeme between marks.
    pub fn say_text(&mut self, mark: &[u8], text: &[u8]) {
        self.say(mark);
        let n = self.say_shortened(text);
        self.say(mark);
        self.say_left_out(n);
    }
}
