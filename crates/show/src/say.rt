// What is written: words, numbers, and characters as a person reads them.
ghost use Rattle.std.specs.Prelude.{◌<◌, ◌≤◌, length};

use crate::page::Page;
use crate::short::Short;
use crate::unseen::unseen_code;
use std::io::AsBytes;

// How deep lines are indented; beyond that a line begins with its depth.
const INDENTED: usize = 24;

// The blanks before the deepest line that is indented.
static BLANKS: [u8; 48] = [b' '; 48];

// Where a run of bytes ends that begins at a place: at the first for which `stops` holds, or at the text's end.
pub fn run_end<F: Fn(u8) -> bool>(text: &[u8], from: usize, stops: F) -> usize
    requires within { from ≤ length text.now }
    requires callable { F.IsAlwaysCallable stops }
    ensures { (from ≤ result) × (result ≤ length text.now) }
{
    match text[from..].iter().position(|b| stops(*b)) {
        Some(n) => from + n,
        None => text.len(),
    }
}

// The first bytes of a text, as many as it has.
pub fn front(text: &[u8], n: usize) -> &[u8] {
    text.get(..n).unwrap_or(text)
}

// Whether a byte stands inside a character and not at its start.
pub fn is_inside(b: u8) -> bool {
    b / 64 == 2
}

// How many bytes a character has, by its first.
fn width(first: u8) -> usize
    ensures { 0 < result }
{
    match first {
        0xC0..=0xDF => 2,
        0xE0..=0xEF => 3,
        0xF0..=0xFF => 4,
        _ => 1,
    }
}

// Where the character that starts at a place ends.
pub fn character_end(text: &[u8], at: usize) -> usize
    requires { at < length text.now }
    ensures { (at < result) × (result ≤ length text.now) }
{
    let width = width(text[at]);
    if text.len() - at < width {
        return text.len();
    }
    at + width
}

// How many columns a character takes: one, or those of `<U+00a0>` and `<U+e0001>`.
fn column_count(character: &[u8]) -> usize
    ensures { result ≤ 9 }
{
    match unseen_code(character) {
        Some(code) if code > 0xFFFF => 9,
        Some(_) => 8,
        None => 1,
    }
}

// How many columns a text takes where it is shown character by character.
pub fn columns(text: &[u8]) -> usize {
    let mut n = 0usize;
    let mut i = 0;
    while i < text.len() {
        let end = character_end(text, i);
        n = n.saturating_add(column_count(&text[i..end]));
        i = end;
    }
    n
}

// A character that is not shown as it is.
#[derive(Clone, Copy)]
pub(crate) enum Odd {
    Byte(u8), // one below 128
    Unseen(u32), // the code point of another that cannot be seen
}

impl Odd {
    fn of(character: &[u8]) -> Option<Self> {
        match character {
            [b @ 0..=0x7F] => Some(Odd::Byte(*b)),
            _ => unseen_code(character).map(Odd::Unseen),
        }
    }
}

impl Page {
    // The digits of a number.
    pub fn say_number(&mut self, n: usize) {
        let mut text = Short::new();
        text.put_number(n);
        self.say(text.as_slice());
    }

    // `, 1 thing` or `, 2 things`, of the word for several.
    pub fn say_count(&mut self, n: usize, things: &[u8]) {
        let mut text = Short::new();
        text.put_number(n);
        text.put(b", ");
        self.say(text.as_slice());
        match things {
            [thing @ .., _] if n == 1 => self.say(thing),
            _ => self.say(things),
        }
    }

    // One of some words, counted from 0.
    pub fn say_word<W: AsBytes>(&mut self, words: &[W], n: u8) {
        if let Some(word) = words.get(usize::from(n)) {
            self.say(word.as_byte_slice());
        }
    }

    pub fn say_hex(&mut self, n: u32, width: usize) {
        let mut digits = [0u8; 16];
        let k = io::hex(u64::from(n), width, &mut digits);
        self.say(&digits[..k]);
    }

    // The same text again and again.
    pub fn say_times(&mut self, text: &[u8], n: usize) {
        for _ in 0..n {
            self.say(text);
        }
    }

    // The start of a line that stands too deep to be indented whole.
    fn say_depth(&mut self, depth: usize) {
        self.say(&BLANKS);
        self.say(b"[");
        self.say_number(depth);
        self.say(b"] ");
    }

    // The start of a line that stands so deep.
    pub fn indent(&mut self, depth: usize) {
        if depth > INDENTED {
            self.say_depth(depth);
            return;
        }
        self.say(&BLANKS[..depth * 2]);
    }

    // A text whole: bytes for which `is_plain` holds and characters that can be seen as they are, of each other one what `say_odd` says.
    pub(crate) fn say_each<F: Fn(u8) -> bool, G: Fn(&mut Page, Odd)>(
        &mut self,
        text: &[u8],
        is_plain: F,
        say_odd: G,
    )
        requires plain { F.IsAlwaysCallable is_plain }
        requires odd { G.IsAlwaysCallable say_odd }
    {
        let mut i = 0;
        while i < text.len() {
            let from = run_end(text, i, |b| !is_plain(b));
            self.say(&text[i..from]);
            i = from;
            if from < text.len() {
                i = character_end(text, from);
                let character = &text[from..i];
                match Odd::of(character) {
                    Some(odd) => say_odd(self, odd),
                    None => self.say(character),
                }
            }
        }
    }

    // A character that cannot be seen, so that it does not move the cursor: below 128 by the picture that Unicode has for it.
    fn say_picture(&mut self, odd: Odd) {
        match odd {
            Odd::Byte(b) if b < 0x20 => self.say(&[0xE2, 0x90, 0x80 + b]),
            Odd::Byte(_) => self.say(&[0xE2, 0x90, 0xA1]),
            Odd::Unseen(code) => self.say_code_point(code),
        }
    }

    // A text whole, as it is seen.
    pub fn say_characters(&mut self, text: &[u8]) {
        self.say_each(
            text,
            |b| matches!(b, 0x20..=0x7E),
            |page, odd| page.say_picture(odd),
        );
    }
}
