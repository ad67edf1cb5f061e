// Characters that cannot be seen, or that move the others: they are named by their code points, and never go to a terminal as they are.
ghost use Rattle.std.specs.Prelude.{◌≤◌};

use crate::page::Page;

// The six bits that a byte inside a character carries.
fn inner(b: u8) -> u32
    ensures { result ≤ 63 }
{
    u32::from(b % 64)
}

// The code point of a character beyond ASCII, where its bytes are as many as one has.
fn code_of(character: &[u8]) -> Option<u32> {
    match character {
        [a, b] => Some(inner(*a) % 32 * 64 + inner(*b)),
        [a, b, c] => Some(inner(*a) % 16 * 4096 + inner(*b) * 64 + inner(*c)),
        [a, b, c, d] => {
            let high = inner(*a) % 8 * 64 + inner(*b);
            Some(high * 4096 + inner(*c) * 64 + inner(*d))
        }
        _ => None,
    }
}

// Controls, blanks other than the space, marks of direction, joiners, and what else Unicode has shown as nothing: below U+3000, and from there on.
fn is_unseen_low(code: u32) -> bool {
    matches!(
        code,
        0..=0x1F
            | 0x7F..=0xA0
            | 0xAD
            | 0x34F
            | 0x600..=0x605
            | 0x61C
            | 0x6DD
            | 0x70F
            | 0x890..=0x891
            | 0x8E2
            | 0x115F..=0x1160
            | 0x1680
            | 0x17B4..=0x17B5
            | 0x180B..=0x180F
            | 0x2000..=0x200F
            | 0x2028..=0x202F
            | 0x205F..=0x206F
            | 0x2800
    )
}

fn is_unseen_high(code: u32) -> bool {
    matches!(
        code,
        0x3000
            | 0x3164
            | 0xFE00..=0xFE0F
            | 0xFEFF
            | 0xFFA0
            | 0xFFF0..=0xFFFB
            | 0x110BD
            | 0x110CD
            | 0x13430..=0x1343F
            | 0x1BCA0..=0x1BCA3
            | 0x1D173..=0x1D17A
            | 0xE0000..=0xE0FFF
    )
}

fn is_unseen(code: u32) -> bool {
    if code < 0x3000 {
        is_unseen_low(code)
    } else {
        is_unseen_high(code)
    }
}

// The code point of a character beyond ASCII that cannot be seen.
pub fn unseen_code(character: &[u8]) -> Option<u32> {
    match code_of(character) {
        Some(code) if is_unseen(code) => Some(code),
        _ => None,
    }
}

impl Page {
    // As an escape in a text: `\u202e`, and `\u{e0001}` where four digits do not do.
    pub fn say_escape_of(&mut self, code: u32) {
        self.say(b"\\u");
        if code <= 0xFFFF {
            self.say_hex(code, 4);
            return;
        }
        self.say(b"{");
        self.say_hex(code, 5);
        self.say(b"}");
    }

    // As it is shown in a line of the source, or in a name: `<U+202e>`.
    pub fn say_code_point(&mut self, code: u32) {
        self.say(b"<U+");
        self.say_hex(code, 4);
        self.say(b">");
    }
}
