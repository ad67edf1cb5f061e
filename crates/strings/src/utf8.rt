// UTF-8: whether bytes are well formed, and the bytes of a code point.
ghost use Rattle.std.specs.Prelude.{◌≡◌, [], ◌∷◌, ◌+◌, ◌/◌, ◌%◌, ◌^◌, ◌<◌, ◌≤◌, length, drop, MatchOption};
ghost use Rattle.std.proofs.lemmas.List.Edits.{sets};
ghost use Rattle.strings.specs.Utf8.{CharacterLength, ValidTo, utf8, Encodes};
ghost use Rattle.strings.specs.Rows.{Row};
ghost use Rattle.strings.specs.Valid.{NoneAbove, ValidSoFar, ValidUpTo};
ghost use Rattle.strings.specs.Decoding.{Decoding, Missing};

use crate::{Decoded, Refused, clear, put};

// Bytes from a place on, where the output has room; and the place after them.
fn put_all(out: &mut [u8], at: usize, bytes: &[u8]) -> usize
    requires { (at < 2 ^ 63) × (length bytes.now ≤ 4) }
    ensures { (out.new ≡ sets out.old at bytes.now) × (result ≡ at + length bytes.now) }
{
    for (k, b) in bytes.iter().enumerate() {
        put(out, at + k, *b);
    }
    at + bytes.len()
}

// A byte after the first has the lowest six of the bits that are left for it.
fn tail(bits: u32) -> u8
    ensures { result ≡ 0x80 + bits % 0x40 }
{
    (0x80 + bits % 0x40) as u8
}

// The UTF-8 of a code point from a place on, and the place after it.
pub fn put_code(out: &mut [u8], at: usize, code: u32) -> usize
    requires { (code < 0x110000) × (at < 2 ^ 63) }
    ensures { (out.new ≡ sets out.old at (utf8 code)) × (result ≡ at + length (utf8 code)) }
{
    match code {
        0..=0x7F => put_all(out, at, &[code as u8]),
        0x80..=0x7FF => put_all(out, at, &[(0xC0 + code / 0x40) as u8, tail(code)]),
        0x800..=0xFFFF => put_all(
            out,
            at,
            &[(0xE0 + code / 0x1000) as u8, tail(code / 0x40), tail(code)],
        ),
        _ => put_all(
            out,
            at,
            &[
                (0xF0 + code / 0x40000) as u8,
                tail(code / 0x1000),
                tail(code / 0x40),
                tail(code),
            ],
        ),
    }
}

// The bytes of a code point, if it is a scalar value.
pub fn encode(code: u32, out: &mut [u8]) -> Decoded
    ensures { Decoding (Encodes code) (Missing (Encodes code)) out.old result out.new }
{
    match code {
        0..=0xD7FF | 0xE000..=0x10FFFF => Ok(put_code(out, 0, code)),
        _ => {
            clear(out);
            // Kept a 0: `Missing` says it where no place is told.
            Err(Refused { at: 0 })
        }
    }
}

// What a first byte says of its character: how many bytes it has, and the bounds of the second.
#[derive(Clone, Copy)]
struct Lead {
    width: usize,
    low: u8,
    high: u8,
}

// Table 3-7, by the first byte.
fn lead_of(a: u8) -> Option<Lead>
    ensures { MatchOption result (Row a 0 0x80 0xBF) (λ lead. (0 < lead.width) × Row a lead.width lead.low lead.high) }
{
    let (width, low, high) = match a {
        0x00..=0x7F => (1, 0x80, 0xBF),
        0xC2..=0xDF => (2, 0x80, 0xBF),
        0xE0..=0xEF => match a {
            0xE0 => (3, 0xA0, 0xBF),
            0xED => (3, 0x80, 0x9F),
            _ => (3, 0x80, 0xBF),
        },
        0xF0..=0xF4 => match a {
            0xF0 => (4, 0x90, 0xBF),
            0xF4 => (4, 0x80, 0x8F),
            _ => (4, 0x80, 0xBF),
        },
        _ => return None,
    };
    Some(Lead { width, low, high })
}

// How many bytes the character has that begins at a place, if one does.
fn char_len(s: &[u8], at: usize) -> Option<usize>
    ensures { MatchOption result (CharacterLength (drop at s.now) 0) (λ width. (0 < width) × CharacterLength (drop at s.now) width) }
{
    let lead = lead_of(*s.get(at)?)?;
    let mut low = lead.low;
    let mut high = lead.high;
    for k in 1..lead.width {
        let b = *s.get(at + k)?;
        if b < low || high < b {
            return None;
        }
        low = 0x80;
        high = 0xBF;
    }
    Some(lead.width)
}

// The largest of 64 bytes, or more: a loop without a way out, which is compiled to a few wide instructions.
fn largest(s: &[u8], from: usize) -> u8
    requires { from + 64 ≤ length s.now }
    ensures { NoneAbove s.now from 64 result }
{
    let mut most = 0;
    for b in &s[from..from + 64] {
        most = most.max(*b);
    }
    most
}

// Character after character, from a place up to which all is valid, until another place is reached or no character begins.
fn valid_from(s: &[u8], from: usize, to: usize) -> usize
    requires { ValidSoFar s.now from × (to ≤ length s.now) }
    ensures { ValidUpTo s.now to result }
{
    let mut i = from;
    while i < to {
        let Some(width) = char_len(s, i) else {
            return i;
        };
        i += width;
    }
    i
}

// The bytes valid so far. Blocks of ASCII are passed whole.
pub fn valid_to(s: &[u8]) -> usize
    ensures { ValidTo s.now result }
{
    let mut i = 0;
    while 64 <= s.len() - i {
        let next = i + 64;
        if largest(s, i) < 0x80 {
            i = next;
            continue;
        }
        i = valid_from(s, i, next);
        if i < next {
            return i;
        }
    }
    valid_from(s, i, s.len())
}
