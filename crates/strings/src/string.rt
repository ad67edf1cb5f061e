// The inside of a string literal, decoded: string.rs, and the verbatim part of parse_string_content.
ghost use Rattle.std.specs.Prelude.{◌≡◌, ◌+◌, ◌≤◌, ◌<◌, length, get_or, drop};
ghost use Rattle.strings.specs.Literals.{Quoted, BadEscape, Verbatim, Begins};
ghost use Rattle.strings.specs.Decoding.{Decoding, Never};
ghost use Rattle.strings.specs.Inner.{Says, Digit, Spelled, Halved, Meant, EscapeAt};

use crate::utf8::put_code;
use crate::{Decoded, Refused, clear, put};

// An escape's code point and the place after it.
#[derive(Clone, Copy)]
pub struct Escaped {
    pub code: u32,
    pub next: usize,
}

// The value of a hex digit.
pub fn to_digit(b: u8) -> Option<u32>
    ensures { Digit b result }
{
    match b {
        b'0'..=b'9' => Some((b - b'0') as u32),
        b'A'..=b'F' => Some((b - b'A') as u32 + 10),
        b'a'..=b'f' => Some((b - b'a') as u32 + 10),
        _ => None,
    }
}

// The number that four hex digits spell.
fn decode_unicode(s: &[u8], i: usize) -> Option<u32>
    requires { i ≤ length s.now }
    ensures { Spelled (drop i s.now) result }
{
    let [a, b, c, d, ..] = &s[i..] else {
        return None;
    };
    let high = to_digit(*a)? * 0x10 + to_digit(*b)?;
    let low = to_digit(*c)? * 0x10 + to_digit(*d)?;
    Some(high * 0x100 + low)
}

// What a letter after a backslash stands for.
fn letter(l: u8) -> Option<u32>
    ensures { Meant l result }
{
    let code = match l {
        b'\\' => 0x5C,
        b'"' => 0x22,
        b'\'' => 0x27,
        b'b' => 0x08,
        b'f' => 0x0C,
        b'n' => 0x0A,
        b'r' => 0x0D,
        b't' => 0x09,
        _ => return None,
    };
    Some(code)
}

// `\x`: the Rust shifts by eight, so that two digits are 256d+e.
fn two_at(s: &[u8], i: usize) -> Option<Escaped>
    requires { (i < length s.now) × (get_or (drop i s.now) 0 0 ≡ 0x78) }
    ensures { EscapeAt s.now i result }
{
    let [_, d, e, ..] = &s[i..] else {
        return None;
    };
    Some(Escaped {
        code: to_digit(*d)? * 0x100 + to_digit(*e)?,
        next: i + 3,
    })
}

// The low half of a pair, with its `\u`.
fn low_at(s: &[u8], i: usize) -> Option<u32>
    requires { i ≤ length s.now }
    ensures { Halved (drop i s.now) result }
{
    if !s[i..].starts_with(b"\\u") {
        return None;
    }
    match decode_unicode(s, i + 2)? {
        low @ 0xDC00..=0xDFFF => Some(low),
        _ => None,
    }
}

// `\u`: a code point of four digits, or a high half with a low one.
fn unit_at(s: &[u8], i: usize) -> Option<Escaped>
    requires { (i < length s.now) × (get_or (drop i s.now) 0 0 ≡ 0x75) }
    ensures { EscapeAt s.now i result }
{
    let n = decode_unicode(s, i + 1)?;
    match n {
        0xD800..=0xDBFF => {
            let lo = low_at(s, i + 5)?;
            Some(Escaped {
                code: 0x10000 + (n - 0xD800) * 0x400 + (lo - 0xDC00),
                next: i + 11,
            })
        }
        0xDC00..=0xDFFF => None,
        _ => Some(Escaped {
            code: n,
            next: i + 5,
        }),
    }
}

// What stands after a backslash.
fn escape_at(s: &[u8], i: usize) -> Option<Escaped>
    requires { i ≤ length s.now }
    ensures { EscapeAt s.now i result }
{
    match *s.get(i)? {
        b'u' => unit_at(s, i),
        b'x' => two_at(s, i),
        l => Some(Escaped {
            code: letter(l)?,
            next: i + 1,
        }),
    }
}

// The inside of a quoted literal, decoded into the part of the output that is lent; or where its first bad escape begins.
pub fn unescape(s: &[u8], out: &mut [u8]) -> Decoded
    ensures { Decoding (Quoted s.now) (BadEscape s.now) out.old result out.new }
{
    let mut i = 0;
    let mut n = 0;
    while i < s.len() {
        let b = s[i];
        if b == b'\\' {
            let Some(escaped) = escape_at(s, i + 1) else {
                clear(out);
                return Err(Refused { at: i });
            };
            n = put_code(out, n, escaped.code);
            i = escaped.next;
        } else {
            put(out, n, b);
            n += 1;
            i += 1;
        }
    }
    Ok(n)
}

// Whether the quote at i has another after it.
fn doubled(s: &[u8], i: usize, quote: u8) -> bool
    requires { i < length s.now }
    ensures { Says result (Begins quote (drop (i + 1) s.now)) }
{
    let next = i + 1;
    next < s.len() && s[next] == quote
}

// The inside of a verbatim literal between such quotes, decoded into the part of the output that is lent.
pub fn verbatim(s: &[u8], quote: u8, out: &mut [u8]) -> Decoded
    ensures { Decoding (Verbatim quote s.now) Never out.old result out.new }
{
    let mut at = 0;
    let mut n = 0;
    while at < s.len() {
        let b = s[at];
        put(out, n, b);
        n += 1;
        at += if b == quote && doubled(s, at, quote) {
            2
        } else {
            1
        };
    }
    Ok(n)
}
