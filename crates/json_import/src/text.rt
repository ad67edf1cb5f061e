// Strings of a JSON text, decoded in one walk straight into their record.
ghost use Rattle.std.specs.Prelude.{◌≡◌, ◌∷◌, ◌+◌, ◌*◌, ◌^◌, ◌≤◌, ◌<◌, length, get_or};
ghost use Rattle.strings.specs.Utf8.{In};
ghost use Rattle.grammar.specs.Image.{two};
ghost use Rattle.grammar.specs.Writing.{Wrote};
ghost use Rattle.json_import.specs.Tokens.{is_plain};
ghost use Rattle.json_import.specs.Machine.{slash, u_none, u_two, high, low_two};
ghost use Rattle.json_import.specs.Inner.{DigitTo, EscapeTo, StringTo};

use crate::scan::peek;
use crate::{Fault, Place};
use grammar::tags::Tag;
use grammar::writers;

// An escape's code point, and the place behind it.
#[derive(Clone, Copy)]
struct Escaped {
    code: u32,
    end: usize,
}

// The value of the hex digit at a place, where no escape goes on without one.
fn digit_at(text: &[u8], at: usize) -> Result<u32, Fault>
    ensures { DigitTo text.now at result }
{
    match strings::string::to_digit(peek(text, at)) {
        Some(digit) => Ok(digit),
        None => Err(Fault::NotJson(at)),
    }
}

// The last two digits of a low half.
fn low_end(text: &[u8], at: usize, half: u32, x: u32) -> Result<Escaped, Fault>
    requires { (at < 2 ^ 32) × In 0xD800 0xDBFF half × In 0xDC 0xDF x }
    ensures { EscapeTo text.now (low_two half x) 10 at result }
{
    let c = digit_at(text, at)?;
    let d = digit_at(text, at + 1)?;
    let low = (x * 16 + c) * 16 + d;
    Ok(Escaped {
        code: 0x10000 + (half - 0xD800) * 0x400 + (low - 0xDC00),
        end: at + 2,
    })
}

// The low half that a high one asks for, with its `\u`.
fn low_half(text: &[u8], at: usize, half: u32) -> Result<Escaped, Fault>
    requires { (at < 2 ^ 31) × In 0xD800 0xDBFF half }
    ensures { EscapeTo text.now (high half) 6 at result }
{
    if peek(text, at) != b'\\' {
        return Err(Fault::NotJson(at));
    }
    if peek(text, at + 1) != b'u' {
        return Err(Fault::NotJson(at + 1));
    }
    let a = digit_at(text, at + 2)?;
    if a != 13 {
        return Err(Fault::NotJson(at + 2));
    }
    let b = digit_at(text, at + 3)?;
    if b < 12 {
        return Err(Fault::NotJson(at + 3));
    }
    low_end(text, at + 4, half, 13 * 16 + b)
}

// The last two digits behind `\u`: no half, or a high one and its low one.
fn unit_end(text: &[u8], at: usize, x: u32) -> Result<Escaped, Fault>
    requires { (at < 2 ^ 30) × (x < 256) }
    ensures { EscapeTo text.now (u_two x) 4 at result }
{
    let c = digit_at(text, at)?;
    let d = digit_at(text, at + 1)?;
    let code = (x * 16 + c) * 16 + d;
    match code {
        0xD800..=0xDBFF => low_half(text, at + 2, code),
        _ => Ok(Escaped { code, end: at + 2 }),
    }
}

// Behind `\u`. A low half alone is told from its second digit.
fn unit(text: &[u8], at: usize) -> Result<Escaped, Fault>
    requires { at < 2 ^ 29 }
    ensures { EscapeTo text.now u_none 2 at result }
{
    let a = digit_at(text, at)?;
    let b = digit_at(text, at + 1)?;
    let x = a * 16 + b;
    match x {
        0xDC..=0xDF => Err(Fault::NotJson(at + 1)),
        _ => unit_end(text, at + 2, x),
    }
}

// What stands behind a backslash: a letter that stands for a character, or `u` and digits.
#[tactic(auto, using(crate::proofs::EscapePlaces::slash_letter), unfolding(crate::specs::Machine::meant))]
fn escape(text: &[u8], at: usize) -> Result<Escaped, Fault>
    requires { at < 2 ^ 28 }
    ensures { EscapeTo text.now slash 1 at result }
{
    let code = match peek(text, at) {
        b'u' => return unit(text, at + 1),
        b'"' => 0x22,
        b'\\' => 0x5C,
        b'/' => 0x2F,
        b'b' => 0x08,
        b'f' => 0x0C,
        b'n' => 0x0A,
        b'r' => 0x0D,
        b't' => 0x09,
        _ => return Err(Fault::NotJson(at)),
    };
    Ok(Escaped { code, end: at + 1 })
}

// Whether a byte stands for itself. Most are letters, which one test tells.
fn is_plain(b: u8) -> bool
    ensures { result ≡ is_plain b }
{
    if b'\\' < b {
        return true;
    }
    0x20 <= b && b != b'"' && b != b'\\'
}

// A record's head. Where there is room for all of it, which one test tells, its bytes are stored at once.
fn put_head(out: &mut [u8], w: usize, tag: u8, n: usize) -> usize
    requires { (w < 2 ^ 60) × (n < 2 ^ 16) }
    ensures { Wrote out.old w (tag ∷ two n) result out.new }
{
    let end = w + 3;
    if out.len() < end {
        return writers::put_head(out, w, tag, n);
    }
    out[w] = tag;
    out[w + 1] = (n / 256) as u8;
    out[w + 2] = (n % 256) as u8;
    end
}

// The string whose first quote stands at a place: its record, the text first and its head when the length is known.
pub(crate) fn string(text: &[u8], out: &mut [u8], from: Place) -> Result<Place, Fault>
    requires { (from.at < length text.now) × (length text.now ≤ 65000) × (from.written < 2 ^ 32) }
    ensures { StringTo text.now out.old from.at from.written result out.new }
{
    let head = from.written;
    let mut i = from.at + 1;
    let mut n = head + 3;
    while i < text.len() {
        let b = text[i];
        // Most bytes stand for themselves, and go round at once. Kept by hand: an iterator is no plainer, since the place is written to, and an escape
        // moves it; with the run of such bytes in a loop of its own, a text of one string took up to 1.9 times as long.
        if is_plain(b) {
            strings::put(out, n, b);
            n += 1;
            i += 1;
            continue;
        }
        match b {
            b'"' => {
                put_head(out, head, Tag::STRING, n - (head + 3));
                return Ok(Place {
                    at: i + 1,
                    written: n,
                });
            }
            b'\\' => {
                let Escaped { code, end } = escape(text, i + 1)?;
                n = strings::utf8::put_code(out, n, code);
                i = end;
            }
            _ => return Err(Fault::NotJson(i)),
        }
    }
    Err(Fault::NotJson(i))
}
