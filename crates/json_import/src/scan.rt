// What a JSON text's bytes are by themselves: white space, words, digits and numbers.
ghost use Rattle.std.specs.Prelude.{◌≡◌, ◌≤◌, ◌<◌, length, get_or};
ghost use Rattle.json_import.specs.Tokens.{is_blank};
ghost use Rattle.json_import.specs.Machine.{whole, begun as begun01, next as next01};
ghost use Rattle.json_import.specs.Inner.{Blanks, WordTo, shape, reached, ScannedTo, NumberTo};

use crate::Fault;

// The byte at a place, 0 past the end: no token has a 0.
// Kept: as an `Option` each call would compare with `Some(b'..')` and learn no more, since a 0 is refused where the text's end is.
pub(crate) fn peek(text: &[u8], at: usize) -> u8
    ensures { result ≡ get_or text.now at 0 }
{
    if at < text.len() { text[at] } else { 0 }
}

fn is_blank(b: u8) -> bool
    ensures { result ≡ is_blank b }
{
    // Kept by hand: by `matches!` a text of `[]`s takes 35.1 instructions a byte where this takes 30.8.
    match b {
        b' ' => true,
        b'\t' => true,
        b'\n' => true,
        b'\r' => true,
        _ => false,
    }
}

// The place behind white space.
pub(crate) fn blanks(text: &[u8], from: usize) -> usize
    requires { from ≤ length text.now }
    ensures { Blanks text.now from result }
{
    for at in from..text.len() {
        if !is_blank(text[at]) {
            return at;
        }
    }
    text.len()
}

// The place behind the letters of a word, or the first that is another.
pub(crate) fn word(text: &[u8], at: usize, letters: &[u8]) -> Result<usize, Fault>
    requires { at ≤ length text.now }
    ensures { WordTo text.now letters.now at result }
{
    for (i, letter) in letters.iter().enumerate() {
        if text.get(at + i) != Some(letter) {
            return Err(Fault::NotJson(at + i));
        }
    }
    Ok(at + letters.len())
}

// How far a number is: `0`, more digits, a point, digits behind it, `e`, its sign, its digits.
#[derive(Clone, Copy)]
enum Shape {
    Zero,
    Int,
    Point,
    Frac,
    Mark,
    Sign,
    Exp,
}

// A number's shape at its first digit.
fn begun(b: u8) -> Shape
    ensures { shape result ≡ begun01 b }
{
    if b == b'0' { Shape::Zero } else { Shape::Int }
}

// A number with one byte more, where it goes on.
#[tactic(auto, unfolding(crate::specs::Machine::next))]
fn next(sh: Shape, b: u8) -> Option<Shape>
    ensures { reached result ≡ next01 (shape sh) b }
{
    match sh {
        Shape::Zero => match b {
            b'.' => Some(Shape::Point),
            b'e' | b'E' => Some(Shape::Mark),
            _ => None,
        },
        Shape::Int => match b {
            b'0'..=b'9' => Some(Shape::Int),
            b'.' => Some(Shape::Point),
            b'e' | b'E' => Some(Shape::Mark),
            _ => None,
        },
        Shape::Frac => match b {
            b'0'..=b'9' => Some(Shape::Frac),
            b'e' | b'E' => Some(Shape::Mark),
            _ => None,
        },
        Shape::Mark => match b {
            b'0'..=b'9' => Some(Shape::Exp),
            b'+' | b'-' => Some(Shape::Sign),
            _ => None,
        },
        Shape::Point => match b {
            b'0'..=b'9' => Some(Shape::Frac),
            _ => None,
        },
        Shape::Sign | Shape::Exp => match b {
            b'0'..=b'9' => Some(Shape::Exp),
            _ => None,
        },
    }
}

#[tactic(auto, unfolding(crate::specs::Machine::whole))]
fn is_whole(sh: Shape) -> bool
    ensures { result ≡ whole (shape sh) }
{
    matches!(sh, Shape::Zero | Shape::Int | Shape::Frac | Shape::Exp)
}

// The place behind a number whose shape is so far, or the byte at which no number goes on.
fn scanned(sh: Shape, at: usize) -> Result<usize, Fault>
    ensures { ScannedTo (shape sh) at result }
{
    if is_whole(sh) {
        Ok(at)
    } else {
        Err(Fault::NotJson(at))
    }
}

// The place behind a number that begins with the digit at a place, or the byte at which no number goes on.
pub(crate) fn number(text: &[u8], at: usize) -> Result<usize, Fault>
    requires { at < length text.now }
    ensures { NumberTo text.now at result }
{
    let mut sh = begun(text[at]);
    for i in at + 1..text.len() {
        match next(sh, text[i]) {
            Some(more) => sh = more,
            None => return scanned(sh, i),
        }
    }
    scanned(sh, text.len())
}
