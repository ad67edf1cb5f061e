// A record's payload, taken apart by its layout: each part's value, and how many children the parts tell of.
ghost use Rattle.std.specs.Prelude.{◌≡◌, ◌+◌, ◌*◌, ◌≤◌, ◌<◌, ◌⊎◌, length, get_or, map, IfSome, MatchOption};
ghost use Rattle.grammar.specs.Laid.{part_of};
ghost use Rattle.grammar.specs.Layout.{bits_in, code};
ghost use Rattle.images.specs.Images.{two_at};
ghost use Rattle.images.specs.Inner.{span_value, Gives, padded, Walks};

use grammar::layout::Part;

// A part's value, the place after it, and the children that it tells of.
#[derive(Clone, Copy)]
pub struct Got {
    pub value: usize,
    pub next: usize,
    pub children: usize,
}

// The values of all parts, zeros behind them, and the children that they tell of.
#[derive(Clone, Copy)]
pub struct Parts {
    pub children: usize,
    pub values: [usize; 6],
}

// The value of a span that runs backward.
pub const BACKWARD: usize = 131_072;

// The number of two bytes, the high one first.
pub fn number(bytes: &[u8], at: usize) -> usize
    requires { at + 1 < length bytes.now }
    ensures value { result ≡ two_at bytes.now at }
    ensures small { result ≤ 65535 }
{
    usize::from(bytes[at]) * 256 + usize::from(bytes[at + 1])
}

fn span(bytes: &[u8], at: usize) -> usize
    requires { at + 3 < length bytes.now }
    ensures { result ≡ span_value (two_at bytes.now at) (two_at bytes.now (at + 2)) }
{
    let start = number(bytes, at);
    let end = number(bytes, at + 2);
    if start <= end { start + end } else { BACKWARD }
}

// How many of its three parts a slice's byte has.
pub(crate) fn bits(b: usize) -> usize
    ensures value { result ≡ bits_in b }
    ensures few { result ≤ 3 }
{
    b % 2 + (b / 2 % 2 + b / 4 % 2)
}

// The byte at a place, if it is there and below a limit.
fn byte_below(bytes: &[u8], at: usize, end: usize, limit: usize) -> Option<usize>
    requires { (at ≤ end) × (end ≤ length bytes.now) }
    ensures { MatchOption result ((end ≤ at) ⊎ ((at < end) × (limit ≤ get_or bytes.now at 0))) (λ b. (at < end) × (b ≡ get_or bytes.now at 0) × (b < limit) × (b ≤ 255)) }
{
    if end <= at {
        return None;
    }
    let b = usize::from(bytes[at]);
    if b < limit { Some(b) } else { None }
}

// A part, if the bytes from a place on have it.
fn get(bytes: &[u8], at: usize, end: usize, part: Part) -> Option<Got>
    requires { (at ≤ end) × (end ≤ length bytes.now) }
    ensures { Gives bytes.now at end (code (part_of part)) result }
{
    let left = end - at;
    let (size, value, children) = match part {
        Part::Span => {
            if left < 4 {
                return None;
            }
            (4, span(bytes, at), 0)
        }
        Part::Text => (left, left, 0),
        Part::Count => {
            if left < 2 {
                return None;
            }
            let n = number(bytes, at);
            (2, n, n)
        }
        Part::Has => {
            let b = byte_below(bytes, at, end, 2)?;
            (1, b, b)
        }
        Part::Bits => {
            let b = byte_below(bytes, at, end, 8)?;
            (1, b, bits(b))
        }
        Part::Below(limit) => (1, byte_below(bytes, at, end, usize::from(limit))?, 0),
    };
    Some(Got {
        value,
        next: at + size,
        children,
    })
}

// All the parts of a payload, if it has them and nothing else.
pub(crate) fn taken(bytes: &[u8], from: usize, end: usize, parts: &[Part]) -> Option<Parts>
    requires { (from ≤ end) × (end ≤ length bytes.now) × (length parts.now ≤ 6) }
    ensures walk { Walks bytes.now from end (padded (map part_of parts.now)) result }
    ensures few { IfSome result (λ p. p.children ≤ 393210) }
{
    let mut values = [0; 6];
    let mut at = from;
    let mut children = 0;
    for (i, part) in parts.iter().enumerate() {
        let got = get(bytes, at, end, *part)?;
        values[i] = got.value;
        children += got.children;
        at = got.next;
    }
    (at == end).then_some(Parts { children, values })
}
