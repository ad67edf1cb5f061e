#![tactic(auto)]
// Whether a number literal is beyond a double: its exact value against 2^1024 - 2^970, digit by digit.
ghost use Rattle.std.specs.Prelude.{◌≡◌, ◌+◌, ◌≤◌, ◌<◌, ◌^◌, length};
ghost use Rattle.std.specs.declared.cmp.Ordering.TheVariants.{Equal};
ghost use Rattle.numerals.specs.Value.{Verdict, Large, spelled, digits, behind, has};
ghost use Rattle.numerals.specs.Inner.{limit_digits, Says, Led, Pushes, Compares, Decides, Found, Past, Capped, Appends};

use std::cmp::Ordering;

// 2^1024 - 2^970
static LIMIT: [u8; 309] = *b"\
    1797693134862315807937289714053034150799341327100378269361737789804449682927647509466490179775872070963\
    3028641669288791094655554785194040263065748867150582068190890200070838367627385484581771153176447573027\
    0069855571366959622842914819860834936475292719074168444365510704342711559699508093042880177904174497792";

// Digits from the first that is not 0 on: how many, and how they stand to as many of the limit's.
#[derive(Clone, Copy)]
pub(crate) struct Lead {
    pub count: usize,
    pub order: Ordering,
}

// Digits that are the limit's so far, with one more.
fn compare(count: usize, b: u8) -> Ordering
    ensures { Compares Equal count b result }
{
    if 309 <= count {
        return Ordering::Greater;
    }
    let next = LIMIT[count];
    b.cmp(&next)
}

// What is above or below stays so.
fn with_digit(order: Ordering, count: usize, b: u8) -> Ordering
    ensures { Compares order count b result }
{
    match order {
        Ordering::Equal => compare(count, b),
        decided => decided,
    }
}

// With one byte more: a digit, but for zeros before the first other.
fn push(l: Lead, b: u8) -> Lead
    requires { l.count < 2 ^ 63 }
    ensures { Pushes l b result }
{
    // The sum is 0 where both are. Told by two tests that takes 30.0 instructions a byte of a long number, where this takes 26.0.
    if !b.is_ascii_digit() || l.count + (b - b'0') as usize == 0 {
        return l;
    }
    Lead {
        count: l.count + 1,
        order: with_digit(l.order, l.count, b),
    }
}

fn leading(text: &[u8]) -> Lead
    ensures { (Led (spelled 0 text.now) result) × (result.count ≤ length text.now) }
{
    let mut l = Lead {
        count: 0,
        order: Ordering::Equal,
    };
    for b in text {
        l = push(l, *b);
    }
    l
}

// Whether the digits reach the limit, where they have `size` digits before the point but for `down` places.
fn reaches(l: Lead, size: usize, down: usize) -> bool
    requires { down < 2 ^ 63 }
    ensures { Decides l size down result }
{
    if l.count == 0 || size < 309 + down {
        return false;
    }
    if 309 + down < size {
        return true;
    }
    match l.order {
        Ordering::Greater => true,
        Ordering::Less => false,
        Ordering::Equal => 309 <= l.count,
    }
}

// Where the first of two bytes stands, or the end.
fn find(text: &[u8], x: u8, y: u8) -> usize
    ensures { Found text.now x y result }
{
    for (i, b) in text.iter().enumerate() {
        if *b == x || *b == y {
            return i;
        }
    }
    text.len()
}

// The place behind what was found.
fn past(at: usize, end: usize) -> usize
    requires { at ≤ end }
    ensures { Past at end result }
{
    if at < end { at + 1 } else { end }
}

fn has_minus(text: &[u8]) -> bool
    ensures { result ≡ has 0x2D text.now }
{
    find(text, b'-', b'-') < text.len()
}

fn count_digits(text: &[u8]) -> usize
    ensures { result ≡ digits text.now }
{
    text.iter().filter(|b| b.is_ascii_digit()).count()
}

// How many digits stand behind the point.
fn count_places(mantissa: &[u8]) -> usize
    ensures { result ≡ digits (behind 0x2E 0x2E mantissa.now) }
{
    let from = past(find(mantissa, b'.', b'.'), mantissa.len());
    count_digits(&mantissa[from..])
}

// A number with one byte more, which counts if it is a digit; or the cap.
fn append(n: usize, b: u8, cap: usize) -> usize
    requires { (1 ≤ cap) × (cap ≤ 2 ^ 63 + 310) }
    ensures { Appends n b cap result }
{
    if !b.is_ascii_digit() {
        return n;
    }
    if cap / 10 < n {
        return cap;
    }
    n * 10 + (b - b'0') as usize
}

// The number that the digits spell, whatever their number; where it passes the cap, one that is no less than the cap.
fn spell(text: &[u8], cap: usize) -> usize
    requires { (1 ≤ cap) × (cap ≤ 2 ^ 63 + 310) }
    ensures { Capped cap (spelled 0 text.now) result }
{
    let mut n = 0;
    for b in text {
        n = append(n, *b, cap);
    }
    n
}

fn add(a: usize, b: usize, cap: usize) -> usize
    requires { (a ≤ cap) × (cap ≤ 2 ^ 63 + 310) }
    ensures { Capped cap (a + b) result }
{
    a.saturating_add(b).min(cap)
}

// A literal's parts before and behind its `e`.
fn parts_reach(mantissa: &[u8], exponent: &[u8]) -> bool
    ensures { Says result (Large mantissa.now exponent.now) }
{
    let l = leading(mantissa);
    let down = count_places(mantissa);
    let cap = mantissa.len() + 310;
    let power = spell(exponent, cap);
    if has_minus(exponent) {
        return power <= l.count && reaches(l, l.count - power, down);
    }
    reaches(l, add(l.count, power, cap), down)
}

// Whether a number literal's exact value is at least 2^1024 - 2^970.
pub fn too_large(text: &[u8]) -> bool
    ensures { Verdict text.now result }
{
    // 1e99 is the largest of four bytes.
    if text.len() < 5 {
        return false;
    }
    let e = find(text, b'e', b'E');
    let from = past(e, text.len());
    // So few digits with an exponent of at most two bytes stay below the limit; nearly every literal is such.
    if e < 210 && text.len() - from < 3 {
        return false;
    }
    parts_reach(&text[0..e], &text[from..])
}
