// Bytes and characters of a source: the class of a byte, runs of bytes of some classes, the character at a place.
ghost use Rattle.std.specs.Prelude.{◌≡◌, ℕ, Bool, ◌+◌, ◌≤◌, ◌<◌, min, length, get_or};
ghost use Rattle.regexes.specs.Regex.{in_class, within};
ghost use Rattle.lexemes.specs.Letters.{letter, next, code_point, white_space};
ghost use Rattle.lexemes.specs.Scan.{class_of, class_number, RunOf, Ran, InWord, Says, black};

// What a byte begins, or goes on with.
#[derive(Clone, Copy, PartialEq, Eq)]
pub enum Class {
    Other, // no rule begins with it
    Alpha, // [_a-zA-Z]
    Digit, // [1-9]
    Zero,
    Blank, // [ \t\n\r]
    Double,
    Single,
    At,
    Hash,
    Slash,
    Operator, // any other that an operator begins with
}

// The class of each byte value, sixteen to a row: `0` for the first of the classes, and so on up to `:` for the last.
pub static CLASS: [u8; 256] = *b"\
    0000000004400400\
    0000000000000000\
    4:58:::6:::::::9\
    3222222222::::::\
    7111111111111111\
    11111111111:0::1\
    0111111111111111\
    11111111111::::0\
    0000000000000000\
    0000000000000000\
    0000000000000000\
    0000000000000000\
    0000000000000000\
    0000000000000000\
    0000000000000000\
    0000000000000000";

// The class of a byte, by the table.
pub fn class_of(b: u8) -> Class
    ensures { class_number result ≡ class_of b }
{
    match CLASS[b as usize] {
        b'0' => Class::Other,
        b'1' => Class::Alpha,
        b'2' => Class::Digit,
        b'3' => Class::Zero,
        b'4' => Class::Blank,
        b'5' => Class::Double,
        b'6' => Class::Single,
        b'7' => Class::At,
        b'8' => Class::Hash,
        b'9' => Class::Slash,
        _ => Class::Operator,
    }
}

// The byte at i; 0, which begins no rule and goes on with none, past the end.
// Kept: as an `Option` each caller would compare with `Some(b'..')`, and learn no more.
pub fn peek(src: &[u8], i: usize) -> u8
    ensures { result ≡ get_or src.now i 0 }
{
    src.get(i).copied().unwrap_or(0)
}

// The end of the run of bytes from `from` on that pass the test.
// Kept by hand: `position` takes 18.0 instructions a byte of a run file and a `for` 17.0, where this takes 16.6.
pub fn run_while<F: Fn(u8) -> bool>(src: &[u8], from: usize, passes: F) -> usize
    requires within { from ≤ length src.now }
    requires callable { F.IsAlwaysCallable passes }
    ensures { (p : ℕ → Bool) → ((b : ℕ) (r : Bool) → F.post passes b r → r ≡ p b) → RunOf p src.now from result }
{
    let mut i = from;
    while i < src.len() {
        if !passes(src[i]) {
            return i;
        }
        i += 1;
    }
    i
}

// Whether a byte is a blank.
// Kept with an arm for each: as one `matches!` a run file takes 0.6 instructions a byte more.
fn is_blank(b: u8) -> bool
    ensures { Says result (class_of b ≡ 4) }
{
    match b {
        b' ' => true,
        b'\t' => true,
        b'\n' => true,
        b'\r' => true,
        _ => false,
    }
}

// The end of the run of blanks from `from` on.
pub fn blanks(src: &[u8], from: usize) -> usize
    requires { from ≤ length src.now }
    ensures { Ran src.now from 4 4 result }
{
    run_while(src, from, is_blank)
}

// Whether a byte begins a word, without the table.
pub fn is_alpha(b: u8) -> bool
    ensures { Says result (class_of b ≡ 1) }
{
    if b'z' < b {
        return false;
    }
    if b'a' <= b {
        return true;
    }
    if b'_' < b {
        return false;
    }
    if b'_' <= b {
        return true;
    }
    if b'Z' < b {
        return false;
    }
    if b < b'A' {
        return false;
    }
    true
}

// Whether a word goes on with a byte that is below the small letters, without the table.
fn is_other(b: u8) -> bool
    requires { b < 97 }
    ensures { Says result (InWord b) }
{
    if b'_' < b {
        return false;
    }
    if b'_' <= b {
        return true;
    }
    if b'Z' < b {
        return false;
    }
    if b'A' <= b {
        return true;
    }
    if b'9' < b {
        return false;
    }
    if b < b'0' {
        return false;
    }
    true
}

// Whether a word goes on with a byte.
// Kept by hand, small letters first, of which most words are: as ranges of one `matches!` a long name takes 19 instructions a byte where this takes 8.
fn goes_on(b: u8) -> bool
    ensures { Says result (InWord b) }
{
    if b'z' < b {
        return false;
    }
    if b'a' <= b {
        return true;
    }
    is_other(b)
}

// The end of the word that goes on from `from`.
pub fn word_end(src: &[u8], from: usize) -> usize
    requires { from ≤ length src.now }
    ensures { Ran src.now from 1 3 result }
{
    run_while(src, from, goes_on)
}

// i + w, or n where that is less.
fn clip(i: usize, w: usize, n: usize) -> usize
    requires { i ≤ n }
    ensures { result ≡ min (i + w) n }
{
    if n - i < w { n } else { i + w }
}

// The place after the character at i.
pub fn after(src: &[u8], i: usize) -> usize
    requires { i < length src.now }
    ensures { result ≡ next src.now i }
{
    let b = src[i];
    if b < 0x80 {
        return i + 1;
    }
    if b < 0xE0 {
        return clip(i, 2, src.len());
    }
    if b < 0xF0 {
        return clip(i, 3, src.len());
    }
    clip(i, 4, src.len())
}

// The code point whose bytes are a, b, c, d, as many as a says.
fn code_point(a: u8, b: u8, c: u8, d: u8) -> u32
    ensures { result ≡ code_point a b c d }
{
    if a < 0x80 {
        return a as u32;
    }
    let x = (b % 0x40) as u32;
    if a < 0xE0 {
        return (a % 0x20) as u32 * 0x40 + x;
    }
    let y = (c % 0x40) as u32;
    if a < 0xF0 {
        return (a % 0x10) as u32 * 0x1000 + x * 0x40 + y;
    }
    (a % 8) as u32 * 0x40000 + x * 0x1000 + y * 0x40 + (d % 0x40) as u32
}

// Whether a code point beyond ASCII is white space.
#[tactic(auto, unfolding(crate::specs::Letters::white_space))]
fn is_white(p: u32) -> bool
    ensures { result ≡ within white_space p }
{
    matches!(
        p,
        0x85 | 0xA0 | 0x1680 | 0x2000..=0x200A | 0x2028..=0x2029 | 0x202F | 0x205F | 0x3000
    )
}

// Whether a character that is no white space, `\S`, stands at i.
pub fn is_black(src: &[u8], i: usize) -> bool
    ensures { result ≡ in_class black (letter src.now i) }
{
    if src.len() <= i {
        return false;
    }
    let a = src[i];
    if a < 0x80 {
        return !matches!(a, b'\t'..=b'\r' | b' ');
    }
    let b = peek(src, i + 1);
    let c = peek(src, i + 2);
    let d = peek(src, i + 3);
    !is_white(code_point(a, b, c, d))
}
