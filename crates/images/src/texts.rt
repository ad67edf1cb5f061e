// The texts of records: whether a name is one, a number, and UTF-8.
ghost use Rattle.std.specs.Prelude.{◌≡◌, drop};
ghost use Rattle.std.specs.List.{list_all};
ghost use Rattle.regexes.specs.Regex.{in_class};
ghost use Rattle.strings.specs.Utf8.{Utf8};
ghost use Rattle.lexemes.specs.Rules.{alpha, alnum};
ghost use Rattle.lexemes.specs.Texts.{Numeral, Exponent, is_digit, is_e, is_sign};
ghost use Rattle.grammar.specs.Words.{NameText, NumberText};
ghost use Rattle.blocks.specs.Inside.{Says};
ghost use Rattle.images.specs.Inner.{Digits, SomeDigits, Tail};

use lexemes::words;
use strings::utf8;

// A byte of `[_a-zA-Z]`.
fn is_alpha(b: u8) -> bool
    ensures { result ≡ in_class alpha b }
{
    matches!(b, b'a'..=b'z' | b'A'..=b'Z' | b'_')
}

// A byte of `[_a-zA-Z0-9]`.
fn is_alnum(b: u8) -> bool
    ensures { result ≡ in_class alnum b }
{
    is_alpha(b) || is_digit(b)
}

// Whether a text is letters and digits.
fn is_word(text: &[u8]) -> bool
    ensures { result ≡ list_all (in_class alnum) text.now }
{
    text.iter().all(|b| is_alnum(*b))
}

// A name: an identifier and no keyword.
pub(crate) fn is_name(text: &[u8]) -> bool
    ensures { Says (NameText text.now) result }
{
    match text {
        [first, rest @ ..] => is_alpha(*first) && is_word(rest) && !words::is_keyword(text),
        [] => false,
    }
}

fn is_digit(b: u8) -> bool
    ensures { result ≡ is_digit b }
{
    matches!(b, b'0'..=b'9')
}

fn is_sign(b: u8) -> bool
    ensures { result ≡ is_sign b }
{
    matches!(b, b'+' | b'-')
}

fn is_e(b: u8) -> bool
    ensures { result ≡ is_e b }
{
    matches!(b, b'e' | b'E')
}

// The end of the digits from i on.
fn digits(text: &[u8], i: usize) -> usize
    ensures { Digits text.now i result }
{
    let mut end = i;
    while end < text.len() {
        if !is_digit(text[end]) {
            return end;
        }
        end += 1;
    }
    end
}

// Whether digits stand from i on to the end, at least one.
fn is_digits(text: &[u8], i: usize) -> bool
    ensures { Says (SomeDigits (drop i text.now)) result }
{
    let end = digits(text, i);
    if end == i {
        return false;
    }
    if end < text.len() {
        return false;
    }
    true
}

// Whether an exponent, or nothing, stands from i on to the end.
fn is_exponent(text: &[u8], i: usize) -> bool
    ensures { Says (Exponent (drop i text.now)) result }
{
    if text.len() <= i {
        return true;
    }
    if !is_e(text[i]) {
        return false;
    }
    if text.len() <= i + 1 {
        return false;
    }
    if is_sign(text[i + 1]) {
        return is_digits(text, i + 2);
    }
    is_digits(text, i + 1)
}

// Whether what may follow a whole part stands from i on to the end.
fn is_tail(text: &[u8], i: usize) -> bool
    ensures { Says (Tail (drop i text.now)) result }
{
    if text.len() <= i {
        return true;
    }
    if text[i] != b'.' {
        return is_exponent(text, i);
    }
    let end = digits(text, i + 1);
    if end == i + 1 {
        return false;
    }
    is_exponent(text, end)
}

// A numeral: a number literal without underscores.
fn is_numeral(text: &[u8]) -> bool
    ensures { Says (Numeral text.now) result }
{
    if text.len() == 0 {
        return false;
    }
    let b = text[0];
    if b == b'0' {
        return is_tail(text, 1);
    }
    if !is_digit(b) {
        return false;
    }
    is_tail(text, digits(text, 1))
}

// A number: a numeral below what a double holds.
pub(crate) fn is_number(text: &[u8]) -> bool
    ensures { Says (NumberText text.now) result }
{
    is_numeral(text) && !numerals::too_large(text)
}

pub(crate) fn is_utf8(text: &[u8]) -> bool
    ensures { Says (Utf8 text.now) result }
{
    utf8::valid_to(text) >= text.len()
}
