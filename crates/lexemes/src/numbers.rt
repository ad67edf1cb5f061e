// Numbers, and the three junk rules that take one more character.
ghost use Rattle.std.specs.Prelude.{◌≡◌, ◌⊎◌, ℕ, ◌+◌, ◌≤◌, ◌<◌, length, get_or};
ghost use Rattle.lexemes.specs.Lexeme.{Ruled};
ghost use Rattle.lexemes.specs.Scan.{Says, Ran, IsDigit, Digits, Tried, ExponentAt, FractionAt, after_sign, after_e};

use super::kinds::Kind;
use super::{Matched, bytes};

pub fn is_digit(src: &[u8], i: usize) -> bool
    ensures { Says result (IsDigit (get_or src.now i 0)) }
{
    bytes::peek(src, i).is_ascii_digit()
}

// The end of the run of digits from `from` on.
fn digit_run(src: &[u8], from: usize) -> usize
    requires { from ≤ length src.now }
    ensures { Ran src.now from 2 3 result }
{
    bytes::run_while(src, from, |b| b.is_ascii_digit())
}

// The end of `[0-9]*(_[0-9]+)*` from `from` on.
fn digits_from(src: &[u8], from: usize) -> usize
    requires { from ≤ length src.now }
    ensures { Digits src.now from result }
{
    let mut i = digit_run(src, from);
    while bytes::peek(src, i) == b'_' {
        if !is_digit(src, i + 1) {
            return i;
        }
        i = digit_run(src, i + 2);
    }
    i
}

// A number from past its exponent's sign on; None where nothing goes on there.
fn after_sign(src: &[u8], f: usize) -> Option<Matched>
    requires { f ≤ length src.now }
    ensures { Tried src.now after_sign f result }
{
    if is_digit(src, f) {
        return Some(Matched {
            kind: Kind::FLOAT,
            end: digits_from(src, f + 1),
        });
    }
    if src.len() <= f {
        return None;
    }
    Some(Matched {
        kind: Kind::ERROR_FLOAT_JUNK_AFTER_EXPONENT_SIGN,
        end: bytes::after(src, f),
    })
}

// A number from past its `e` on; None where nothing goes on there.
fn after_e(src: &[u8], f: usize) -> Option<Matched>
    requires { f ≤ length src.now }
    ensures { Tried src.now after_e f result }
{
    if is_digit(src, f) {
        return Some(Matched {
            kind: Kind::FLOAT,
            end: digits_from(src, f + 1),
        });
    }
    if src.len() <= f {
        return None;
    }
    match src[f] {
        b'+' | b'-' => after_sign(src, f + 1),
        _ => Some(Matched {
            kind: Kind::ERROR_FLOAT_JUNK_AFTER_EXPONENT,
            end: bytes::after(src, f),
        }),
    }
}

// A number that ends at p, or goes on there by an exponent.
fn exponent_at(src: &[u8], p: usize) -> Matched
    requires { p ≤ length src.now }
    ensures { ExponentAt src.now p result.kind result.end }
{
    let whole = Matched {
        kind: Kind::FLOAT,
        end: p,
    };
    match bytes::peek(src, p) {
        b'e' | b'E' => after_e(src, p + 1).unwrap_or(whole),
        _ => whole,
    }
}

// A number whose whole part ends at p.
fn fraction_at(src: &[u8], p: usize) -> Matched
    requires { p ≤ length src.now }
    ensures { FractionAt src.now p result.kind result.end }
{
    if bytes::peek(src, p) == b'.' {
        if is_digit(src, p + 1) {
            return exponent_at(src, digits_from(src, p + 2));
        }
        if src.len() <= p + 1 {
            return Matched {
                kind: Kind::FLOAT,
                end: p,
            };
        }
        return Matched {
            kind: Kind::ERROR_FLOAT_JUNK_AFTER_POINT,
            end: bytes::after(src, p + 1),
        };
    }
    exponent_at(src, p)
}

pub fn number_at(src: &[u8], at: usize) -> Matched
    requires { (at < length src.now) × IsDigit (get_or src.now at 0) }
    ensures { Ruled src.now at result.kind result.end }
{
    if src[at] == b'0' {
        return fraction_at(src, at + 1);
    }
    fraction_at(src, digits_from(src, at + 1))
}
