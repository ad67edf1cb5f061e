// What begins with `@`: verbatim strings, and the junk rule for `@` with no quote.
ghost use Rattle.std.specs.Prelude.{◌≡◌, ℕ, ◌+◌, ◌≤◌, ◌<◌, length, get_or};
ghost use Rattle.lexemes.specs.Lexeme.{Ruled};
ghost use Rattle.lexemes.specs.Scan.{RawQuote, BlackEnd};

use super::kinds::Kind;
use super::{Matched, bytes};

// A verbatim string between quotes q has kind `good`; without an end it has the next kind.
fn verbatim_at(src: &[u8], at: usize, q: u8, good: u8) -> Matched
    requires { (at + 1 < length src.now) × (get_or src.now at 0 ≡ 64) × (get_or src.now (at + 1) 0 ≡ q) × RawQuote q good }
    ensures { Ruled src.now at result.kind result.end }
{
    let mut i = at + 2;
    while i < src.len() {
        let b = src[i];
        if b == q {
            if bytes::peek(src, i + 1) == q {
                i += 2;
                continue;
            }
            return Matched {
                kind: good,
                end: i + 1,
            };
        }
        i = bytes::after(src, i);
    }
    Matched {
        kind: good + 1,
        end: i,
    }
}

// The end of the run of characters from `from` on that are no white space.
fn black_from(src: &[u8], from: usize) -> usize
    requires { from ≤ length src.now }
    ensures { BlackEnd src.now from result }
{
    let mut i = from;
    while i < src.len() {
        if !bytes::is_black(src, i) {
            return i;
        }
        i = bytes::after(src, i);
    }
    i
}

pub fn at_sign(src: &[u8], at: usize) -> Matched
    requires { (at < length src.now) × (get_or src.now at 0 ≡ 64) }
    ensures { Ruled src.now at result.kind result.end }
{
    let b = bytes::peek(src, at + 1);
    if b == b'"' {
        return verbatim_at(src, at, b'"', Kind::STRING_DOUBLE_VERBATIM);
    }
    if b == b'\'' {
        return verbatim_at(src, at, b'\'', Kind::STRING_SINGLE_VERBATIM);
    }
    if !bytes::is_black(src, at + 1) {
        return Matched {
            kind: Kind::LEXING_ERROR,
            end: at + 1,
        };
    }
    let f = bytes::after(src, at + 1);
    let end = black_from(src, f);
    if end <= f {
        return Matched {
            kind: Kind::LEXING_ERROR,
            end: at + 1,
        };
    }
    Matched {
        kind: Kind::ERROR_STRING_VERBATIM_MISSING_QUOTES,
        end,
    }
}
