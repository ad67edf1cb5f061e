// What begins with `/` or `#`: comments, good and bad, and division.
ghost use Rattle.std.specs.Prelude.{◌≡◌, ℕ, ◌+◌, ◌≤◌, ◌<◌, length, get_or};
ghost use Rattle.lexemes.specs.Lexeme.{Ruled};
ghost use Rattle.lexemes.specs.Scan.{LineEnd, Closing, Opening};

use super::kinds::Kind;
use super::{Matched, bytes};

// The end of a line comment whose text starts at `from`.
fn line_from(src: &[u8], from: usize) -> usize
    requires { from ≤ length src.now }
    ensures { LineEnd src.now from result }
{
    let mut i = from;
    while i < src.len() {
        let b = src[i];
        if b == b'\n' {
            return i + 1;
        }
        if b == b'\r' {
            if bytes::peek(src, i + 1) == b'\n' {
                return i + 2;
            }
            return i;
        }
        i = bytes::after(src, i);
    }
    i
}

// The place after the `*/` that closes a comment whose text starts at `from`; None where none does.
fn close_from(src: &[u8], from: usize) -> Option<usize>
    requires { from ≤ length src.now }
    ensures { Closing src.now from result }
{
    let mut i = from;
    let mut star = false;
    while i < src.len() {
        match src[i] {
            b'/' if star => return Some(i + 1),
            b'*' => star = true,
            _ => star = false,
        }
        i = bytes::after(src, i);
    }
    None
}

// The end of what a comment with no closing takes of the text from `from` on.
fn open_from(src: &[u8], from: usize) -> usize
    requires { from ≤ length src.now }
    ensures { Opening src.now from result }
{
    let mut i = from;
    while i < src.len() {
        let b = src[i];
        if b == b'/' {
            return i;
        }
        if b == b'*' {
            if src.len() <= i + 1 {
                return i;
            }
            if src[i + 1] == b'/' {
                return i;
            }
            i = bytes::after(src, i + 1);
            continue;
        }
        i = bytes::after(src, i);
    }
    i
}

// What begins with `/*`.
fn comment_at(src: &[u8], at: usize) -> Matched
    requires { (at + 1 < length src.now) × (get_or src.now at 0 ≡ 47) × (get_or src.now (at + 1) 0 ≡ 42) }
    ensures { Ruled src.now at result.kind result.end }
{
    if let Some(end) = close_from(src, at + 2) {
        return Matched {
            kind: Kind::MULTI_LINE_COMMENT,
            end,
        };
    }
    let open = open_from(src, at + 2);
    if at + 2 < open {
        return Matched {
            kind: Kind::ERROR_COMMENT_UNTERMINATED,
            end: open,
        };
    }
    if bytes::peek(src, at + 2) == b'/' {
        return Matched {
            kind: Kind::ERROR_COMMENT_TOO_SHORT,
            end: at + 3,
        };
    }
    Matched {
        kind: Kind::DIV,
        end: at + 1,
    }
}

pub fn slash_at(src: &[u8], at: usize) -> Matched
    requires { (at < length src.now) × (get_or src.now at 0 ≡ 47) }
    ensures { Ruled src.now at result.kind result.end }
{
    let b = bytes::peek(src, at + 1);
    if b == b'/' {
        return Matched {
            kind: Kind::SINGLE_LINE_SLASH_COMMENT,
            end: line_from(src, at + 2),
        };
    }
    if b == b'*' {
        return comment_at(src, at);
    }
    Matched {
        kind: Kind::DIV,
        end: at + 1,
    }
}

pub fn hash_at(src: &[u8], at: usize) -> Matched
    requires { (at < length src.now) × (get_or src.now at 0 ≡ 35) }
    ensures { Ruled src.now at result.kind result.end }
{
    Matched {
        kind: Kind::SINGLE_LINE_HASH_COMMENT,
        end: line_from(src, at + 1),
    }
}
