// The kept lexemes of a source one by one, a cursor over them, and the first bad lexeme.
ghost use Rattle.std.specs.Prelude.{◌≡◌};
ghost use Rattle.lexemes.specs.Kept.{dropped, bad, NextKept, FirstBad, Stands};

use super::bytes::Class;
use super::kinds::Kind;
use super::{Lexeme, bytes, operators, scan};

// White space and good comments, which stand together in `SyntaxKind`.
#[tactic(auto, unfolding(crate::specs::Kept::dropped))]
fn is_dropped(kind: u8) -> bool
    ensures { result ≡ dropped kind }
{
    matches!(kind, Kind::WHITESPACE..=Kind::MULTI_LINE_COMMENT)
}

#[tactic(auto, unfolding(crate::specs::Kept::bad))]
fn is_bad(kind: u8) -> bool
    ensures { result ≡ bad kind }
{
    matches!(
        kind,
        Kind::ERROR_FLOAT_JUNK_AFTER_POINT..=Kind::ERROR_FLOAT_JUNK_AFTER_EXPONENT_SIGN
            | Kind::ERROR_STRING_DOUBLE_UNTERMINATED
            | Kind::ERROR_STRING_SINGLE_UNTERMINATED
            | Kind::ERROR_STRING_DOUBLE_VERBATIM_UNTERMINATED
            | Kind::ERROR_STRING_SINGLE_VERBATIM_UNTERMINATED
                ..=Kind::ERROR_STRING_VERBATIM_MISSING_QUOTES
            | Kind::ERROR_STRING_BLOCK_UNEXPECTED_END
                ..=Kind::ERROR_STRING_BLOCK_MISSING_INDENT
            | Kind::ERROR_COMMENT_TOO_SHORT..=Kind::ERROR_CUSTOM
            | Kind::LEXING_ERROR
    )
}

// The next kept lexeme from a place on; with none left, EOF at the place twice. Blanks and most operators of one byte are told
// before what else begins.
pub fn next_kept(src: &[u8], at: usize) -> Lexeme
    ensures { NextKept src.now at result }
{
    let mut i = at;
    while i < src.len() {
        let b = src[i];
        if let Some(kind) = operators::lone_kind(b) {
            return Lexeme {
                kind,
                start: i,
                end: i + 1,
            };
        }
        let class = scan::class_by(b);
        if class == Class::Blank {
            i = bytes::blanks(src, i + 1);
            continue;
        }
        let l = scan::lexeme_of(src, i, scan::matched_at(src, i, class));
        if !is_dropped(l.kind) {
            return l;
        }
        i = l.end;
    }
    Lexeme {
        kind: Kind::EOF,
        start: at,
        end: at,
    }
}

// The first bad lexeme of a source; EOF at its end where none is bad. What is dropped is not bad, so the kept ones are looked at.
pub fn first_bad(src: &[u8]) -> Lexeme
    ensures { FirstBad src.now result }
{
    let mut i = 0;
    loop {
        let l = next_kept(src, i);
        if l.kind == Kind::EOF {
            return Lexeme {
                kind: Kind::EOF,
                start: src.len(),
                end: src.len(),
            };
        }
        if is_bad(l.kind) {
            return l;
        }
        i = l.end;
    }
}

// A place among the kept lexemes: where the last one taken ended, and the current one, which is the next.
#[derive(Drop)]
pub struct Cursor {
    pub last: usize,
    pub current: Lexeme,
}

impl Cursor {
    pub fn new(src: &[u8], at: usize) -> Cursor
        ensures { Stands src.now at result }
    {
        let current = next_kept(src, at);
        Cursor { last: at, current }
    }

    // Past the current lexeme.
    pub fn advance(self, src: &[u8]) -> Cursor
        ensures { Stands src.now self.current.end result }
    {
        let at = self.current.end;
        Cursor::new(src, at)
    }
}
