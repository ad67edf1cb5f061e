// `Parser` and its methods: a cursor by value.
ghost use Rattle.std.specs.Prelude.{◌≡◌, ◌≤◌, ◌<◌, length, Err};
ghost use Rattle.lexemes.specs.Kinds.{EOF};
ghost use Rattle.leaves.specs.Lexing.{Stands, Moved, Named, Header, Suffixed};
ghost use Rattle.leaves.specs.Meets.{Eats};

use crate::{Answer, Cursor, Done, Refusal};
use grammar::numbers::Number;
use grammar::settings;
use lexemes::kept;
use lexemes::kinds::Kind;

// What 5 has as its detail where a name, or the source's end, is wanted: its kind.
pub const NAME: usize = Kind::IDENT as usize;

pub const END: usize = Kind::EOF as usize;

// The cursor where the last lexeme ended at a place.
pub fn cursor_at(src: &[u8], at: usize) -> Cursor
    requires { (at ≤ length src.now) × (length src.now ≤ 65000) }
    ensures { (result.at ≡ at) × Stands src.now result }
{
    let l = kept::next_kept(src, at);
    Cursor {
        at: at as u16,
        kind: l.kind,
        start: l.start as u16,
        end: l.end as u16,
    }
}

// Parser::eat_any
pub fn eat_any(src: &[u8], c: Cursor) -> Cursor
    requires { Stands src.now c }
    ensures { Moved src.now c result }
{
    cursor_at(src, c.end as usize)
}

// Parser::error: broken off here, with 01's number and detail.
pub fn error(c: Cursor, number: u8, detail: usize) -> Answer
    ensures { result ≡ Err (record { number = number; place = c; detail = detail }) }
{
    Err(Refusal {
        number,
        place: c,
        detail,
    })
}

// Parser::eat
pub fn eat(src: &[u8], c: Cursor, w: usize, kind: u8) -> Answer
    requires { (EOF < kind) × Stands src.now c }
    ensures { Eats src.now kind c w result }
{
    if c.kind == kind {
        return Ok(Done(eat_any(src, c), w, 0));
    }
    error(c, Number::WANTED, kind as usize)
}

// args: whether a name and `=` stand next, as 1 or 0.
// Kept: the number is counted, `named += k`; a flag would be cast to a number at each of its three uses.
pub fn named_at(src: &[u8], c: Cursor) -> usize
    requires { Stands src.now c }
    ensures { Named src.now c result }
{
    if c.kind != Kind::IDENT {
        return 0;
    }
    let c1 = eat_any(src, c);
    if c1.kind != Kind::ASSIGN {
        return 0;
    }
    1
}

// for_spec: whether `[`, a name, `]` and `:` stand next under their switch.
pub fn header_at(src: &[u8], c: Cursor, set: u64) -> bool
    requires { Stands src.now c }
    ensures { Header set src.now c result }
{
    if !settings::has_object_iteration(set) {
        return false;
    }
    if c.kind != Kind::L_BRACK {
        return false;
    }
    let c1 = eat_any(src, c);
    if c1.kind != Kind::IDENT {
        return false;
    }
    let c2 = eat_any(src, c1);
    if c2.kind != Kind::R_BRACK {
        return false;
    }
    let c3 = eat_any(src, c2);
    c3.kind == Kind::COLON
}

// expr_suffix: whether a suffix stands next.
pub fn suffix_at(kind: u8, set: u64) -> bool
    ensures { Suffixed set kind result }
{
    if kind == Kind::QUESTION_MARK {
        return settings::has_null_coaelse(set);
    }
    matches!(
        kind,
        Kind::DOT | Kind::L_BRACK | Kind::L_PAREN | Kind::L_BRACE
    )
}
