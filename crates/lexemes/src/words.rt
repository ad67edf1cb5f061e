// Identifiers and keywords.
ghost use Rattle.std.specs.Prelude.{◌≡◌, List, ℕ, ◌+◌, ◌≤◌, ◌<◌, length, get_or};
ghost use Rattle.lexemes.specs.Scan.{class_of};
ghost use Rattle.lexemes.specs.Lexeme.{Ruled};
ghost use Rattle.lexemes.specs.Texts.{TellsKeyword};
ghost use Rattle.lexemes.specs.Words.{Makes, KeywordAt};

use super::kinds::Kind;
use super::{Matched, bytes};

// So many bytes of the source as one number, the first one lowest: the processor loads them at once, and a word is compared at once.
fn one(src: &[u8], at: usize) -> u64
    requires { at + 1 ≤ length src.now }
    ensures { Makes src.now at 1 result }
{
    wide(src[at])
}

fn wide(b: u8) -> u64
    ensures { (result ≡ b) × (b < 256) }
{
    b as u64
}

fn two(src: &[u8], at: usize) -> u64
    requires { at + 2 ≤ length src.now }
    ensures { Makes src.now at 2 result }
{
    one(src, at) + one(src, at + 1) * 0x100
}

fn three(src: &[u8], at: usize) -> u64
    requires { at + 3 ≤ length src.now }
    ensures { Makes src.now at 3 result }
{
    two(src, at) + one(src, at + 2) * 0x10000
}

fn four(src: &[u8], at: usize) -> u64
    requires { at + 4 ≤ length src.now }
    ensures { Makes src.now at 4 result }
{
    two(src, at) + two(src, at + 2) * 0x10000
}

fn five(src: &[u8], at: usize) -> u64
    requires { at + 5 ≤ length src.now }
    ensures { Makes src.now at 5 result }
{
    four(src, at) + one(src, at + 4) * 0x100000000
}

fn six(src: &[u8], at: usize) -> u64
    requires { at + 6 ≤ length src.now }
    ensures { Makes src.now at 6 result }
{
    four(src, at) + two(src, at + 4) * 0x100000000
}

fn eight(src: &[u8], at: usize) -> u64
    requires { at + 8 ≤ length src.now }
    ensures { Makes src.now at 8 result }
{
    four(src, at) + four(src, at + 4) * 0x100000000
}

// The kind of a word of two bytes, and so on: of so many bytes as a number has room for.
fn of_two(src: &[u8], at: usize) -> u8
    requires { at + 2 ≤ length src.now }
    ensures { KeywordAt src.now at (at + 2) result }
{
    let v = two(src, at);
    match v {
        0x6669 => Kind::IF_KW, // if
        0x6E69 => Kind::IN_KW, // in
        _ => Kind::IDENT,
    }
}

fn of_three(src: &[u8], at: usize) -> u8
    requires { at + 3 ≤ length src.now }
    ensures { KeywordAt src.now at (at + 3) result }
{
    let v = three(src, at);
    match v {
        0x726F66 => Kind::FOR_KW, // for
        _ => Kind::IDENT,
    }
}

fn of_four(src: &[u8], at: usize) -> u8
    requires { at + 4 ≤ length src.now }
    ensures { KeywordAt src.now at (at + 4) result }
{
    let v = four(src, at);
    match v {
        0x6E656874 => Kind::THEN_KW, // then
        0x65736C65 => Kind::ELSE_KW, // else
        0x6C6C756E => Kind::NULL_KW, // null
        0x65757274 => Kind::TRUE_KW, // true
        0x666C6573 => Kind::SELF_KW, // self
        _ => Kind::IDENT,
    }
}

fn of_five(src: &[u8], at: usize) -> u8
    requires { at + 5 ≤ length src.now }
    ensures { KeywordAt src.now at (at + 5) result }
{
    let v = five(src, at);
    match v {
        0x6C61636F6C => Kind::LOCAL_KW, // local
        0x726F727265 => Kind::ERROR_KW, // error
        0x65736C6166 => Kind::FALSE_KW, // false
        0x7265707573 => Kind::SUPER_KW, // super
        _ => Kind::IDENT,
    }
}

fn of_six(src: &[u8], at: usize) -> u8
    requires { at + 6 ≤ length src.now }
    ensures { KeywordAt src.now at (at + 6) result }
{
    let v = six(src, at);
    match v {
        0x74726F706D69 => Kind::IMPORT_KW, // import
        0x747265737361 => Kind::ASSERT_KW, // assert
        _ => Kind::IDENT,
    }
}

fn of_eight(src: &[u8], at: usize) -> u8
    requires { at + 8 ≤ length src.now }
    ensures { KeywordAt src.now at (at + 8) result }
{
    let v = eight(src, at);
    match v {
        0x6E6F6974636E7566 => Kind::FUNCTION_KW, // function
        _ => Kind::IDENT,
    }
}

// The kind of a longer one, of nine bytes or ten: the first eight, and the rest.
fn of_nine(src: &[u8], at: usize) -> u8
    requires { at + 9 ≤ length src.now }
    ensures { KeywordAt src.now at (at + 9) result }
{
    let v = eight(src, at);
    let last = one(src, at + 8);
    if v == 0x747374726F706D69 {
        // importst
        if last == 0x72 {
            return Kind::IMPORTSTR_KW;
        }
        return Kind::IDENT;
    }
    if v == 0x696274726F706D69 {
        // importbi
        if last == 0x6E {
            return Kind::IMPORTBIN_KW;
        }
        return Kind::IDENT;
    }
    Kind::IDENT
}

fn of_ten(src: &[u8], at: usize) -> u8
    requires { at + 10 ≤ length src.now }
    ensures { KeywordAt src.now at (at + 10) result }
{
    let v = eight(src, at);
    let rest = two(src, at + 8);
    if v == 0x697274736C696174 {
        // tailstri
        if rest == 0x7463 {
            return Kind::TAILSTRICT_KW;
        }
        return Kind::IDENT;
    }
    Kind::IDENT
}

// The kind of the word from `at` to `end`, by its length.
fn keyword(src: &[u8], at: usize, end: usize) -> u8
    requires { (at < end) × (end ≤ length src.now) }
    ensures { KeywordAt src.now at end result }
{
    let n = end - at;
    match n {
        2 => of_two(src, at),
        3 => of_three(src, at),
        4 => of_four(src, at),
        5 => of_five(src, at),
        6 => of_six(src, at),
        8 => of_eight(src, at),
        9 => of_nine(src, at),
        10 => of_ten(src, at),
        _ => Kind::IDENT,
    }
}

// Whether a text is a keyword.
pub fn is_keyword(text: &[u8]) -> bool
    ensures { TellsKeyword text.now result }
{
    if text.len() == 0 {
        return false;
    }
    if keyword(text, 0, text.len()) == Kind::IDENT {
        return false;
    }
    true
}

pub(crate) fn word_at(src: &[u8], at: usize) -> Matched
    requires { (at < length src.now) × (class_of (get_or src.now at 0) ≡ 1) }
    ensures { Ruled src.now at result.kind result.end }
{
    let end = bytes::word_end(src, at + 1);
    let kind = keyword(src, at, end);
    Matched { kind, end }
}
