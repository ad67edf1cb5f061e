// Operators and punctuation: one byte, two, or three.
ghost use Rattle.std.specs.Prelude.{◌≡◌, ℕ, ◌+◌, ◌≤◌, ◌<◌, length, get_or};
ghost use Rattle.lexemes.specs.Lexeme.{Ruled};
ghost use Rattle.lexemes.specs.Scan.{class_of, named, single, pair, Lone};

use super::kinds::Kind;
use super::{Matched, bytes};

// The kind of the operator that is the byte b alone; None where none is.
#[tactic(auto, unfolding(crate::specs::Scan::single))]
pub fn single_kind(b: u8) -> Option<u8>
    ensures { result ≡ named (single b) }
{
    match b {
        b'|' => Some(Kind::BIT_OR),
        b'^' => Some(Kind::BIT_XOR),
        b'&' => Some(Kind::BIT_AND),
        b'<' => Some(Kind::LT),
        b'>' => Some(Kind::GT),
        b'+' => Some(Kind::PLUS),
        b'-' => Some(Kind::MINUS),
        b'*' => Some(Kind::MUL),
        b'%' => Some(Kind::MODULO),
        b'!' => Some(Kind::NOT),
        b'~' => Some(Kind::BIT_NOT),
        b'[' => Some(Kind::L_BRACK),
        b']' => Some(Kind::R_BRACK),
        b'(' => Some(Kind::L_PAREN),
        b')' => Some(Kind::R_PAREN),
        b'{' => Some(Kind::L_BRACE),
        b'}' => Some(Kind::R_BRACE),
        b':' => Some(Kind::COLON),
        b';' => Some(Kind::SEMI),
        b'.' => Some(Kind::DOT),
        b',' => Some(Kind::COMMA),
        b'$' => Some(Kind::DOLLAR),
        b'=' => Some(Kind::ASSIGN),
        b'?' => Some(Kind::QUESTION_MARK),
        _ => None,
    }
}

// The kind of an operator of two bytes that begins with b and ends with c; None where there is none.
#[tactic(auto, unfolding(crate::specs::Scan::pair))]
fn pair_kind(b: u8, c: u8) -> Option<u8>
    ensures { result ≡ named (pair b c) }
{
    if c == b'=' {
        return match b {
            b'=' => Some(Kind::EQ),
            b'!' => Some(Kind::NE),
            b'<' => Some(Kind::LE),
            b'>' => Some(Kind::GE),
            _ => None,
        };
    }
    if b != c {
        return None;
    }
    match b {
        b'|' => Some(Kind::OR),
        b'?' => Some(Kind::NULL_COAELSE),
        b'&' => Some(Kind::AND),
        b'<' => Some(Kind::LHS),
        b'>' => Some(Kind::RHS),
        _ => None,
    }
}

// The kind of the operator that is the byte b alone and that begins no longer one; None where more has to be seen, or none is.
// Kept as a list of its own: with `_ => single_kind(b)` behind the others a run file takes 12 instructions a byte more.
pub fn lone_kind(b: u8) -> Option<u8>
    ensures { Lone b result }
{
    match b {
        b',' => Some(Kind::COMMA),
        b':' => Some(Kind::COLON),
        b'[' => Some(Kind::L_BRACK),
        b']' => Some(Kind::R_BRACK),
        b'(' => Some(Kind::L_PAREN),
        b')' => Some(Kind::R_PAREN),
        b'{' => Some(Kind::L_BRACE),
        b'}' => Some(Kind::R_BRACE),
        b';' => Some(Kind::SEMI),
        b'$' => Some(Kind::DOLLAR),
        b'+' => Some(Kind::PLUS),
        b'-' => Some(Kind::MINUS),
        b'*' => Some(Kind::MUL),
        b'%' => Some(Kind::MODULO),
        _ => None,
    }
}

// A dot, or three of them.
fn dot_at(src: &[u8], at: usize) -> Matched
    requires { (at < length src.now) × (get_or src.now at 0 ≡ 46) }
    ensures { Ruled src.now at result.kind result.end }
{
    if bytes::peek(src, at + 1) != b'.' {
        return Matched {
            kind: Kind::DOT,
            end: at + 1,
        };
    }
    if bytes::peek(src, at + 2) == b'.' {
        return Matched {
            kind: Kind::DOTDOTDOT,
            end: at + 3,
        };
    }
    Matched {
        kind: Kind::DOT,
        end: at + 1,
    }
}

pub fn operator_at(src: &[u8], at: usize) -> Matched
    requires { (at < length src.now) × (class_of (get_or src.now at 0) ≡ 10) }
    ensures { Ruled src.now at result.kind result.end }
{
    let b = src[at];
    if b == b'.' {
        return dot_at(src, at);
    }
    match pair_kind(b, bytes::peek(src, at + 1)) {
        None => {
            let Some(kind) = single_kind(b) else {
                unreachable!()
            };
            Matched { kind, end: at + 1 }
        }
        Some(Kind::OR) => {
            if bytes::peek(src, at + 2) == b'|' {
                return Matched {
                    kind: Kind::STRING_BLOCK,
                    end: at + 3,
                };
            }
            Matched {
                kind: Kind::OR,
                end: at + 2,
            }
        }
        Some(kind) => Matched { kind, end: at + 2 },
    }
}
