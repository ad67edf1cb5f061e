// The lexeme at a place of the source: the scanner for the class of its first byte, and blocks.
ghost use Rattle.std.specs.Prelude.{◌≡◌, ℕ, ◌<◌, length, get_or};
ghost use Rattle.lexemes.specs.Lexeme.{Ruled, LexemeAt, lexeme, fault_kind, block_kind, block_end};
ghost use Rattle.lexemes.specs.Scan.{class_of, class_number};

use super::bytes::Class;
use super::kinds::Kind;
use super::{Lexeme, Matched, at, bytes, comments, numbers, operators, quoted, words};
use blocks::{Block, BlockFault};

// The class of a byte.
// Kept as a match with an arm for each byte: with ranges it takes 2.4 instructions a byte of a run file more, and a table of classes 0.4.
#[tactic(auto, unfolding(crate::specs::Scan::class_of, crate::specs::Scan::ascii_class))]
pub fn class_by(b: u8) -> Class
    ensures { class_number result ≡ class_of b }
{
    match b {
        b' ' => Class::Blank,
        b'\t' => Class::Blank,
        b'\n' => Class::Blank,
        b'\r' => Class::Blank,
        b'0' => Class::Zero,
        b'1' => Class::Digit,
        b'2' => Class::Digit,
        b'3' => Class::Digit,
        b'4' => Class::Digit,
        b'5' => Class::Digit,
        b'6' => Class::Digit,
        b'7' => Class::Digit,
        b'8' => Class::Digit,
        b'9' => Class::Digit,
        b'"' => Class::Double,
        b'\'' => Class::Single,
        b'@' => Class::At,
        b'#' => Class::Hash,
        b'/' => Class::Slash,
        _ => {
            if bytes::is_alpha(b) {
                return Class::Alpha;
            }
            if operators::single_kind(b).is_some() {
                return Class::Operator;
            }
            Class::Other
        }
    }
}

fn blank_at(src: &[u8], at: usize) -> Matched
    requires { (at < length src.now) × (class_of (get_or src.now at 0) ≡ 4) }
    ensures { Ruled src.now at result.kind result.end }
{
    Matched {
        kind: Kind::WHITESPACE,
        end: bytes::blanks(src, at + 1),
    }
}

// A character that no rule takes.
fn error_at(src: &[u8], at: usize) -> Matched
    requires { (at < length src.now) × (class_of (get_or src.now at 0) ≡ 0) }
    ensures { Ruled src.now at result.kind result.end }
{
    Matched {
        kind: Kind::LEXING_ERROR,
        end: bytes::after(src, at),
    }
}

// What the rules match at a place of the source, where the byte has a class.
pub fn matched_at(src: &[u8], at: usize, class: Class) -> Matched
    requires { (at < length src.now) × (class_number class ≡ class_of (get_or src.now at 0)) }
    ensures { Ruled src.now at result.kind result.end }
{
    match class {
        Class::Alpha => words::word_at(src, at),
        // Kept apart from the next: as one arm a run file takes 1.4 instructions a byte more.
        Class::Digit => numbers::number_at(src, at),
        Class::Zero => numbers::number_at(src, at),
        Class::Blank => blank_at(src, at),
        Class::Double => quoted::string_at(src, at, b'"', Kind::STRING_DOUBLE),
        Class::Single => quoted::string_at(src, at, b'\'', Kind::STRING_SINGLE),
        Class::At => at::at_sign(src, at),
        Class::Hash => comments::hash_at(src, at),
        Class::Slash => comments::slash_at(src, at),
        Class::Operator => operators::operator_at(src, at),
        Class::Other => error_at(src, at),
    }
}

fn of_fault(fault: BlockFault) -> u8
    ensures { result ≡ fault_kind fault }
{
    match fault {
        BlockFault::UnexpectedEnd => Kind::ERROR_STRING_BLOCK_UNEXPECTED_END,
        BlockFault::MissingNewLine => Kind::ERROR_STRING_BLOCK_MISSING_NEW_LINE,
        BlockFault::MissingTermination => Kind::ERROR_STRING_BLOCK_MISSING_TERMINATION,
        BlockFault::MissingIndent => Kind::ERROR_STRING_BLOCK_MISSING_INDENT,
    }
}

// A block's lexeme, which began at `at`: its kind by its fault.
fn of_block(at: usize, b: Block) -> Lexeme
    ensures { result ≡ lexeme (block_kind b) at (block_end b) }
{
    let (kind, end) = match b {
        Ok(end) => (Kind::STRING_BLOCK, end),
        Err(bad) => (of_fault(bad.fault), bad.end),
    };
    Lexeme {
        kind,
        start: at,
        end,
    }
}

// The lexeme of what the rules match at a place: a `|||` goes on as a block.
pub fn lexeme_of(src: &[u8], at: usize, m: Matched) -> Lexeme
    requires { (at < length src.now) × Ruled src.now at m.kind m.end }
    ensures { LexemeAt src.now at result }
{
    let kind = m.kind;
    let end = m.end;
    if kind != Kind::STRING_BLOCK {
        return Lexeme {
            kind,
            start: at,
            end,
        };
    }
    of_block(at, blocks::block_at(src, end))
}
