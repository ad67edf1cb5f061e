// The lexeme at a place of the source.
ghost use Rattle.lexemes.specs.Lexeme.{LexemeAt};

use super::kinds::Kind;
use super::{Lexeme, bytes, scan};

// Past the end of the source that is EOF, with no character.
pub fn lexeme_at(src: &[u8], at: usize) -> Lexeme
    ensures { LexemeAt src.now at result }
{
    if src.len() <= at {
        return Lexeme {
            kind: Kind::EOF,
            start: at,
            end: at,
        };
    }
    let class = bytes::class_of(src[at]);
    scan::lexeme_of(src, at, scan::matched_at(src, at, class))
}
