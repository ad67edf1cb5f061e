// Strings in quotes, with escapes.
ghost use Rattle.std.specs.Prelude.{◌≡◌, ℕ, ◌+◌, ◌≤◌, ◌<◌, length, get_or};
ghost use Rattle.lexemes.specs.Lexeme.{Ruled};
ghost use Rattle.lexemes.specs.Scan.{Quote};

use super::{Matched, bytes};

// A string between quotes q has kind `good`; without an end it has the next kind.
pub fn string_at(src: &[u8], at: usize, q: u8, good: u8) -> Matched
    requires { (at < length src.now) × (get_or src.now at 0 ≡ q) × Quote q good }
    ensures { Ruled src.now at result.kind result.end }
{
    let mut i = at + 1;
    while i < src.len() {
        let b = src[i];
        if b == q {
            return Matched {
                kind: good,
                end: i + 1,
            };
        }
        if b == b'\\' {
            // a backslash at the very end is no part of the string
            if src.len() <= i + 1 {
                return Matched {
                    kind: good + 1,
                    end: i,
                };
            }
            i = bytes::after(src, i + 1);
            continue;
        }
        i = bytes::after(src, i);
    }
    Matched {
        kind: good + 1,
        end: i,
    }
}
