#![tactic(auto)]
// Whether two sources have the same kept lexemes, in kind and text, and where they part.
ghost use Rattle.std.specs.Prelude.{◌≤◌, length};
ghost use Rattle.lexemes.specs.Same.{SameLexeme};
ghost use Rattle.lexemes.specs.Scan.{Says};
ghost use Rattle.same.specs.Parting.{FirstDifference};

use lexemes::kinds::Kind;
use lexemes::{Lexeme, kept};

// Whether two lexemes agree in kind and text.
fn same_lexeme(left: &[u8], l: &Lexeme, right: &[u8], m: &Lexeme) -> bool
    requires { (l.now.start ≤ l.now.end) × (l.now.end ≤ length left.now) × (m.now.start ≤ m.now.end) × (m.now.end ≤ length right.now) }
    ensures { Says result (SameLexeme left.now right.now l.now m.now) }
{
    l.kind == m.kind && left[l.start..l.end] == right[m.start..m.end]
}

// The first two kept lexemes that differ, EOF standing for none; nothing where all are the same. Each source is gone through once.
pub fn first_difference(left: &[u8], right: &[u8]) -> Option<(Lexeme, Lexeme)>
    ensures { FirstDifference left.now right.now result }
{
    let mut i = 0;
    let mut j = 0;
    loop {
        let l = kept::next_kept(left, i);
        let m = kept::next_kept(right, j);
        if !same_lexeme(left, &l, right, &m) {
            return Some((l, m));
        }
        if l.kind == Kind::EOF {
            return None;
        }
        i = l.end;
        j = m.end;
    }
}
