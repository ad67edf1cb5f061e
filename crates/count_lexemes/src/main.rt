#![tactic(auto)]
// How many kept lexemes the source on standard input has: lexing alone, to be measured by bench/lexemes.
ghost use Rattle.std.specs.Prelude.{◌≤◌, length};

use lexemes::kinds::Kind;
use system::{Output, Source};

fn count(src: &[u8]) -> usize
    ensures { result ≤ length src.now }
{
    let mut n = 0;
    let mut at = 0;
    loop {
        let l = lexemes::kept::next_kept(src, at);
        if l.kind == Kind::EOF {
            return n;
        }
        at = l.end;
        n += 1;
    }
}

fn main(rt: HostRuntime) {
    let mut source = [0u8; 65_536];
    let n = Source::standard_input(&rt).read_full(&mut source);
    Output::new(&rt).print(format_args!("{}\n", count(&source[..n])));
}
