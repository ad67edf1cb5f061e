#![tactic(auto)]
// All sources of up to three characters of an alphabet that touches every rule: how many there are, and a checksum of all their lexemes, as
// the judge prints them (vectors/exhaustive.txt). They are counted through, the last character fastest. The sum is FNV-1a with 64 bits over
// lines `KIND:START:END ...`, a line feed after each; the source with no lexeme is the line `-`.
use std::fmt::Write;
use std::io;
use sums::Sum;
use system::Output;

const SIZE: usize = 46;

// The characters. The last three have two, three and four bytes.
const ALPHABET: [char; SIZE] = [
    '|',
    '?',
    '&',
    '^',
    '=',
    '!',
    '<',
    '>',
    '+',
    '-',
    '*',
    '/',
    '%',
    '~',
    '[',
    ']',
    '(',
    ')',
    '{',
    '}',
    ':',
    ';',
    '.',
    ',',
    '$',
    '0',
    '1',
    'e',
    '_',
    '"',
    '\'',
    '\\',
    '@',
    'i',
    'f',
    'n',
    'o',
    'r',
    ' ',
    '\t',
    '\n',
    '\r',
    '#',
    '\u{E9}',
    '\u{2028}',
    '\u{1F600}',
];

// The line of a source.
fn feed_line(sum: &mut Sum, source: &[u8]) {
    if source.is_empty() {
        sum.feed(b"-");
    }
    let mut at = 0;
    while at < source.len() {
        let l = lexemes::lexer::lexeme_at(source, at);
        if at > 0 {
            sum.feed(b" ");
        }
        let _ = write!(sum, "{}:{}:{}", l.kind, l.start, l.end);
        at = l.end;
    }
    sum.feed(b"\n");
}

// The n-th source of a length, at the start of a text; how much room is left behind it.
fn put_source(text: &mut [u8], length: usize, n: usize) -> usize {
    let mut rest: &mut [u8] = text;
    let characters = [n / SIZE / SIZE, n / SIZE, n];
    for i in characters.iter().skip(3usize.saturating_sub(length)) {
        let _ = io::Write::write_fmt(&mut rest, ALPHABET[*i % SIZE]);
    }
    rest.len()
}

// How many sources there are of a length, and their sum.
fn print_all(out: &mut Output, length: usize, count: usize) {
    let mut sum = Sum::new();
    for n in 0..count {
        let mut text = [0u8; 16];
        let left = put_source(&mut text, length, n);
        feed_line(&mut sum, &text[..text.len().saturating_sub(left)]);
    }
    out.write(b"lexemes");
    sum.report(out, length, count);
}

fn main(rt: HostRuntime) {
    let mut out = Output::new(&rt);
    print_all(&mut out, 0, 1);
    print_all(&mut out, 1, 46);
    print_all(&mut out, 2, 2116);
    print_all(&mut out, 3, 97336);
}
