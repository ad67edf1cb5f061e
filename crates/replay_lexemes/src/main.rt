#![tactic(auto)]
// Replays vectors/lexemes.txt, what the judge says of sources: lines `HEX KIND:START:END ...`, all lexemes of the source, blanks and
// comments among them, or `-` where there are none.
use lexemes::Lexeme;
use lists::Tally;
use system::{Output, Source};

// Room for the longest source of the list, in bytes.
const ROOM: usize = 8192;

// Room for the whole list.
const TEXT: usize = 524_288;

// A number of a word.
fn number(digits: &[u8]) -> usize {
    digits
        .iter()
        .fold(0, |n, b| n % 100_000 * 10 + usize::from(*b % 16))
}

fn lexeme_agrees(word: &[u8], l: &Lexeme) -> bool {
    let mut numbers = word.split(|b| *b == b':').map(|digits| number(digits));
    numbers.next() == Some(l.kind as usize)
        && numbers.next() == Some(l.start)
        && numbers.next() == Some(l.end)
}

// Whether the lexemes of a source are the line's, word by word.
fn source_agrees(source: &[u8], line: &[u8]) -> bool {
    if source.is_empty() {
        return lists::field(line, 2).is_empty();
    }
    let mut words = line.split(|b| *b == b' ').skip(1);
    let mut at = 0;
    while at < source.len() {
        let l = lexemes::lexer::lexeme_at(source, at);
        let word = words.next().unwrap_or(&[]);
        if !lexeme_agrees(word, &l) {
            return false;
        }
        at = l.end;
    }
    words.next().unwrap_or(&[]).is_empty()
}

fn line_agrees(line: &[u8]) -> bool {
    let mut bytes = [0u8; ROOM];
    let source = lists::unhex(lists::field(line, 0), &mut bytes);
    source_agrees(source, line)
}

// The buffer comes as a reference to an array: a proof that lent it as a slice where it is made would count its bytes one by one.
fn run(rt: &HostRuntime, text: &mut [u8; TEXT]) {
    let n = Source::standard_input(rt).read_full(text);
    let tally = Tally::of_lines(&text[..n], |line| line_agrees(line));
    tally.report(&mut Output::new(rt), "sources");
}

fn main(rt: HostRuntime) {
    let mut text = [0u8; TEXT];
    run(&rt, &mut text);
}
