#![tactic(auto)]
// What `readtree` prints for the files that the arguments name. Then all sources of up to three lexemes, under each setting: how many there are,
// and a checksum of all their answers, as the judge prints them (vectors/exhaustive.txt). They are counted through, the last lexeme fastest.
ghost use Rattle.std.specs.Prelude.{◌≡◌, length};

mod files;

use desk::text::Text;
use desk::{Language, questions};
use sums::Sum;
use system::Output;

// The lexemes that the sources are made of.
const LEXEMES: [&str; SIZE] = [
    "a", "1", "\"a\"", "null", "+", "==", "-", "??", "(", ")", "[", "]", "{", "}", ":", ";", ".",
    "...", ",", "=", "?", "if", "then", "else", "for", "in", "local", "assert", "function",
    "error",
];

const SIZE: usize = 30;

// More than the longest source, than its image, and than the line of its answer.
const SOURCE: usize = 64;

const OUTPUT: usize = 256;

const TEXT: usize = 1024;

// The n-th source of so many lexemes, a space between them.
fn put_source(source: &mut Text, count: usize, n: usize)
    ensures { length source.new.room.now ≡ length source.old.room.now }
{
    let lexemes = [n / SIZE / SIZE, n / SIZE, n];
    for i in lexemes.iter().skip(3usize.saturating_sub(count)) {
        if !source.as_slice().is_empty() {
            source.put(" ");
        }
        source.put(LEXEMES[*i % SIZE]);
    }
}

// The line of the answer to a source.
fn feed_answer(sum: &mut Sum, setting: u64, source: &[u8]) {
    let mut output = [0u8; OUTPUT];
    let mut buffer = [0u8; TEXT];
    let mut text = Text::new(&mut buffer);
    questions::answer_into(Language::Jsonnet(setting), source, &mut output, &mut text);
    sum.feed(text.as_slice());
}

// How many sources there are of a length, and their sum.
fn print_sum(out: &mut Output, setting: u64, length: usize, count: usize) {
    let mut sum = Sum::new();
    for n in 0..count {
        let mut buffer = [0u8; SOURCE];
        let mut source = Text::new(&mut buffer);
        put_source(&mut source, length, n);
        feed_answer(&mut sum, setting, source.as_slice());
    }
    out.print(format_args!("sources {setting}"));
    sum.report(out, length, count);
}

fn print_sums(out: &mut Output, setting: u64) {
    print_sum(out, setting, 0, 1);
    print_sum(out, setting, 1, 30);
    print_sum(out, setting, 2, 900);
    print_sum(out, setting, 3, 27_000);
}

fn main(rt: HostRuntime) {
    files::read_all(&rt);
    let mut out = Output::new(&rt);
    for setting in 0..16 {
        print_sums(&mut out, setting);
    }
}
