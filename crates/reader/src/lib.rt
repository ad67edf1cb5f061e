#![tactic(auto)]
// The reader: a setting, a source, a lent output, and the whole answer of document 01.
ghost use Rattle.std.specs.Prelude.{◌≡◌, true, length, Err};
ghost use Rattle.grammar.specs.Numbers.{met_with};
ghost use Rattle.reader.specs.Five.{five as five01};
ghost use Rattle.reader.specs.Reader.{numbers as numbers01, refusal as refusal01, tree_of as tree01, written as written01, answered, Admitted, Parses, Finds, Reads};

use grammar::numbers::Number;
use grammar::settings;
use leaves::parser::{END, cursor_at, error};
use leaves::{Answer, Refusal};
use lexemes::kept;
use lexemes::kinds::Kind;

// Why a source has no tree to hand out: the cases are named as their numbers (grammar::numbers), each with its place and its detail. A detail
// may be an offset of the source, so it is as wide as a place.
#[derive(Clone, Copy)]
pub enum Unread {
    Setting,
    Long,
    Encoding(usize), // the bytes valid so far
    Lexeme(usize, usize, u8), // the first bad one and its kind
    Wanted(usize, usize, usize), // a kind
    Absent(usize, usize, usize), // a field name or a pattern
    Expression(usize, usize),
    Misplaced(usize, usize, usize), // an argument, or what a comprehension cannot have
    Escape(usize, usize, usize), // the backslash of the first bad escape
    Depth(usize, usize),
    Room(usize), // the length needed
    Large(usize, usize), // a number
}

// What becomes of a source: the image's length, or why there is none.
pub type Reading = Result<usize, Unread>;

// 01's limits: the longest source, and how deep phrases may nest.
const LONGEST: usize = 65_000;

const DEPTH: usize = 200;

// A phrase's refusal, by its number.
fn refused(r: Refusal) -> Unread
    requires { met_with r.number r.detail ≡ true }
    ensures { numbers01 (Err result) ≡ refusal01 r.number r.place.start r.place.end r.detail }
{
    let place = r.place;
    let start = place.start as usize;
    let end = place.end as usize;
    let number = r.number;
    let detail = r.detail;
    match number {
        Number::WANTED => Unread::Wanted(start, end, detail),
        Number::ABSENT => Unread::Absent(start, end, detail),
        Number::EXPRESSION => Unread::Expression(start, end),
        Number::MISPLACED => Unread::Misplaced(start, end, detail),
        Number::ESCAPE => Unread::Escape(start, end, detail),
        Number::LARGE => Unread::Large(start, end),
        _ => Unread::Depth(start, end),
    }
}

// parse: an expression, and then no lexeme more. The image stands in the output, as far as it has room.
fn parse(setting: u64, source: &[u8], output: &mut [u8]) -> Answer
    requires { Admitted setting source.now }
    ensures { Parses setting source.now output.old result output.new }
{
    let done = phrases::expr(source, output, cursor_at(source, 0), 0, DEPTH, setting, 0)?;
    if done.0.kind != Kind::EOF {
        return error(done.0, Number::WANTED, END);
    }
    Ok(done)
}

// The answer, in 01's order. A bad lexeme is looked for only where the phrases refuse: no phrase takes one, so a source that has a tree
// has none. Beyond the image the output may hold anything yet.
fn find(setting: u64, source: &[u8], output: &mut [u8]) -> Reading
    ensures { Finds setting source.now output.old result output.new }
{
    let known = settings::valid(setting);
    if !known {
        return Err(Unread::Setting);
    }
    if LONGEST < source.len() {
        return Err(Unread::Long);
    }
    let valid = strings::utf8::valid_to(source);
    if valid < source.len() {
        return Err(Unread::Encoding(valid));
    }
    match parse(setting, source, output) {
        Err(r) => {
            let bad = kept::first_bad(source);
            if bad.kind != Kind::EOF {
                return Err(Unread::Lexeme(bad.start, bad.end, bad.kind));
            }
            Err(refused(r))
        }
        Ok(done) => {
            let w = done.1;
            if output.len() < w {
                return Err(Unread::Room(w));
            }
            Ok(w)
        }
    }
}

// How many bytes of the output are the image's.
#[tactic(auto, unfolding(crate::specs::Reader::written, crate::specs::Reader::numbers))]
fn written(r: Reading) -> usize
    ensures { result ≡ written01 r }
{
    match r {
        Ok(n) => n,
        Err(_) => 0,
    }
}

// A source read under a setting into a lent output: what is beyond the image is cleared.
pub fn read(setting: u64, source: &[u8], output: &mut [u8]) -> Reading
    ensures { Reads setting source.now output.old result output.new }
{
    let r = find(setting, source, output);
    let n = written(r);
    strings::clear(&mut output[n..]);
    r
}

// What 01 hands back.
#[derive(Clone, Copy)]
pub struct Fields {
    pub number: u64,
    pub start: u64,
    pub end: u64,
    pub detail: u64,
    pub length: u64,
}

fn refusal(number: u8, start: usize, end: usize, detail: usize) -> Fields
    ensures { answered result ≡ refusal01 number start end detail }
{
    Fields {
        number: number as u64,
        start: start as u64,
        end: end as u64,
        detail: detail as u64,
        length: 0,
    }
}

// A tree that is there: written, or without room.
fn tree(number: u8, length: usize) -> Fields
    ensures { answered result ≡ tree01 number length }
{
    Fields {
        number: number as u64,
        start: 0,
        end: 0,
        detail: 0,
        length: length as u64,
    }
}

// An answer as 01 numbers it.
#[tactic(auto, unfolding(crate::specs::Reader::numbers))]
pub fn numbers(r: Reading) -> Fields
    ensures { answered result ≡ numbers01 r }
{
    match r {
        Ok(n) => tree(Number::TREE, n),
        Err(Unread::Setting) => refusal(Number::SETTING, 0, 0, 0),
        Err(Unread::Long) => refusal(Number::LONG, 0, 0, 0),
        Err(Unread::Encoding(n)) => refusal(Number::ENCODING, n, n, 0),
        Err(Unread::Lexeme(a, e, k)) => refusal(Number::LEXEME, a, e, k as usize),
        Err(Unread::Wanted(a, e, k)) => refusal(Number::WANTED, a, e, k),
        Err(Unread::Absent(a, e, d)) => refusal(Number::ABSENT, a, e, d),
        Err(Unread::Expression(a, e)) => refusal(Number::EXPRESSION, a, e, 0),
        Err(Unread::Misplaced(a, e, d)) => refusal(Number::MISPLACED, a, e, d),
        Err(Unread::Escape(a, e, d)) => refusal(Number::ESCAPE, a, e, d),
        Err(Unread::Depth(a, e)) => refusal(Number::DEPTH, a, e, 0),
        Err(Unread::Room(n)) => tree(Number::ROOM, n),
        Err(Unread::Large(a, e)) => refusal(Number::LARGE, a, e, 0),
    }
}

// The same as a list, as C and lists of answers have it.
pub fn five(r: Reading) -> [u64; 5]
    ensures { (length result ≡ 5) × (five01 result ≡ numbers01 r) }
{
    let f = numbers(r);
    [f.number, f.start, f.end, f.detail, f.length]
}
