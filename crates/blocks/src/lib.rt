#![tactic(auto)]
// Text blocks (string_block.rs): where one ends or what is wrong with it, and its text.
ghost use Rattle.std.specs.Prelude.{◌≡◌, ◌+◌, ◌-◌, ◌≤◌, ◌<◌, ◌^◌, ℕ, Bool, true, length, drop};
ghost use Rattle.std.proofs.lemmas.List.Edits.{sets};
ghost use Rattle.std.proofs.Math.Seq.{slice};
ghost use Rattle.strings.specs.Decoding.{Decoding, Missing};
ghost use Rattle.blocks.specs.Blocks.{LineFeed, Blank, InLine, BlockAt, BlockText};
ghost use Rattle.blocks.specs.Inside.{Spans, Dashed, SoughtTo, BarsAt, StartsAt, feeds, ClosedAt, BodyAt, Walked};

use strings::{Decoded, Refused};

// What is wrong with a block.
#[derive(Clone, Copy, Debug, PartialEq, Eq)]
pub enum BlockFault {
    UnexpectedEnd,
    MissingNewLine,
    MissingTermination,
    MissingIndent,
}

impl BlockFault {
    fn at(self, end: usize) -> BlockError
        ensures { result ≡ record { fault = self; end = end } }
    {
        BlockError { fault: self, end }
    }
}

// A bad block: what is wrong with it, and where its lexeme ends.
#[derive(Clone, Copy, Debug, PartialEq, Eq)]
pub struct BlockError {
    pub fault: BlockFault,
    pub end: usize,
}

// What stands after `|||`: the end of a good block's lexeme, or a bad block.
pub type Block = Result<usize, BlockError>;

// A good block: where its lexeme ends, and how long its text is.
#[derive(Clone, Copy)]
struct Good {
    end: usize,
    text: usize,
}

// Kept: each function below takes a place of the source and most answer with a later one; a struct of both, with the fact that the place is within,
// would be made anew for each call and taken apart behind it.
fn skip_dash(source: &[u8], at: usize) -> usize
    requires { at ≤ length source.now }
    ensures { Dashed source.now at result }
{
    if at < source.len() && source[at] == b'-' {
        at + 1
    } else {
        at
    }
}

// The place after the run of bytes from `from` on that pass the test: that of the first other byte, or the source's end.
fn skip<F: Fn(u8) -> bool>(source: &[u8], from: usize, passes: F) -> usize
    requires inside { from ≤ length source.now }
    requires callable { F.IsAlwaysCallable passes }
    ensures bounds { (from ≤ result) × (result ≤ length source.now) }
    ensures run { (p : ℕ → Bool) → ((b : ℕ) (r : Bool) → F.post passes b r → r ≡ p b) → Spans (λ b. p b ≡ true) source.now from result }
{
    // With `position` on the rest of the source a block of one-letter lines takes 17.3 instructions a byte, with this `for` 14.8; by a count of its own it took 14.0.
    for i in from..source.len() {
        if !passes(source[i]) {
            return i;
        }
    }
    source.len()
}

// Lines of LF alone.
fn skip_empty(source: &[u8], from: usize) -> usize
    requires { from ≤ length source.now }
    ensures { Spans LineFeed source.now from result }
{
    skip(source, from, |b| b == b'\n')
}

fn skip_blanks(source: &[u8], from: usize) -> usize
    requires { from ≤ length source.now }
    ensures { Spans Blank source.now from result }
{
    skip(source, from, |b| matches!(b, b' ' | b'\t'))
}

// An indent of up to so many bytes is compared byte by byte: what `starts_with` takes to begin costs more than that.
const SHORT: usize = 4;

// Whether the line at i starts with the indent, which stands from first to content.
fn check_whitespace(source: &[u8], first: usize, content: usize, i: usize) -> bool
    requires { (first ≤ content) × (content ≤ length source.now) × (i ≤ length source.now) }
    ensures { StartsAt source.now first content i result }
{
    let n = content - first;
    if SHORT < n {
        return source[i..].starts_with(&source[first..content]);
    }
    if source.len() - i < n {
        return false;
    }
    for k in 0..n {
        if source[first + k] != source[i + k] {
            return false;
        }
    }
    true
}

fn bars_at(source: &[u8], i: usize) -> bool
    requires { i ≤ length source.now }
    ensures { BarsAt source.now i result }
{
    source[i..].starts_with(b"|||")
}

// Where a bad block ends: after the next `|||`, or at the source's end. 8.0 instructions a byte, where a loop by hand took 7.0 and a `for` 10.0.
fn eat_error(source: &[u8], from: usize) -> usize
    requires { from ≤ length source.now }
    ensures { SoughtTo source.now from result }
{
    match source[from..]
        .windows(3)
        .position(|bytes| bytes.starts_with(b"|||"))
    {
        Some(n) => from + n + 3,
        None => source.len(),
    }
}

// The place of the line's LF, or the source's end. What stands before it is stored as it is passed, as far as there is room.
fn copy_line(source: &[u8], from: usize, out: &mut [u8], at: usize) -> usize
    requires { from ≤ length source.now }
    ensures { Spans InLine source.now from result × (out.new ≡ sets out.old at (slice from result source.now)) }
{
    for w in at..out.len() {
        let i = from + (w - at);
        let goes_on = i < source.len() && source[i] != b'\n';
        if !goes_on {
            return i;
        }
        out[w] = source[i];
    }
    skip(source, from + out.len().saturating_sub(at), |b| b != b'\n')
}

// So many LFs into the output, as far as it has room; the place after them.
fn put_feeds(out: &mut [u8], at: usize, n: usize) -> usize
    requires { at + n ≤ 2 ^ 63 }
    ensures { (out.new ≡ sets out.old at (feeds n)) × (result ≡ at + n) }
{
    if at < out.len() {
        for k in 0..n {
            strings::put(out, at + k, b'\n');
        }
    }
    at + n
}

// The line after the lines, behind its blanks. The last LFs, lf..next, have still to be written: the last of a text goes for `|||-`.
fn close(
    source: &[u8],
    i: usize,
    lf: usize,
    next: usize,
    dash: bool,
    out: &mut [u8],
    w: usize,
) -> Result<Good, BlockError>
    requires { (w ≤ lf) × (lf < next) × (next ≤ i) × (i ≤ length source.now) }
    ensures { ClosedAt source.now i lf next dash out.old w result out.new }
{
    if !bars_at(source, i) {
        return Err(BlockFault::MissingTermination.at(eat_error(source, i)));
    }
    let last = if dash { next - 1 } else { next };
    let text = put_feeds(out, w, last - lf);
    Ok(Good { end: i + 3, text })
}

// From the header line's end on. The first line that is not empty starts at first, and its content, after the indent, at content.
// A line is written as its LF is sought; that LF and those of the empty lines after it, lf..next, once the line after them is known to go on with
// the indent.
fn lines(
    source: &[u8],
    body: usize,
    first: usize,
    content: usize,
    dash: bool,
    out: &mut [u8],
) -> Result<Good, BlockError>
    requires { Spans LineFeed source.now body first × Spans Blank source.now first content × (first < content) }
    ensures { BodyAt source.now body dash out.old result out.new }
{
    let mut w = put_feeds(out, 0, first - body);
    let mut from = content;
    loop {
        let lf = copy_line(source, from, out, w);
        if lf == source.len() {
            return Err(BlockFault::UnexpectedEnd.at(lf));
        }
        w += lf - from;
        let next = skip_empty(source, lf + 1);
        if !check_whitespace(source, first, content, next) {
            let i = skip_blanks(source, next);
            if i == source.len() {
                return Err(BlockFault::UnexpectedEnd.at(i));
            }
            return close(source, i, lf, next, dash, out, w);
        }
        w = put_feeds(out, w, next - lf);
        from = next + (content - first);
    }
}

fn lex_str_block(source: &[u8], at: usize, out: &mut [u8]) -> Result<Good, BlockError>
    ensures { Walked source.now at out.old result out.new }
{
    if source.len() <= at {
        return Err(BlockFault::UnexpectedEnd.at(source.len()));
    }
    let open = skip_dash(source, at);
    let lf = skip(source, open, |b| matches!(b, b' ' | b'\t' | b'\r'));
    if lf == source.len() {
        return Err(BlockFault::UnexpectedEnd.at(lf));
    }
    if source[lf] != b'\n' {
        return Err(BlockFault::MissingNewLine.at(eat_error(source, lf + 1)));
    }
    let body = lf + 1;
    let first = skip_empty(source, body);
    let content = skip_blanks(source, first);
    if content == first {
        return Err(BlockFault::MissingIndent.at(eat_error(source, first)));
    }
    lines(source, body, first, content, at < open, out)
}

// What stands from `at` on, the place after `|||`.
pub fn block_at(source: &[u8], at: usize) -> Block
    ensures { BlockAt source.now at result }
{
    // No text is wanted here; one byte is the least to lend.
    let mut nowhere = [0u8; 1];
    let good = lex_str_block(source, at, &mut nowhere)?;
    Ok(good.end)
}

// The text of the block from `at` on, the place after `|||`, into a lent part.
pub fn block_text(source: &[u8], at: usize, out: &mut [u8]) -> Decoded
    ensures { Decoding (BlockText (drop at source.now)) (Missing (BlockText (drop at source.now))) out.old result out.new }
{
    match lex_str_block(source, at, out) {
        Ok(good) => Ok(good.text),
        Err(_) => {
            strings::clear(out);
            // Kept a 0: `Missing` of strings says it where no place is told.
            Err(Refused { at: 0 })
        }
    }
}
