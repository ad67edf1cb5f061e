#![tactic(auto)]
// Text taken apart: lines, fields with a space between, bytes in hex, as the lists of vectors/ have them; and a count of the lines that agree.
ghost use Rattle.std.specs.Prelude.{◌≤◌, length};

use std::convert::AsSlice;
use system::Output;

// The line that starts at a place, without its LF; nothing past the end.
pub fn line_at(text: &[u8], from: usize) -> &[u8]
    ensures { length result.now ≤ length text.now }
{
    let rest = text.get(from..).unwrap_or(&[]);
    let end = rest.iter().position(|b| *b == b'\n');
    &rest[..end.unwrap_or(rest.len())]
}

// A line's field, counted from 0; nothing where the line has fewer.
pub fn field(line: &[u8], n: usize) -> &[u8] {
    line.split(|b| *b == b' ').nth(n).unwrap_or(&[])
}

// A hex digit's value; 0 of what is none.
fn digit(b: u8) -> u8
    ensures { result ≤ 15 }
{
    match b {
        b'0'..=b'9' => b - b'0',
        b'a'..=b'f' => b - b'a' + 10,
        _ => 0,
    }
}

// A number in hex or in decimal, as far as 32 bits go.
pub fn number(digits: &[u8], hex: bool) -> u32 {
    let base = if hex { 16 } else { 10 };
    digits
        .iter()
        .fold(0, |n, b| n % 0x1000_0000 * base + u32::from(digit(*b)))
}

// The bytes that pairs of hex digits spell, as many as have room; a lone `-` is none.
pub fn unhex<'a>(hex: &[u8], out: &'a mut [u8]) -> &'a [u8]
    ensures { length result.now ≤ length out.old }
{
    let (pairs, _) = hex.as_chunks::<2>();
    let n = pairs.len().min(out.len());
    let bytes = &mut out[..n];
    for (byte, [high, low]) in bytes.iter_mut().zip(pairs) {
        *byte = digit(*high) * 16 + digit(*low);
    }
    bytes
}

// How many lines there were and how many differ; the first that does, counted from 1.
#[derive(Clone, Copy, Default)]
pub struct Tally {
    pub lines: u64,
    pub differences: u64,
    pub first: Option<u64>,
}

impl Tally {
    // That of no lines.
    pub fn new() -> Self {
        Self::default()
    }

    // That of a text's lines. A last one may lack its end.
    pub fn of_lines<F: Fn(&[u8]) -> bool>(text: &[u8], agrees: F) -> Self
        requires { F.IsAlwaysCallable agrees }
    {
        let mut tally = Self::new();
        for line in text.split_inclusive(|b| *b == b'\n') {
            tally = tally.with(agrees(line.strip_suffix(b"\n").unwrap_or(line)));
        }
        tally
    }

    // One line more.
    pub fn with(mut self, agrees: bool) -> Self {
        self.lines = self.lines.saturating_add(1);
        if !agrees {
            self.differences = self.differences.saturating_add(1);
            self.first = self.first.or(Some(self.lines));
        }
        self
    }

    // `N what, N differences`, and where the first is.
    pub fn report<W: AsSlice<u8> + Drop>(self, out: &mut Output, what: W) {
        let Self {
            lines,
            differences,
            first,
        } = self;
        out.print(format_args!("{lines} "));
        out.write(what.as_slice());
        out.print(format_args!(", {differences} differences\n"));
        if let Some(line) = first {
            out.print(format_args!("first at line {line}\n"));
        }
    }
}
