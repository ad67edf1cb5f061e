// A failure, as a line of standard error has it: what failed, a colon, and the system's words for why.
use std::io::{Error, Write};

// Room for the longest text that an error has, with its number behind it.
const TEXT: usize = 256;

// How the library's number begins behind the system's words, as ` (os error 2)`.
const NUMBER: [u8; 11] = *b" (os error ";

// What is left of a text behind an error's words, of which as many are written as it has room for.
fn room_left(error: Error, text: &mut [u8]) -> usize {
    let mut rest: &mut [u8] = text;
    let _ = write!(rest, "{error}");
    rest.len()
}

// An error's words, put at the start of a text.
fn words(error: Error, text: &mut [u8]) -> &[u8] {
    let left = room_left(error, text);
    &text[..text.len().saturating_sub(left)]
}

// The words without the number.
fn without_number(text: &[u8]) -> &[u8] {
    let number = text
        .windows(NUMBER.len())
        .position(|w| w == NUMBER.as_slice());
    &text[..number.unwrap_or(text.len())]
}

// Writes such a line.
pub fn fail(rt: &HostRuntime, what: &[u8], error: Error) {
    let mut text = [0u8; TEXT];
    crate::complain(rt, what);
    crate::complain(rt, b": ");
    crate::complain(rt, without_number(words(error, &mut text)));
    crate::complain(rt, b"\n");
}
