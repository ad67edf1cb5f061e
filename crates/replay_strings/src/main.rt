#![tactic(auto)]
// Replays vectors/strings.txt, what the judge says of strings: lines `MODE INPUT ANSWER`. Modes: q the inside of a quoted literal,
// d and s of a verbatim one, c a code point; each answered by the bytes meant or `refused`, for q with where the first bad escape begins;
// u, how many bytes are UTF-8.
use lists::Tally;
use strings::Decoded;
use system::{Output, Source};

// Room for the longest input of the list, in bytes.
const ROOM: usize = 256;

// Whether a decoder's answer and what it left are the judge's: behind a text, and after a refusal, nothing.
fn agrees(decoded: Decoded, out: &[u8], answer: &[u8]) -> bool {
    let mut wanted = [0u8; ROOM];
    let n = lists::unhex(answer, &mut wanted).len();
    let Ok(length) = decoded else {
        return answer == b"refused".as_slice();
    };
    length == n && out == wanted.as_slice()
}

fn quoted_agrees(input: &[u8], answer: &[u8], escape: usize) -> bool {
    let mut out = [0u8; ROOM];
    let decoded = strings::string::unescape(input, &mut out);
    if let Err(refused) = decoded
        && refused.at != escape
    {
        return false;
    }
    agrees(decoded, &out, answer)
}

fn verbatim_agrees(input: &[u8], quote: u8, answer: &[u8]) -> bool {
    let mut out = [0u8; ROOM];
    let decoded = strings::string::verbatim(input, quote, &mut out);
    agrees(decoded, &out, answer)
}

fn code_agrees(code: u32, answer: &[u8]) -> bool {
    let mut out = [0u8; ROOM];
    let decoded = strings::utf8::encode(code, &mut out);
    agrees(decoded, &out, answer)
}

fn line_agrees(line: &[u8]) -> bool {
    let input = lists::field(line, 1);
    let answer = lists::field(line, 2);
    let mut bytes = [0u8; ROOM];
    let text = lists::unhex(input, &mut bytes);
    match lists::field(line, 0).first() {
        Some(b'c') => code_agrees(lists::number(input, true), answer),
        Some(b'u') => strings::utf8::valid_to(text) == lists::number(answer, false) as usize,
        Some(b'q') => {
            let escape = lists::number(lists::field(line, 3), false) as usize;
            quoted_agrees(text, answer, escape)
        }
        Some(b'd') => verbatim_agrees(text, b'"', answer),
        Some(b's') => verbatim_agrees(text, b'\'', answer),
        _ => false,
    }
}

fn main(rt: HostRuntime) {
    let mut text = [0u8; 262_144];
    let n = Source::standard_input(&rt).read_full(&mut text);
    let tally = Tally::of_lines(&text[..n], |line| line_agrees(line));
    tally.report(&mut Output::new(&rt), "strings");
}
