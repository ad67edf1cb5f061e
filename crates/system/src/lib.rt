#![tactic(auto)]
// What the programs take from the system, over the standard library: arguments, files, and what they write to. A call that fails ends nothing by itself.
ghost use Rattle.std.specs.Prelude.{◌≡◌, ◌≤◌, length};

mod message; // a failure's text
pub mod output; // standard output, and what of it failed
pub mod source; // what is read

pub use message::fail;
pub use output::Output;
pub use source::Source;
use std::env::{Env, FillError};
use std::io::{Eprint, Print};

// Room for any path, and for a page of text.
pub const ROOM: usize = 4096;

// So many zeros. Only the length is promised, which lending the array as a slice needs.
pub fn buffer() -> [u8; 4096]
    ensures { 4096 ≡ length result }
{
    [0; 4096]
}

// Whether there is an argument i. One that has no room is there too.
fn has_arg(rt: &HostRuntime, i: usize) -> bool {
    let mut word = [0u8; 1];
    !matches!(rt.arg(i, &mut word), Err(FillError::NotPresent))
}

// How many arguments the program was started with, its own name among them.
pub fn arg_count(rt: &HostRuntime) -> usize {
    (0..usize::MAX)
        .find(|i| !has_arg(rt, *i))
        .unwrap_or(usize::MAX)
}

// Argument i, put at the start of a buffer; nothing where it is missing or longer than the buffer.
pub fn arg<'a>(rt: &HostRuntime, i: usize, word: &'a mut [u8]) -> &'a [u8]
    ensures { length result.now ≤ length word.old }
{
    match rt.arg(i, word) {
        Ok(n) => &word[..n],
        Err(_) => &[],
    }
}

// Writes to standard error. Nothing can be told of a write there that fails.
pub fn complain(rt: &HostRuntime, text: &[u8]) {
    let to = rt.stderr();
    let _ = Print::write_all(&to, text);
}

// The digits of a number to standard error.
pub fn complain_number(rt: &HostRuntime, n: u64) {
    let _ = rt.eprint(n);
}
