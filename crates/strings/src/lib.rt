#![tactic(auto)]
// What strings mean: UTF-8, and the insides of string literals.
ghost use Rattle.std.specs.Prelude.{◌≡◌, length, set, replicate};

pub mod string; // string.rs: the inside of a literal decoded
pub mod utf8; // whether bytes are UTF-8, and the bytes of a code point

// There is no text. Of a quoted literal this says where its first bad escape begins.
#[derive(Clone, Copy)]
pub struct Refused {
    pub at: usize,
}

// What a decoder answers: the text's length, whether or not it had room.
pub type Decoded = Result<usize, Refused>;

// A byte at a place, where the output has room.
pub fn put(out: &mut [u8], at: usize, b: u8)
    ensures { out.new ≡ set out.old at b }
{
    if at < out.len() {
        out[at] = b;
    }
}

// What a refusal leaves: zeros.
pub fn clear(out: &mut [u8])
    ensures { out.new ≡ replicate (length out.old) 0 }
{
    out.fill(0);
}
