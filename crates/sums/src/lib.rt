#![tactic(auto)]
// The sums of vectors/exhaustive.txt: FNV-1a with 64 bits over answer lines.
use std::fmt;
use system::Output;

// The sum of nothing.
pub const START: u64 = 0xCBF2_9CE4_8422_2325;

const PRIME: u64 = 0x100_0000_01B3;

// The sum of a text so far. What is written to it is more of the text.
#[derive(Clone, Copy)]
pub struct Sum(pub u64);

impl Sum {
    // That of nothing.
    pub fn new() -> Self {
        Self(START)
    }

    // All of these bytes more.
    pub fn feed(&mut self, text: &[u8]) {
        self.0 = text
            .iter()
            .fold(self.0, |sum, b| (sum ^ u64::from(*b)).wrapping_mul(PRIME));
    }

    // ` LENGTH COUNT SUM`, and the line's end.
    pub fn report(self, out: &mut Output, length: usize, count: usize) {
        out.print(format_args!(" {length} {count} {:016x}\n", self.0));
    }
}

impl fmt::Write for Sum {
    fn write_str(&mut self, text: &str) -> fmt::Result {
        self.feed(text.as_bytes());
        Ok(())
    }
}
