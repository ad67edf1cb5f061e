#![tactic(auto)]
// All that bench_read does but the reading, to be subtracted: the source taken in, the output set up and cleared once.
use system::{Output, Source};

fn main(rt: HostRuntime) {
    let mut source = [0u8; 65_536];
    let mut output = [0u8; 65_536];
    let mut input = Source::standard_input(&rt);
    let n = input.read_full(&mut source);
    // nothing is left to take in, but the compiler cannot know that the output is still clear, nor that nothing reads it
    input.read_full(&mut output);
    strings::clear(&mut output);
    let m = input.read_full(&mut output);
    let mut out = Output::new(&rt);
    out.print(format_args!("{m} {n}\n"));
}
