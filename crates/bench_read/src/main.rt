#![tactic(auto)]
// What reading costs: the source on standard input is read once under setting 0. bench_none does the same but for the reading.
use system::{Output, Source};

fn main(rt: HostRuntime) {
    let mut source = [0u8; 65_536];
    let mut output = [0u8; 65_536];
    let mut input = Source::standard_input(&rt);
    let n = input.read_full(&mut source);
    // nothing is left to take in, but the compiler cannot know that the output is still clear, nor that nothing reads it
    input.read_full(&mut output);
    let f = reader::numbers(reader::read(0, &source[..n], &mut output));
    input.read_full(&mut output);
    let mut out = Output::new(&rt);
    out.print(format_args!("{} {}\n", f.number, f.length));
}
