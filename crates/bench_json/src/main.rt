#![tactic(auto)]
// What reading a station file costs: the text on standard input is read once.
use system::{Output, Source};

const TEXT: usize = 65_536;

const OUTPUT: usize = 524_288;

fn tell(rt: &HostRuntime, text: &[u8], output: &mut [u8]) {
    let mut out = Output::new(rt);
    let f = json_import::numbers(json_import::read_json(text, output));
    out.print(format_args!("{} {} {} {}\n", f.number, f.start, f.end, f.length));
}

fn read(rt: &HostRuntime, text: &mut [u8], output: &mut [u8]) {
    let n = Source::standard_input(rt).read_full(text);
    tell(rt, &text[..n], output);
}

// The buffers come as references to arrays: a proof that lent them as slices where they are made would count their elements one by one.
fn run(rt: &HostRuntime, text: &mut [u8; TEXT], output: &mut [u8; OUTPUT]) {
    read(rt, text, output);
}

fn main(rt: HostRuntime) {
    let mut text = [0u8; TEXT];
    let mut output = [0u8; OUTPUT];
    run(&rt, &mut text, &mut output);
}
