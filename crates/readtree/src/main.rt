#![tactic(auto)]
// Reads one file, or standard input, and prints `ok` with the image's length and the image in hex, or `refused` with number, start, end
// and detail. Arguments: `-s SETTING`, `-o IMAGE`, a file.
use desk::options::Options;
use desk::status;
use std::process::ExitCode;

fn main(rt: HostRuntime) -> ExitCode {
    let status = desk::tree::run(&rt, Options::new(true), "readtree");
    status::end(&rt, status)
}
