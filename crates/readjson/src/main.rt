#![tactic(auto)]
// Reads one file of JSON, or standard input, and prints what `readtree` prints: `ok` with the image's length and the image in hex, or `refused` with
// number, start, end and detail. Arguments: `-o IMAGE`, a file.
use desk::options::Options;
use desk::status;
use std::process::ExitCode;

fn main(rt: HostRuntime) -> ExitCode {
    let status = desk::tree::run(&rt, Options::for_json(), "readjson");
    status::end(&rt, status)
}
