#![tactic(auto)]
// Answers the judge's questions, a line each of the files that the arguments name, or of standard input where there is none: to `SETTING OUTLEN HEXSOURCE` by a line
// `NUMBER START END DETAIL LENGTH HEXIMAGE`, to `night SETTING ENDS OUTENDS OUTLEN ANSWERLEN HEXSOURCES` by a line `NUMBER ANSWERS HEXOUTPUT`, to
// `back HEXIMAGE` by a line `NUMBER OFFSET RECORDS PARTS COALESCES`, to `mass LISTLEN HEXIMAGE` by a line `NUMBER OFFSET COUNT LIST`, to `json OUTLEN HEXTEXT` as to
// a source, and by `bad` to a line that is none.
use desk::questions::{ANSWERS, Clerk, Intake, LINKS, LIST, LISTINGS, OUTPUT, SOURCE, TEXT};
use desk::status;
use desk::status::Status;
use desk::text::Text;
use std::io;
use std::process::ExitCode;
use system::{Output, Source};

// How many bytes are read at a time.
const BYTES: usize = 65_536;

// Answers each question that ends before the file does. A proved loop has to end, so it counts its turns, to a number that no run comes to.
fn answer_ended(file: &mut Source, out: &mut Output, clerk: &mut Clerk) -> io::Result<()> {
    for _ in 0..u64::MAX {
        let mut bytes = [0u8; BYTES];
        let n = file.read(&mut bytes)?;
        if n == 0 {
            break;
        }
        for b in &bytes[..n] {
            if clerk.take(*b) {
                out.write(clerk.text.as_slice());
            }
        }
    }
    Ok(())
}

// Answers all questions of a file, of which the last may lack its end, or those before what could not be read.
fn answer_all(file: &mut Source, out: &mut Output, clerk: &mut Clerk) -> io::Result<()> {
    let end = answer_ended(file, out, clerk);
    if clerk.finish() {
        out.write(clerk.text.as_slice());
    }
    end
}

// The same. The status tells whether all could be read, and all answers written.
fn serve(
    rt: &HostRuntime,
    out: &mut Output,
    clerk: &mut Clerk,
    file: &mut Source,
    name: &[u8],
) -> Status {
    out.forget_errors();
    let end = answer_all(file, out, clerk);
    let status = status::if_written(rt, out.fault(), Status::Good);
    match end {
        Ok(()) => status,
        Err(error) => {
            system::fail(rt, name, error);
            Status::Failed
        }
    }
}

fn serve_file(rt: &HostRuntime, out: &mut Output, clerk: &mut Clerk, i: usize) -> Status {
    let mut word = system::buffer();
    let name = system::arg(rt, i, &mut word);
    match Source::open(rt, name) {
        Ok(mut file) => serve(rt, out, clerk, &mut file, name),
        Err(error) => {
            system::fail(rt, name, error);
            Status::Failed
        }
    }
}

// The files that the arguments name, or standard input where there is none.
fn serve_all(rt: &HostRuntime, clerk: &mut Clerk) -> Status {
    let mut out = Output::new(rt);
    let files = status::first_argument(rt)..system::arg_count(rt);
    if files.is_empty() {
        let mut input = Source::standard_input(rt);
        return serve(rt, &mut out, clerk, &mut input, b"standard input");
    }
    let mut worst = Status::Good;
    for i in files {
        worst = worst.max(serve_file(rt, &mut out, clerk, i));
    }
    worst
}

// The buffers come as references to arrays: a proof that lent them as slices where they are made would count their bytes one by one.
fn serve_with(
    rt: &HostRuntime,
    source: &mut [u8; SOURCE],
    ends: &mut [usize; LIST],
    parts: &mut [usize; LIST],
    output: &mut [u8; OUTPUT],
    answers: &mut [u64; ANSWERS],
    links: &mut [usize; LINKS],
    listings: &mut [usize; LISTINGS],
    text: &mut [u8; TEXT],
) -> Status {
    let mut clerk = Clerk {
        question: Intake::new(source, ends, parts),
        output,
        answers,
        links,
        listings,
        text: Text::new(text),
    };
    serve_all(rt, &mut clerk)
}

fn main(rt: HostRuntime) -> ExitCode {
    let mut source = [0u8; SOURCE];
    let mut ends = [0usize; LIST];
    let mut parts = [0usize; LIST];
    let mut output = [0u8; OUTPUT];
    let mut answers = [0u64; ANSWERS];
    let mut links = [0usize; LINKS];
    let mut listings = [0usize; LISTINGS];
    let mut text = [0u8; TEXT];
    let status = serve_with(
        &rt,
        &mut source,
        &mut ends,
        &mut parts,
        &mut output,
        &mut answers,
        &mut links,
        &mut listings,
        &mut text,
    );
    status::end(&rt, status)
}
