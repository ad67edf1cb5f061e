#![tactic(auto)]
// Says of two files whether their kept lexemes agree in kind and text, so that they differ in white space and comments only; and if they do not,
// where they part. Arguments: two files. Ends as `cmp` does: 0 the same, 1 not the same, 2 not compared.
use desk::status::Status;
use desk::{files, status};
use show::differences::Difference;
use show::file::File;
use show::page::Page;
use std::io::Error;
use std::process::ExitCode;
use system::Output;

// One byte more than a source may have, so that a longer one is seen as longer.
const SOURCE: usize = 65_001;

// Why a file is not compared, behind its name.
fn complain(rt: &HostRuntime, name: &[u8], fault: &[u8]) {
    system::complain(rt, b"sametree: ");
    system::complain(rt, name);
    system::complain(rt, fault);
}

// Whether a source can be compared: what is promised of the same lexemes is promised of sources within the limits.
fn is_good(rt: &HostRuntime, name: &[u8], source: &[u8]) -> bool {
    let n = source.len();
    if n >= SOURCE {
        complain(rt, name, b" is longer than 65,000 bytes\n");
        return false;
    }
    if strings::utf8::valid_to(source) < n {
        complain(rt, name, b" is not UTF-8\n");
        return false;
    }
    true
}

// The file that a word names, if it can be compared: what stands against it is said.
fn take<'a>(rt: &HostRuntime, word: &'a [u8], buffer: &'a mut [u8]) -> Option<File<'a>> {
    let name = files::name_of(word);
    match files::read(rt, word, buffer) {
        // where the files part, each is called by its word
        Ok(text) => is_good(rt, name, text).then_some(File { name: word, text }),
        Err(error) => {
            system::fail(rt, name, error);
            None
        }
    }
}

// What a comparison ends with, and why it could not be written.
#[derive(Clone, Copy)]
struct Found {
    status: Status,
    fault: Option<Error>,
}

// Where the files part, by both names.
fn tell(rt: &HostRuntime, left: Difference, right: Difference) -> Found {
    let mut page = Page::new(rt, false);
    left.tell_first(&mut page);
    right.tell_second(&mut page);
    page.flush();
    Found {
        status: Status::Refused,
        fault: page.fault(),
    }
}

fn tell_same(rt: &HostRuntime) -> Found {
    let mut out = Output::new(rt);
    out.write(b"same\n");
    Found {
        status: Status::Good,
        fault: out.fault(),
    }
}

fn compare(rt: &HostRuntime, left: File, right: File) -> Found {
    let Some((l, m)) = same::first_difference(left.text, right.text) else {
        return tell_same(rt);
    };
    tell(
        rt,
        Difference {
            file: left,
            start: l.start,
            end: l.end,
        },
        Difference {
            file: right,
            start: m.start,
            end: m.end,
        },
    )
}

fn compare_files(
    rt: &HostRuntime,
    a: &[u8],
    left: &mut [u8],
    b: &[u8],
    right: &mut [u8],
) -> Status {
    let left = take(rt, a, left);
    let right = take(rt, b, right);
    match (left, right) {
        (Some(left), Some(right)) => {
            let found = compare(rt, left, right);
            status::if_written(rt, found.fault, found.status)
        }
        _ => Status::Failed,
    }
}

// Whether the arguments are two files, with nothing before them but perhaps `--`.
fn are_two_files(rt: &HostRuntime) -> bool {
    let first = status::first_argument(rt);
    let mut word = system::buffer();
    let is_marked = system::arg(rt, first, &mut word) == b"--".as_slice();
    let wanted = if is_marked { 3 } else { 2 };
    system::arg_count(rt).checked_sub(first) == Some(wanted)
}

// The buffers come as references to arrays: a proof that lent them as slices where they are made would count their bytes one by one.
fn run(rt: &HostRuntime, left: &mut [u8; SOURCE], right: &mut [u8; SOURCE]) -> Status {
    let count = system::arg_count(rt);
    if count < 2 || !are_two_files(rt) {
        system::complain(rt, b"sametree: two files are compared; -h tells how\n");
        return Status::Failed;
    }
    let mut a = system::buffer();
    let mut b = system::buffer();
    let a = system::arg(rt, count - 2, &mut a);
    let b = system::arg(rt, count - 1, &mut b);
    compare_files(rt, a, left, b, right)
}

fn main(rt: HostRuntime) -> ExitCode {
    let mut left = [0u8; SOURCE];
    let mut right = [0u8; SOURCE];
    let status = run(&rt, &mut left, &mut right);
    status::end(&rt, status)
}
