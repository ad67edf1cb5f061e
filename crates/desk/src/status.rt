// How a program ends. Run by itself it ends with 0 whatever it found; with `--status` as its first argument, as its wrapper tools/run gives it, it ends with
// its status.
use std::io::{Error, ErrorKind};
use std::process::ExitCode;

// The statuses, the worse the higher. Several sources end as the worst of them.
#[derive(Clone, Copy, Debug, PartialEq, Eq, PartialOrd, Ord)]
pub enum Status {
    Good = 0, // a tree for every source
    Refused = 1, // a refusal
    Failed = 2, // arguments that ask for nothing, a file that cannot be read, or an answer that cannot be written
    Cut = 141, // what read the answer reads no further: as a shell tells of a program that ends of it
}

impl From<Status> for u8 {
    fn from(status: Status) -> Self {
        status as u8
    }
}

impl From<Status> for ExitCode {
    fn from(status: Status) -> Self {
        ExitCode::from(u8::from(status))
    }
}

// The status of what failed, which is told. What reads no further is told nothing.
pub fn failed(rt: &HostRuntime, what: &[u8], error: Error) -> Status {
    match error.kind() {
        ErrorKind::BrokenPipe => Status::Cut,
        _ => {
            system::fail(rt, what, error);
            Status::Failed
        }
    }
}

// The status of what cannot be read, which is told.
pub fn unread(rt: &HostRuntime, name: &[u8], error: Error) -> Status {
    system::fail(rt, name, error);
    Status::Failed
}

// The status, a `Status` or its number, if no write to standard output has failed.
pub fn if_written<S: From<Status> + Drop>(rt: &HostRuntime, fault: Option<Error>, status: S) -> S {
    match fault {
        None => status,
        Some(error) => S::from(failed(rt, b"standard output", error)),
    }
}

// Whether the status is asked for.
fn is_asked(rt: &HostRuntime) -> bool {
    let mut word = system::buffer();
    system::arg(rt, 1, &mut word) == b"--status".as_slice()
}

// Where the program's own arguments begin.
pub fn first_argument(rt: &HostRuntime) -> usize {
    if is_asked(rt) { 2 } else { 1 }
}

// What a program ends with, by a `Status` or its number.
pub fn end<S: Into<ExitCode> + Drop>(rt: &HostRuntime, status: S) -> ExitCode {
    if is_asked(rt) {
        status.into()
    } else {
        ExitCode::SUCCESS
    }
}
