// The files that a program's words name.
use crate::options::{Fault, Options, is_standard_input};
use crate::status;
use crate::status::Status;
use std::convert::AsSlice;
use std::io;
use system::Source;

// The file that a word names.
pub fn open(rt: &HostRuntime, word: &[u8]) -> io::Result<Source> {
    if is_standard_input(word) {
        Ok(Source::standard_input(rt))
    } else {
        Source::open(rt, word)
    }
}

// What it is called.
pub fn name_of(word: &[u8]) -> &[u8] {
    if is_standard_input(word) {
        b"standard input"
    } else {
        word
    }
}

// Its bytes, as many as a buffer has room for.
pub fn bytes<'a>(file: &mut Source, buffer: &'a mut [u8]) -> io::Result<&'a [u8]> {
    let n = file.read_whole(buffer)?;
    Ok(&buffer[..n])
}

// Those of the file that a word names.
pub fn read<'a>(rt: &HostRuntime, word: &[u8], buffer: &'a mut [u8]) -> io::Result<&'a [u8]> {
    let mut file = open(rt, word)?;
    bytes(&mut file, buffer)
}

// What a program ends with that went through its words; one that is at fault is told of.
pub fn end<W: AsSlice<u8> + Drop>(
    rt: &HostRuntime,
    program: W,
    told: Result<Status, Fault>,
) -> Status {
    match told {
        Ok(status) => status,
        Err(fault) => {
            fault.complain(rt, program);
            Status::Failed
        }
    }
}

// Whether the words name more than one file. A word that is at fault is passed over.
pub fn are_several(rt: &HostRuntime, first: Options) -> bool {
    let mut options = first;
    for i in status::first_argument(rt)..system::arg_count(rt) {
        let mut word = system::buffer();
        let name = system::arg(rt, i, &mut word);
        options = options.with(i, name).unwrap_or(options.behind_fault());
        if options.more {
            return true;
        }
    }
    false
}
