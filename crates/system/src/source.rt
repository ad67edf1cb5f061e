// What is read: standard input, or a file by its name.
ghost use Rattle.std.specs.Io.{ReadsAtMost};
ghost use Rattle.io.specs.Counts.{IsPrefixLen};

use std::fs;
use std::fs::File;
use std::io::{Error, ErrorKind, Read, Result, Stdin};

#[derive(Drop)]
pub enum Source {
    Input(Stdin),
    Named(File),
}

// A name as the standard library takes it.
fn path(name: &[u8]) -> Result<&str> {
    std::str::from_utf8(name).map_err(|_| Error::new(
        ErrorKind::InvalidInput,
        "the name is not UTF-8",
    ))
}

// Opens a file to be written, empty.
pub fn create(rt: &HostRuntime, name: &[u8]) -> Result<File> {
    fs::create(rt, path(name)?)
}

impl Source {
    pub fn standard_input(rt: &HostRuntime) -> Self {
        Source::Input(rt.stdin())
    }

    pub fn open(rt: &HostRuntime, name: &[u8]) -> Result<Self> {
        fs::open(rt, path(name)?).map(Source::Named)
    }

    // Reads some bytes to the start of a buffer: none at the end.
    pub fn read(&mut self, buffer: &mut [u8]) -> Result<usize>
        ensures { ReadsAtMost result buffer.new }
    {
        match self {
            Source::Input(stdin) => stdin.read(buffer),
            Source::Named(file) => file.read(buffer),
        }
    }

    // Reads until a buffer is full, the input ends or a read fails: how many bytes it put at the buffer's start, and why the read failed. It is for a
    // caller that has a use for what came before a fault.
    pub fn fill(&mut self, buffer: &mut [u8]) -> (usize, Option<Error>)
        ensures { IsPrefixLen result.0 buffer.new }
    {
        let mut done = 0;
        while done < buffer.len() {
            match self.read(&mut buffer[done..]) {
                Ok(0) => break,
                Ok(n) => done += n,
                Err(error) => return (done, Some(error)),
            }
        }
        (done, None)
    }

    // The same, where a read that fails is taken for the input's end.
    pub fn read_full(&mut self, buffer: &mut [u8]) -> usize
        ensures { IsPrefixLen result buffer.new }
    {
        self.fill(buffer).0
    }

    // The same, where a read that fails is an error, behind which other bytes may have been kept back.
    pub fn read_whole(&mut self, buffer: &mut [u8]) -> Result<usize>
        ensures { ReadsAtMost result buffer.new }
    {
        match self.fill(buffer) {
            (n, None) => Ok(n),
            (_, Some(error)) => Err(error),
        }
    }
}
