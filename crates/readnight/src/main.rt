#![tactic(auto)]
// Reads a night's files and tells of each in a line whether it was read, or why not and where; then how many were.
// Arguments: a setting, and files.
use desk::status;
use desk::status::Status;
use show::file::File;
use show::page::Page;
use show::refusals::Refusal;
use std::io;
use std::io::{Error, IsTerminal};
use std::process::ExitCode;
use std::time::Clock;
use system::{Output, Source};

// How many files are read in one call, at most.
const FILES: usize = 64;

// One byte more than a source may have, so that a longer one is seen as longer, whatever comes behind.
const SOURCE: usize = 65_001;

// The sources of one call.
const SOURCES: usize = 131_072;

// No image has more bytes for each byte of its source: with parts so long no file is refused for room.
const GROWTH: usize = 16;

const OUTPUT: usize = 2_097_152;

// For each file of a call its answer, five numbers.
const ANSWERS: usize = 320;

// How often the clock must have gone on a second before how far it has come is told: twice is more than a second.
const LONG: u8 = 2;

// The second that the clock is at; a clock that cannot be read stands still.
fn now(rt: &HostRuntime) -> u64 {
    match rt.since_1970() {
        Ok(time) => time.as_secs(),
        Err(_) => 0,
    }
}

// What became of the files so far.
#[derive(Drop)]
struct Night {
    setting: u64,
    read: u64,
    refused: u64,
    failed: u64, // files that could not be read to their end
    clock: u64, // the last second seen
    seconds: u8, // how many were, as far as that matters
}

impl Night {
    fn new(rt: &HostRuntime, setting: u64) -> Self {
        Self {
            setting,
            read: 0,
            refused: 0,
            failed: 0,
            clock: now(rt),
            seconds: 0,
        }
    }

    // The clock is looked at.
    fn look_at_clock(&mut self, rt: &HostRuntime) {
        let second = now(rt);
        if second != self.clock {
            self.clock = second;
            self.seconds = self.seconds.saturating_add(1);
        }
    }

    // Whether a person waits.
    fn is_long(&self, rt: &HostRuntime) -> bool {
        self.seconds >= LONG && rt.stderr().is_terminal()
    }

    // On a terminal, once it takes long: how many of the arguments are done.
    fn show_progress(&self, rt: &HostRuntime, done: usize, count: usize) {
        if self.is_long(rt) {
            system::complain(rt, b"\rreadnight: argument ");
            system::complain_number(rt, done as u64);
            system::complain(rt, b" of ");
            system::complain_number(rt, count as u64);
        }
    }

    fn hide_progress(&self, rt: &HostRuntime) {
        if self.is_long(rt) {
            system::complain(rt, b"\r\x1b[K");
        }
    }

    fn count_read(&mut self) {
        self.read = self.read.saturating_add(1);
    }

    fn count_refused(&mut self) {
        self.refused = self.refused.saturating_add(1);
    }

    fn count_failed(&mut self) {
        self.failed = self.failed.saturating_add(1);
    }

    // A file's line: which argument it is, its source and its answer.
    fn tell(&mut self, rt: &HostRuntime, i: usize, source: &[u8], answer: &[u64; 5]) {
        let mut word = system::buffer();
        let name = system::arg(rt, i, &mut word);
        let mut page = Page::new(rt, false);
        let [number, start, end, detail, length] = *answer;
        if number == 0 {
            page.tell_read(name);
            self.count_read();
        } else {
            let refusal = Refusal {
                number,
                start,
                end,
                detail,
                length,
            };
            refusal.tell_in_a_line(&mut page, File { name, text: source });
            self.count_refused();
        }
        page.flush();
    }

    // The lines of a call's files.
    fn tell_all(
        &mut self,
        rt: &HostRuntime,
        sources: &[u8],
        ends: &[usize],
        names: &[usize],
        answers: &[u64],
    ) {
        let (answers, _) = answers.as_chunks::<5>();
        let mut from = 0;
        for ((end, name), answer) in ends.iter().zip(names).zip(answers) {
            let Some(source) = sources.get(from..*end) else {
                return;
            };
            self.tell(rt, *name, source, answer);
            from = *end;
        }
    }

    // `N read, N refused`, and how many could not be read at all; why that could not be written, if it could not.
    fn report(&self, out: &mut Output) -> Option<Error> {
        let read = self.read;
        let refused = self.refused;
        let failed = self.failed;
        out.print(format_args!("{read} read, {refused} refused"));
        if failed > 0 {
            out.print(format_args!(", {failed} unreadable"));
        }
        out.write(b"\n");
        out.fault()
    }

    fn status(&self) -> Status {
        if self.failed > 0 {
            Status::Failed
        } else if self.refused > 0 {
            Status::Refused
        } else {
            Status::Good
        }
    }
}

// The files of the call to come: for each its end, the end of its part, and which argument it is.
#[derive(Drop)]
struct Call<'a> {
    sources: &'a mut [u8],
    output: &'a mut [u8],
    answers: &'a mut [u64],
    files: usize, // how many there are
    used: usize, // bytes of their sources
    ends: [usize; FILES],
    parts: [usize; FILES],
    names: [usize; FILES],
}

// The call itself, and the lines of its files. Its lists always fit: a part is so many times as long as its source.
// The sources come as `&mut`: lent as `&` beside the output, the fields of one struct get no proof.
fn read_files(
    rt: &HostRuntime,
    night: &mut Night,
    sources: &mut [u8],
    used: usize,
    output: &mut [u8],
    answers: &mut [u64],
    ends: &[usize],
    parts: &[usize],
    names: &[usize],
) {
    let sources = front(sources, used);
    let room = sources.len().saturating_mul(GROWTH).min(output.len());
    let numbers = ends.len().saturating_mul(5).min(answers.len());
    let output = &mut output[..room];
    let answers = &mut answers[..numbers];
    let number = night::read(night.setting, sources, ends, output, parts, answers);
    night.hide_progress(rt);
    if number == night::READ {
        night.tell_all(rt, sources, ends, names, answers);
    } else {
        night.count_failed();
    }
}

// The first bytes of a buffer, as many as it has.
fn front(bytes: &[u8], n: usize) -> &[u8] {
    bytes.get(..n).unwrap_or(bytes)
}

// A source by its file's name behind those that are there, and of a longer one enough to see that it is too long.
fn take(rt: &HostRuntime, name: &[u8], sources: &mut [u8], used: usize) -> io::Result<usize> {
    let mut file = Source::open(rt, name)?;
    let from = used.min(sources.len());
    let rest = &mut sources[from..];
    let most = rest.len().min(SOURCE);
    file.read_whole(&mut rest[..most])
}

impl<'a> Call<'a> {
    // Whether another file may have no room.
    fn is_full(&self) -> bool {
        FILES <= self.files || SOURCES - SOURCE < self.used
    }

    // The files are read and told of, and there are none.
    fn read(&mut self, rt: &HostRuntime, night: &mut Night) {
        let files = self.files.min(FILES);
        let used = self.used;
        let ends = self.ends;
        let parts = self.parts;
        let names = self.names;
        read_files(
            rt,
            night,
            self.sources,
            used,
            self.output,
            self.answers,
            &ends[..files],
            &parts[..files],
            &names[..files],
        );
        self.used = 0;
        self.files = 0;
    }

    // The file of an argument, whose source ends here.
    fn push(&mut self, name: usize, end: usize) {
        let files = self.files;
        if files < FILES {
            self.ends[files] = end;
            self.parts[files] = end.saturating_mul(GROWTH);
            self.names[files] = name;
            self.files = files + 1;
            self.used = end;
        }
    }

    // One file more; one that cannot be read to its end is told of and left out.
    fn add(&mut self, rt: &HostRuntime, night: &mut Night, i: usize) {
        let mut word = system::buffer();
        let name = system::arg(rt, i, &mut word);
        let used = self.used;
        match take(rt, name, self.sources, used) {
            Ok(n) => self.push(i, used.saturating_add(n)),
            Err(error) => {
                system::fail(rt, name, error);
                night.count_failed();
            }
        }
    }
}

// The files that the arguments from one on name.
fn read_arguments(rt: &HostRuntime, night: &mut Night, from: usize, call: &mut Call) {
    let count = system::arg_count(rt);
    for i in from..count {
        if call.is_full() {
            call.read(rt, night);
        }
        call.add(rt, night, i);
        night.look_at_clock(rt);
        night.show_progress(rt, (i - from).saturating_add(1), count - from);
    }
    call.read(rt, night);
}

// The buffers come as references to arrays: a proof that lent them as slices where they are made would count their elements one by one.
fn read_all(
    rt: &HostRuntime,
    night: &mut Night,
    from: usize,
    sources: &mut [u8; SOURCES],
    output: &mut [u8; OUTPUT],
    answers: &mut [u64; ANSWERS],
) {
    let mut call = Call {
        sources,
        output,
        answers,
        files: 0,
        used: 0,
        ends: [0; FILES],
        parts: [0; FILES],
        names: [0; FILES],
    };
    read_arguments(rt, night, from, &mut call);
}

// The setting is the first argument.
fn setting_of(rt: &HostRuntime, i: usize) -> u64 {
    let mut word = system::buffer();
    u64::from(lists::number(system::arg(rt, i, &mut word), false))
}

fn main(rt: HostRuntime) -> ExitCode {
    let mut sources = [0u8; SOURCES];
    let mut output = [0u8; OUTPUT];
    let mut answers = [0u64; ANSWERS];
    let first = status::first_argument(&rt);
    if system::arg_count(&rt) <= first {
        system::complain(&rt, b"readnight: a setting is wanted\n");
        return status::end(&rt, Status::Failed);
    }
    let mut night = Night::new(&rt, setting_of(&rt, first));
    read_all(
        &rt,
        &mut night,
        first.saturating_add(1),
        &mut sources,
        &mut output,
        &mut answers,
    );
    let mut out = Output::new(&rt);
    let fault = night.report(&mut out);
    status::end(&rt, status::if_written(&rt, fault, night.status()))
}
