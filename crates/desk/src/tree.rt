// What `readtree` and `readjson` do: a file read, and the answer as document 01 has it printed; or its image in a file.
ghost use Rattle.std.specs.Prelude.{◌≡◌, length};

use crate::options::{Fault, Options};
use crate::status::Status;
use crate::text::Text;
use crate::{Fields, Language, options, status};
use std::convert::AsSlice;
use std::io;
use std::io::Write;
use system::source::create;
use system::{Output, Source};

// One byte more than a source may have, so that a longer one is seen as longer.
const SOURCE: usize = 65_001;

// What document 01 lends it.
const OUTPUT: usize = 65_536;

// Two digits for each byte of the image, and the line before them.
const TEXT: usize = 131_104;

// Room for every image: 16 bytes for each byte of the longest source.
const LARGEST: usize = 1_040_000;

// Room for one line of numbers.
const LINE: usize = 128;

fn refused(f: Fields, text: &mut Text)
    ensures { length text.new.room.now ≡ length text.old.room.now }
{
    let Fields {
        number,
        start,
        end,
        detail,
        ..
    } = f;
    text.put(format_args!("refused {number} {start} {end} {detail}\n"));
}

fn accepted(size: u64, text: &mut Text)
    ensures { length text.new.room.now ≡ length text.old.room.now }
{
    text.put(format_args!("ok {size}\n"));
}

// The lines that tell an answer, and the status that goes with it.
fn told(f: Fields, output: &[u8], text: &mut Text) -> Status
    ensures { length text.new.room.now ≡ length text.old.room.now }
{
    if f.number != 0 {
        refused(f, text);
        return Status::Refused;
    }
    accepted(f.length, text);
    text.put_hex_line(crate::image(f, output));
    Status::Good
}

// Prints lines, after which all is as it was, if they can be printed.
fn print(rt: &HostRuntime, text: &Text, status: Status) -> Status {
    let mut out = Output::new(rt);
    out.write(text.as_slice());
    status::if_written(rt, out.fault(), status)
}

// Reads all of a file and prints the answer with the image in hex; of a file that cannot be read to its end nothing is told. The status is
// handed back.
pub fn readtree(rt: &HostRuntime, file: &mut Source, name: &[u8], language: Language) -> Status {
    let mut source = [0u8; SOURCE];
    let n = match file.read_whole(&mut source) {
        Ok(n) => n,
        Err(error) => return status::unread(rt, name, error),
    };
    let mut output = [0u8; OUTPUT];
    let f = crate::answer_in(language, &source[..n], &mut output);
    let mut buffer = [0u8; TEXT];
    let mut text = Text::new(&mut buffer);
    let status = told(f, &output, &mut text);
    print(rt, &text, status)
}

// Makes the bytes the file's.
fn save(rt: &HostRuntime, name: &[u8], bytes: &[u8]) -> io::Result<()> {
    let mut file = create(rt, name)?;
    file.write_all(bytes)
}

fn save_tree(
    rt: &HostRuntime,
    language: Language,
    source: &[u8],
    output: &mut [u8],
    image: &[u8],
) -> Status {
    let f = crate::answer_in(language, source, output);
    let mut buffer = [0u8; LINE];
    let mut text = Text::new(&mut buffer);
    if f.number != 0 {
        refused(f, &mut text);
        return print(rt, &text, Status::Refused);
    }
    if let Err(error) = save(rt, image, crate::image(f, output)) {
        return status::failed(rt, image, error);
    }
    accepted(f.length, &mut text);
    print(rt, &text, Status::Good)
}

// The buffer comes as a reference to an array: a proof that lent it as a slice where it is made would count its bytes one by one.
fn save_with(
    rt: &HostRuntime,
    language: Language,
    source: &[u8],
    output: &mut [u8; LARGEST],
    image: &[u8],
) -> Status {
    save_tree(rt, language, source, output, image)
}

// The same with the image's bytes in a file of their own, which a refusal leaves as it was.
fn readtree_into(
    rt: &HostRuntime,
    file: &mut Source,
    name: &[u8],
    language: Language,
    image: &[u8],
) -> Status {
    let mut source = [0u8; SOURCE];
    let n = match file.read_whole(&mut source) {
        Ok(n) => n,
        Err(error) => return status::unread(rt, name, error),
    };
    let mut output = [0u8; LARGEST];
    save_with(rt, language, &source[..n], &mut output, image)
}

// The options that hold behind the last word.
fn take_words(rt: &HostRuntime, first: Options) -> Result<Options, Fault> {
    let mut o = first;
    for i in status::first_argument(rt)..system::arg_count(rt) {
        let mut word = system::buffer();
        o = o.with(i, system::arg(rt, i, &mut word))?;
    }
    o.ended()
}

fn read(rt: &HostRuntime, file: &mut Source, name: &[u8], o: Options) -> Status {
    let Some(output) = o.output else {
        return readtree(rt, file, name, o.language());
    };
    let mut word = system::buffer();
    match system::arg(rt, output.word, &mut word).get(output.from..) {
        Some(image) => readtree_into(rt, file, name, o.language(), image),
        None => Status::Failed,
    }
}

fn read_input(rt: &HostRuntime, o: Options) -> Status {
    let mut input = Source::standard_input(rt);
    read(rt, &mut input, b"standard input", o)
}

fn read_file(rt: &HostRuntime, o: Options) -> Status {
    let Some(i) = o.file else {
        return read_input(rt, o);
    };
    let mut word = system::buffer();
    let name = system::arg(rt, i, &mut word);
    if options::is_standard_input(name) {
        return read_input(rt, o);
    }
    match Source::open(rt, name) {
        Ok(mut file) => read(rt, &mut file, name, o),
        Err(error) => status::unread(rt, name, error),
    }
}

// Reads the one file that the words name, or standard input, by the options that a program begins with.
pub fn run<W: AsSlice<u8> + Drop>(rt: &HostRuntime, first: Options, program: W) -> Status {
    match take_words(rt, first) {
        Ok(o) if o.more => {
            system::complain(rt, program.as_slice());
            system::complain(rt, b": one file is read at a time\n");
            Status::Failed
        }
        Ok(o) => read_file(rt, o),
        Err(fault) => {
            fault.complain(rt, program);
            Status::Failed
        }
    }
}
