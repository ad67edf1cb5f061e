// The words that a program is started with. `-s 4` or `-s4` gives a setting, `-o NAME` a file to write and `--image NAME` a file that is an image;
// `--depth N` and `--at LINE:COLUMN` tell how much of a tree is shown, and `--colour` that it has colours; `--json` that files are JSON, which a
// setting behind it takes back. Behind `--` every word is a file, and `-` is standard input. Words are taken one by one, so that an option holds for the
// files after it.
use crate::Language;
use std::convert::AsSlice;
use std::fmt;
use std::fmt::Formatter;
use std::io::Eprint;

// An option that takes a value.
#[derive(Clone, Copy, Debug, PartialEq, Eq)]
pub enum Valued {
    Setting, // `-s`
    Output, // `-o`
    Image, // `--image`
    Depth, // `--depth`
    At, // `--at`
}

// What can be wrong with a word.
#[derive(Clone, Copy, Debug, PartialEq, Eq)]
pub enum Fault {
    Lacks(Valued), // no value that the option takes stands behind it
    Unknown, // the option does not exist
}

impl fmt::Display for Fault {
    fn fmt<W: fmt::Write>(&self, f: &mut Formatter<W>) -> fmt::Result {
        f.write_str(match self {
            Fault::Lacks(Valued::Setting) => "-s takes a setting, 0 to 15",
            Fault::Lacks(Valued::Output) => "-o takes the name of a file",
            Fault::Lacks(Valued::Image) => "--image takes the name of a file",
            Fault::Lacks(Valued::Depth) => "--depth takes a number",
            Fault::Lacks(Valued::At) => "--at takes a place, LINE:COLUMN",
            Fault::Unknown => "there is no such option; -h tells which there are",
        })
    }
}

impl Fault {
    // Says what is wrong.
    pub fn complain<W: AsSlice<u8> + Drop>(self, rt: &HostRuntime, program: W) {
        system::complain(rt, program.as_slice());
        let _ = rt.eprintln(format_args!(": {self}"));
    }
}

// The name of a file to write: which word has it, and where in that word it begins.
#[derive(Clone, Copy)]
pub struct Output {
    pub word: usize,
    pub from: usize,
}

// A place in a source, both counted from 1.
#[derive(Clone, Copy)]
pub struct Place {
    pub line: usize,
    pub column: usize,
}

#[derive(Clone, Copy)]
pub struct Options {
    pub setting: u64,
    pub file: Option<usize>, // which word names the last file so far
    pub more: bool, // whether another file was named before it
    pub image: bool, // whether that file is an image
    pub output: Option<Output>, // the file to write
    pub depth: usize, // how deep lines are shown
    pub place: Option<Place>, // around which is shown, and not all
    pub colours: bool,
    pub json: bool, // whether files are JSON
    pub several: bool, // whether more than one file is named
    writes: bool, // whether the program takes `-o`
    sets: bool, // whether it takes `-s`
    shows: bool, // whether it takes the options of trees
    awaited: Option<Valued>, // the option that the next word belongs to
    plain: bool, // whether `--` has stood
}

fn digit(b: u8) -> Option<u64> {
    match b {
        b'0'..=b'9' => Some(u64::from(b - b'0')),
        _ => None,
    }
}

// A number of up to so many digits in decimal.
fn number_of(word: &[u8], digits: usize) -> Option<u64> {
    if word.is_empty() || digits < word.len() {
        return None;
    }
    word.iter()
        .try_fold(0u64, |n, b| n.checked_mul(10)?.checked_add(digit(*b)?))
}

// A number of up to nine digits.
fn size_of(word: &[u8]) -> Option<usize> {
    number_of(word, 9).map(|n| n as usize)
}

// `LINE:COLUMN`. No line is 0.
fn place_of(text: &[u8]) -> Option<Place> {
    let colon = text.iter().position(|b| *b == b':')?;
    let line = size_of(&text[..colon])?;
    let column = size_of(&text[colon + 1..])?;
    (line != 0).then_some(Place { line, column })
}

impl Options {
    pub fn new(writes: bool) -> Self {
        Self {
            setting: 0,
            file: None,
            more: false,
            image: false,
            output: None,
            depth: usize::MAX,
            place: None,
            colours: false,
            json: false,
            several: false,
            writes,
            sets: true,
            shows: false,
            awaited: None,
            plain: false,
        }
    }

    // Those of a program that shows trees and writes no file.
    pub fn for_trees(several: bool) -> Self {
        Self {
            shows: true,
            several,
            ..Self::new(false)
        }
    }

    // Those of a program that reads JSON alone and may write an image.
    pub fn for_json() -> Self {
        Self {
            json: true,
            sets: false,
            ..Self::new(true)
        }
    }

    // What files are written in.
    pub fn language(self) -> Language {
        if self.json {
            Language::Json
        } else {
            Language::Jsonnet(self.setting)
        }
    }

    fn with_setting(self, text: &[u8]) -> Option<Self> {
        let setting = number_of(text, 2)?;
        grammar::settings::valid(setting).then_some(Self {
            setting,
            json: false,
            ..self
        })
    }

    fn with_file(self, i: usize) -> Self {
        Self {
            more: self.file.is_some(),
            file: Some(i),
            image: false,
            ..self
        }
    }

    fn with_output(self, word: usize, from: usize) -> Self {
        Self {
            output: Some(Output { word, from }),
            ..self
        }
    }

    fn awaiting(self, option: Valued) -> Self {
        Self {
            awaited: Some(option),
            ..self
        }
    }

    // An option's letter, and the rest of its word where there is one.
    fn with_letter(self, i: usize, letter: u8, rest: &[u8]) -> Result<Self, Fault> {
        let option = match letter {
            b's' if self.sets => Valued::Setting,
            b'o' if self.writes => Valued::Output,
            _ => return Err(Fault::Unknown),
        };
        if rest.is_empty() {
            return Ok(self.awaiting(option));
        }
        match option {
            Valued::Setting => self.with_setting(rest).ok_or(Fault::Lacks(option)),
            _ => Ok(self.with_output(i, 2)),
        }
    }

    // The word that an option waits for.
    fn with_value(self, i: usize, option: Valued, word: &[u8]) -> Result<Self, Fault> {
        let taken = match option {
            Valued::Setting => self.with_setting(word),
            Valued::Output => Some(self.with_output(i, 0)),
            Valued::Image => Some(Self {
                image: true,
                ..self.with_file(i)
            }),
            Valued::Depth => size_of(word).map(|depth| Self { depth, ..self }),
            Valued::At => place_of(word).map(|place| Self {
                place: Some(place),
                ..self
            }),
        };
        taken.ok_or(Fault::Lacks(option))
    }

    // An option of trees, by its word.
    fn with_long(self, word: &[u8]) -> Result<Self, Fault> {
        if !self.shows {
            return Err(Fault::Unknown);
        }
        match word {
            b"--image" => Ok(self.awaiting(Valued::Image)),
            b"--depth" => Ok(self.awaiting(Valued::Depth)),
            b"--at" => Ok(self.awaiting(Valued::At)),
            b"--json" => Ok(Self { json: true, ..self }),
            b"--colour" => Ok(Self {
                colours: true,
                ..self
            }),
            _ => Err(Fault::Unknown),
        }
    }

    // The next word, the i-th.
    pub fn with(mut self, i: usize, word: &[u8]) -> Result<Self, Fault> {
        if let Some(option) = self.awaited.take() {
            return self.with_value(i, option, word);
        }
        if self.plain {
            return Ok(self.with_file(i));
        }
        match word {
            b"--" => Ok(Self {
                plain: true,
                ..self
            }),
            [b'-', b'-', ..] => self.with_long(word),
            [b'-', letter, rest @ ..] => self.with_letter(i, *letter, rest),
            _ => Ok(self.with_file(i)),
        }
    }

    // Behind a word that is wrong, for a program that goes on: nothing waits for its value any more.
    pub fn behind_fault(self) -> Self {
        Self {
            awaited: None,
            ..self
        }
    }

    // Behind the last word.
    pub fn ended(self) -> Result<Self, Fault> {
        match self.awaited {
            Some(option) => Err(Fault::Lacks(option)),
            None => Ok(self),
        }
    }
}

// Whether a word stands for standard input.
pub fn is_standard_input(word: &[u8]) -> bool {
    word == b"-".as_slice()
}
