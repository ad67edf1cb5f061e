// What is written goes to a page, and from it to standard output when it is full.
use arrayvec::ArrayVec;
use std::io::Error;
use system::Output;

// How many bytes a page has room for.
const SIZE: usize = 4096;

// What a text is coloured as.
#[derive(Clone, Copy)]
pub enum Colour {
    Fault, // what a fault is marked with
    Text,
    Name,
    File, // a file's name
    Place,
    Plain, // none
}

impl Colour {
    // What tells a terminal of it.
    fn code(self) -> &'static [u8] {
        match self {
            Colour::Fault => b"\x1b[1;31m",
            Colour::Text => b"\x1b[32m",
            Colour::Name => b"\x1b[36m",
            Colour::File => b"\x1b[1m",
            Colour::Place => b"\x1b[2m",
            Colour::Plain => b"\x1b[0m",
        }
    }
}

#[derive(Drop)]
pub struct Page {
    out: Output,
    colours: bool, // whether there are any
    text: ArrayVec<u8, SIZE>,
}

impl Page {
    // An empty page, with colours or without.
    pub fn new(rt: &HostRuntime, colours: bool) -> Self {
        Self {
            out: Output::new(rt),
            colours,
            text: ArrayVec::new(),
        }
    }

    // Why the last write failed that did, of all since the page began.
    pub fn fault(&self) -> Option<Error> {
        self.out.fault()
    }

    // All that is written so far goes out, and the page is empty.
    pub fn flush(&mut self) {
        self.out.write(self.text.as_slice());
        self.text.clear();
    }

    // A text for which the page has no room behind what is written: it goes onto the empty page, or out by itself where it is longer than that.
    #[inline(never)]
    fn turn(&mut self, text: &[u8]) {
        self.flush();
        if self.text.try_extend_from_slice(text).is_err() {
            self.out.write(text);
        }
    }

    // A text behind what is written.
    #[inline(always)]
    pub fn say(&mut self, text: &[u8]) {
        if self.text.try_extend_from_slice(text).is_err() {
            self.turn(text);
        }
    }

    // The same where something holds.
    pub fn say_if(&mut self, holds: bool, text: &[u8]) {
        if holds {
            self.say(text);
        }
    }

    // A text of one byte.
    pub fn say_byte(&mut self, b: u8) {
        self.say(&[b]);
    }

    // A colour from here on, where there are colours.
    pub fn paint(&mut self, colour: Colour) {
        if self.colours {
            self.say(colour.code());
        }
    }

    // No colour from here on.
    pub fn plain(&mut self) {
        self.paint(Colour::Plain);
    }
}
