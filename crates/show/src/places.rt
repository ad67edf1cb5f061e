// Places in a source as a person counts them.
use crate::page::Page;
use crate::say::is_inside;
use crate::short::Short;

// A line and a character in it, both from 1.
#[derive(Clone, Copy, PartialEq, Eq, PartialOrd, Ord)]
pub struct Place {
    line: u32,
    column: u32,
}

// A number as a place keeps it.
fn kept(n: usize) -> u32 {
    u32::try_from(n).unwrap_or(u32::MAX)
}

impl Place {
    // What stands where no place has been found yet.
    pub const NONE: Place = Place { line: 0, column: 0 };

    // The first of a source.
    const FIRST: Place = Place { line: 1, column: 1 };

    pub fn new(line: usize, column: usize) -> Self {
        Self {
            line: kept(line),
            column: kept(column),
        }
    }

    // The place after a byte.
    fn after(self, b: u8) -> Self {
        if b == b'\n' {
            return Self {
                line: self.line.wrapping_add(1),
                column: 1,
            };
        }
        if is_inside(b) {
            return self;
        }
        Self {
            line: self.line,
            column: self.column.wrapping_add(1),
        }
    }

    // That of a byte.
    fn of(source: &[u8], at: usize) -> Self {
        let before = source.iter().take(at);
        before.fold(Self::FIRST, |place, b| place.after(*b))
    }

    // `LINE:COLUMN` before a text.
    fn put(self, text: &mut Short) {
        text.put_number(self.column as usize);
        text.put(b":");
        text.put_number(self.line as usize);
    }
}

// The places of all bytes of a source and of its end, found once, for a tree has many places; nothing where there is no room for them.
pub fn find_places<'a>(source: &[u8], places: &'a mut [Place]) -> &'a [Place] {
    if places.len() <= source.len() {
        return &[];
    }
    let mut place = Place::FIRST;
    for (i, b) in source.iter().enumerate() {
        places[i] = place;
        place = place.after(*b);
    }
    places[source.len()] = place;
    &places[..=source.len()]
}

// The byte at a place: the last one that comes by it, before the first that does not.
pub fn byte_at(places: &[Place], by: Place) -> usize {
    let after = places.iter().take_while(|place| **place <= by).count();
    after.saturating_sub(1)
}

// That of a byte before a text; `byte N` for an image that came without its source.
fn put_found(text: &mut Short, places: &[Place], at: usize) {
    match places.get(at) {
        Some(place) => place.put(text),
        None => {
            text.put_number(at);
            text.put(b"byte ");
        }
    }
}

impl Page {
    // `LINE:COLUMN` of a byte of a source.
    pub fn say_place(&mut self, source: &[u8], at: usize) {
        let mut text = Short::new();
        let place = Place::of(source, at);
        place.put(&mut text);
        self.say(text.as_slice());
    }

    // The same where the places are found.
    pub fn say_found(&mut self, places: &[Place], at: usize) {
        let mut text = Short::new();
        put_found(&mut text, places, at);
        self.say(text.as_slice());
    }

    // The same behind ` at `.
    pub fn say_at(&mut self, places: &[Place], at: usize) {
        let mut text = Short::new();
        put_found(&mut text, places, at);
        text.put(b" at ");
        self.say(text.as_slice());
    }
}
