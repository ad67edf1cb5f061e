// The records around a place of the source.
use crate::links::{Record, Tree};
use grammar::tags::Tag;
use show::page::Page;

// Where something stands in the source.
#[derive(Clone, Copy)]
struct Span {
    start: usize,
    end: usize,
}

// Whether the last record of which something holds, if there is one, is another or comes after it.
fn comes_by(last: Option<usize>, first: usize) -> bool {
    match last {
        Some(r) => first <= r,
        None => false,
    }
}

impl<'a> Record<'a> {
    // Where in its payload its span stands, if it has one.
    fn span_at(&self) -> Option<usize> {
        match self.tag {
            Tag::IDENTITY | Tag::INFIX | Tag::IMPORT => Some(1),
            Tag::VARIABLE | Tag::ERROR | Tag::CALL | Tag::INDEX_PART | Tag::FUNCTION => Some(0),
            Tag::IF | Tag::NAME_PATTERN | Tag::FIELD | Tag::ASSERT | Tag::IF_CLAUSE => Some(0),
            _ => None,
        }
    }

    fn span(&self) -> Option<Span> {
        match self.span_at() {
            Some(at) if at < self.payload.len() => Some(Span {
                start: self.number(at),
                end: self.number(at.saturating_add(2)),
            }),
            _ => None,
        }
    }

    fn say_found(&self, page: &mut Page) {
        if self.tag != Tag::INFIX && self.is_step() {
            page.say(b"then ");
            self.say_step(page);
        } else {
            self.say_whole(page);
        }
        page.say(b"\n");
    }
}

impl<'a> Tree<'a> {
    // Shows the records around a byte of the source, the innermost first: those that have, in the places that they and the records below them keep,
    // one that begins at it or before it and one that ends behind it. Whether there are any. A record comes after those below it, so the last records that
    // begin and end so tell whether they stand below.
    pub fn show_around(&'a self, page: &mut Page, at: usize) -> bool {
        let mut begun = None;
        let mut ended = None;
        let mut found = false;
        for r in 0..self.count {
            let record = self.record(r);
            if let Some(span) = record.span() {
                if span.start <= at {
                    begun = Some(r);
                }
                if at < span.end {
                    ended = Some(r);
                }
            }
            let first = record.first();
            if comes_by(begun, first) && comes_by(ended, first) {
                record.say_found(page);
                found = true;
            }
        }
        found
    }
}

pub fn tell_none(page: &mut Page, name: &[u8]) {
    page.say_characters(name);
    page.say(b": no record of the tree has a place around that one.\n");
}
