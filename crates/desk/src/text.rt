// Text put together in a lent buffer. What is written to it and has no room is left out.
ghost use Rattle.std.specs.Prelude.{◌≡◌, length};

use crate::list::List;
use std::fmt;
use std::fmt::{Display, Write};

pub type Text<'a> = List<'a, u8>;

const DIGITS: [u8; 16] = *b"0123456789abcdef";

impl fmt::Write for List<'_, u8> {
    fn write_str(&mut self, text: &str) -> fmt::Result {
        self.extend(text.as_bytes());
        Ok(())
    }
}

impl List<'_, u8> {
    // What a value prints as.
    pub fn put<D: Display + Drop>(&mut self, value: D)
        ensures { length self.new.room.now ≡ length self.old.room.now }
    {
        // what prints is lent a list over what is left, so that this one's room stays
        let mut rest = List::new(&mut self.room[self.count..]);
        let _ = rest.write_fmt(value);
        let n = rest.count;
        self.count += n.min(self.room.len() - self.count);
    }

    // Bytes in lower-case hex, and the line's end.
    pub fn put_hex_line(&mut self, bytes: &[u8])
        ensures { length self.new.room.now ≡ length self.old.room.now }
    {
        for b in bytes {
            self.push(DIGITS[usize::from(*b / 16)]);
            self.push(DIGITS[usize::from(*b % 16)]);
        }
        self.extend(b"\n");
    }

    // Numbers with commas between them; a sign for none.
    pub fn put_list<T: Copy + Display>(&mut self, numbers: &[T])
        ensures { length self.new.room.now ≡ length self.old.room.now }
    {
        let Some((first, others)) = numbers.split_first() else {
            self.extend(b"-");
            return;
        };
        self.put(*first);
        for n in others {
            self.extend(b",");
            self.put(*n);
        }
    }
}
