// Two sources that part, as a person reads it: what stands in each at the place, and its line.
use crate::file::File;
use crate::page::Page;

// What stands at a place of a file where it parts from another.
#[derive(Clone, Copy)]
pub struct Difference<'a> {
    pub file: File<'a>,
    pub start: usize,
    pub end: usize,
}

impl<'a> Difference<'a> {
    fn say_here(self, page: &mut Page) {
        if self.end <= self.start {
            page.say(b"nothing more");
            return;
        }
        if let Some(text) = self.file.text.get(self.start..self.end) {
            page.say_text(b"`", text);
        }
    }

    // The place, what stands there between words, and its line with carets.
    fn tell(self, page: &mut Page, before: &[u8], after: &[u8]) {
        self.file.say_place(page, self.start);
        page.say(before);
        self.say_here(page);
        page.say(after);
        page.say_line(self.file.text, self.start, self.end);
    }

    // That of the first file.
    pub fn tell_first(self, page: &mut Page) {
        self.tell(page, b"", b" stands here,\n");
    }

    // That of the second.
    pub fn tell_second(self, page: &mut Page) {
        self.tell(page, b"and ", b" here.\n");
    }
}
