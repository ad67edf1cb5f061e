// A file that is told of.
use crate::page::Page;

#[derive(Clone, Copy)]
pub struct File<'a> {
    pub name: &'a [u8],
    pub text: &'a [u8],
}

impl<'a> File<'a> {
    // `NAME:LINE:COLUMN: `, what a sentence about a place begins with.
    pub fn say_place(self, page: &mut Page, at: usize) {
        page.say_characters(self.name);
        page.say(b":");
        page.say_place(self.text, at);
        page.say(b": ");
    }
}
