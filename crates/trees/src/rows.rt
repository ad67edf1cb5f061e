// Arrays of small values, which stand several to a line.
use crate::links::Record;
use grammar::tags::Tag;
use show::page::Page;
use show::texts::has_lines;

// The most bytes that a small value has.
const SMALL: usize = 32;

// How many bytes a line of them has, or a value more.
const LINE: usize = 64;

// Few elements stand on the array's own line.
const FEW: usize = 6;

// What stands behind a value: nothing behind the last, a new line where the line is full.
fn say_gap(page: &mut Page, is_last: bool, is_full: bool, depth: usize) {
    if is_last {
        page.say(b"\n");
        return;
    }
    if is_full {
        page.say(b",\n");
        page.indent(depth);
        return;
    }
    page.say(b", ");
}

fn say_start(page: &mut Page, count: usize, depth: usize) {
    if count <= FEW {
        page.say(b": ");
        return;
    }
    page.say(b"\n");
    page.indent(depth);
}

impl<'a> Record<'a> {
    // Whether it is such a value.
    fn is_small(&self) -> bool {
        self.payload.len() <= SMALL
            && match self.tag {
                Tag::NULL | Tag::BOOL | Tag::NUMBER => true,
                Tag::STRING => !has_lines(self.payload),
                _ => false,
            }
    }

    // How many records stand below it.
    fn below(&self) -> usize {
        self.index.saturating_sub(self.first())
    }

    // Whether all elements of an array are such values: it then has as many records below it as elements.
    pub fn is_row(&self) -> bool {
        let tree = self.tree;
        let count = self.number(0);
        count > 0
            && self.below() == count
            && (self.first()..self.index).all(|r| tree.record(r).is_small())
    }

    // A value without a word before it, where its form tells what it is.
    fn say_small(&self, page: &mut Page) {
        match self.tag {
            Tag::NUMBER => page.say_name(self.payload),
            Tag::STRING => page.say_quoted(self.payload),
            _ => self.say_leaf(page, false),
        }
    }

    // The elements, so many to a line.
    pub fn show_row(&self, page: &mut Page, depth: usize) {
        let tree = self.tree;
        say_start(page, self.below(), depth);
        let mut used = 0usize;
        for r in self.first()..self.index {
            let value = tree.record(r);
            value.say_small(page);
            used = used.saturating_add(value.payload.len().saturating_add(4));
            let is_full = used > LINE;
            say_gap(page, r + 1 == self.index, is_full, depth);
            used = if is_full { 0 } else { used + 4 };
        }
    }
}
