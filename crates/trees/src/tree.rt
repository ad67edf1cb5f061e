// The image's records stand children first; a person reads a tree from its root. So the records are shown from the last on, by a stack of those
// that wait. What a chain is made of is not indented further and far: the body of a `local` begins with `in`, and another operator, index or call
// that is applied to what stands above it with `then`.
pub use crate::links::{Record, Tree};
use grammar::tags::Tag;
use show::page::{Colour, Page};
use show::records::byte;
use show::texts::has_lines;

// How a record's line begins.
#[derive(Clone, Copy, PartialEq, Eq)]
enum Beginning {
    Plain,
    In, // the body of what stands above it
    Else, // what stands above it has it as its else
    Then, // what it is applied to has been shown, and stands above it
}

impl Beginning {
    // The word for it.
    fn word(self) -> &'static [u8] {
        match self {
            Beginning::Plain => b"",
            Beginning::In => b"in ",
            Beginning::Else => b"else ",
            Beginning::Then => b"then ",
        }
    }
}

// So many depths and records are told apart.
const DEPTHS: usize = 65_536;

const RECORDS: usize = 16_777_216;

// A record that waits, how deep its line stands, and how it begins.
#[derive(Clone, Copy)]
pub struct Entry {
    record: u32,
    depth: u16,
    how: Beginning,
}

impl Entry {
    // What the place of an entry holds that is not used.
    pub const NONE: Entry = Entry {
        record: 0,
        depth: 0,
        how: Beginning::Plain,
    };

    fn new(record: usize, depth: usize, how: Beginning) -> Self {
        Self {
            record: (record % RECORDS) as u32,
            depth: (depth % DEPTHS) as u16,
            how,
        }
    }

    fn depth(self) -> usize {
        usize::from(self.depth)
    }
}

// The entries that wait, the next last, in room that is lent.
#[derive(Drop)]
struct Stack<'a> {
    entries: &'a mut [Entry],
    used: usize,
}

impl<'a> Stack<'a> {
    // An entry on top, if there is room.
    fn push(&mut self, entry: Entry) {
        let top = self.used;
        if top < self.entries.len() {
            self.entries[top] = entry;
            self.used = top + 1;
        }
    }

    // The top, which is taken off.
    fn pop(&mut self) -> Option<Entry> {
        let top = self.used.checked_sub(1)?;
        self.used = top;
        self.entries.get(top).copied()
    }

    // The top, if more wait than before.
    fn above(&self, before: usize) -> Option<Entry> {
        let top = self.used;
        if top <= before {
            return None;
        }
        self.entries.get(top - 1).copied()
    }
}

// The powers of infix operators by their bytes in the image, as infix_binding_power has them.
fn power(operator: u8) -> u8 {
    match operator {
        0..=2 => 20,
        3..=4 => 18,
        5..=6 => 16,
        11 => 10,
        12 => 6,
        13 => 8,
        14..=15 => 12,
        16 => 4,
        17..=18 => 2,
        _ => 14,
    }
}

// Which children stand on a record's line or above it, and how the line of the last begins.
#[derive(Clone, Copy)]
struct Shape {
    first: bool,
    last: bool,
    how: Beginning,
}

impl<'a> Record<'a> {
    // Whether it and the record of its left operand are infix operators of one power.
    fn is_chain(&self) -> bool {
        let tree = self.tree;
        let left = tree.first_child(self.index);
        tree.tag(left) == Tag::INFIX && power(self.byte(0)) == power(byte(tree.payload(left), 0))
    }

    // Whether it is shown below its first child, as what is done to that.
    pub fn is_step(&self) -> bool {
        let tree = self.tree;
        match self.tag {
            Tag::INFIX => self.is_chain(),
            Tag::INDEX_PART if tree.is_named_part(self.index) => !tree.is_path(self.index),
            Tag::INDEX_PART | Tag::CALL | Tag::SLICE | Tag::EXTENSION => {
                !tree.is_path(tree.first_child(self.index))
            }
            _ => false,
        }
    }

    // Whether the first child stands on the line or above it.
    fn has_first(&self, how: Beginning) -> bool {
        let tree = self.tree;
        how == Beginning::Then
            || match self.tag {
                Tag::FIELD => !self.flag(4),
                Tag::CALL | Tag::INDEX_PART | Tag::SLICE | Tag::EXTENSION => true,
                Tag::BIND | Tag::PARAMETER | Tag::FOR => {
                    tree.tag(tree.first_child(self.index)) == Tag::NAME_PATTERN
                }
                _ => false,
            }
    }

    // Whether the last child of such a record is a value that may stand on its line.
    fn takes_value(&self) -> bool {
        match self.tag {
            Tag::FIELD => !self.flag(6),
            Tag::BIND => !self.flag(0),
            Tag::PARAMETER => self.flag(0),
            Tag::NAMED_ARGUMENT | Tag::PREFIX | Tag::IMPORT | Tag::ERROR => true,
            _ => false,
        }
    }

    // Whether the last child stands on the line: a part's name, or the record's value.
    fn has_last(&self) -> bool {
        let tree = self.tree;
        if self.tag == Tag::INDEX_PART {
            return tree.is_named_part(self.index);
        }
        self.index > 0 && self.takes_value() && tree.is_small_value(self.index - 1)
    }

    // How the line of the last child begins.
    fn last_how(&self) -> Beginning {
        match self.tag {
            Tag::LOCAL | Tag::ASSERT_EXPR => Beginning::In,
            Tag::IF if self.flag(4) => Beginning::Else,
            _ => Beginning::Plain,
        }
    }

    fn shape(&self, how: Beginning) -> Shape {
        Shape {
            first: self.has_first(how),
            last: self.has_last(),
            how: self.last_how(),
        }
    }

    // A record with the value that stands on its line, if its last child does.
    fn say_with_value(&self, page: &mut Page, has_last: bool) {
        let tree = self.tree;
        self.say(page);
        if has_last && self.index > 0 && self.tag != Tag::INDEX_PART {
            page.say(b": ");
            tree.record(self.index - 1).say_leaf(page, false);
        }
    }

    // The same of a record by itself.
    pub fn say_whole(&self, page: &mut Page) {
        self.say_with_value(page, self.has_last());
    }

    // Its line without the end: what it does to what stands above it, or the record.
    fn say_line(&self, page: &mut Page, how: Beginning, has_last: bool) {
        page.say(how.word());
        if how == Beginning::Then {
            self.say_step(page);
        } else {
            self.say_with_value(page, has_last);
        }
    }
}

// What is shown of a tree: lines no deeper than `most`.
#[derive(Clone, Copy)]
struct View<'a> {
    tree: &'a Tree<'a>,
    most: usize,
}

impl<'a> View<'a> {
    // A record's children that do not stand on its line on top of the stack, the last below: they stand below their parent's line, or at the same depth
    // where their lines begin with a word.
    fn push_children(self, stack: &mut Stack, of: usize, shape: Shape, depth: usize) {
        let tree = self.tree;
        let first = tree.first(of);
        let mut how = shape.how;
        let mut is_skipped = shape.last;
        let mut c = of;
        while first < c {
            let child = c - 1;
            let next = tree.first(child);
            if c <= next || (next <= first && shape.first) {
                return;
            }
            if !is_skipped {
                let below = if how == Beginning::Plain {
                    depth.saturating_add(1)
                } else {
                    depth
                };
                stack.push(Entry::new(child, below, how));
            }
            is_skipped = false;
            how = Beginning::Plain;
            c = next;
        }
    }

    // What ends a record's line: dots where something below it stands too deep.
    fn say_line_end(self, page: &mut Page, depth: usize) {
        page.say_if(depth > self.most, b" ...");
        page.say(b"\n");
    }

    // A record without children: its line, and behind it a text's own lines, or dots where they stand too deep.
    fn show_leaf(self, page: &mut Page, record: Record, depth: usize, how: Beginning) {
        let is_several = record.is_several();
        let below = if is_several {
            depth.saturating_add(1)
        } else {
            0
        };
        page.indent(depth);
        page.say(how.word());
        record.say_leaf(page, is_several);
        self.say_line_end(page, below);
        if is_several && below <= self.most {
            page.show_lines(record.payload, below);
        }
    }

    // The elements of an array of small values behind its line, several to a line, or dots where they stand too deep.
    fn show_elements(self, page: &mut Page, record: Record, depth: usize) {
        if depth > self.most {
            page.say(b" ...\n");
            return;
        }
        record.show_row(page, depth);
    }

    // A record's line and what belongs to it, and its children on the stack.
    fn show_record(
        self,
        page: &mut Page,
        stack: &mut Stack,
        record: Record,
        depth: usize,
        how: Beginning,
    ) {
        let shape = record.shape(how);
        page.indent(depth);
        record.say_line(page, how, shape.last);
        if record.tag == Tag::ARRAY && record.is_row() {
            self.show_elements(page, record, depth.saturating_add(1));
            return;
        }
        let before = stack.used;
        self.push_children(stack, record.index, shape, depth);
        let deepest = match stack.above(before) {
            Some(entry) => entry.depth(),
            None => 0,
        };
        self.say_line_end(page, deepest);
    }

    // The next of the stack: a record is shown, or first what it is applied to; or it is too deep.
    fn show_next(self, page: &mut Page, stack: &mut Stack, entry: Entry) {
        let tree = self.tree;
        let depth = entry.depth();
        let how = entry.how;
        if depth > self.most {
            return;
        }
        let record = tree.record(entry.record as usize);
        if record.tag <= Tag::VARIABLE {
            self.show_leaf(page, record, depth, how);
        } else if how == Beginning::Then || !record.is_step() {
            self.show_record(page, stack, record, depth, how);
        } else {
            stack.push(Entry::new(record.index, depth, Beginning::Then));
            stack.push(Entry::new(tree.first_child(record.index), depth, how));
        }
    }
}

impl<'a> Tree<'a> {
    pub fn record(&'a self, r: usize) -> Record<'a> {
        Record {
            tree: self,
            index: r,
            tag: self.tag(r),
            payload: self.payload(r),
        }
    }

    // Whether a record is a value without children, and without lines of its own.
    fn is_small_value(&self, r: usize) -> bool {
        match self.tag(r) {
            Tag::STRING => !has_lines(self.payload(r)),
            Tag::IDENTITY..=Tag::VARIABLE => true,
            _ => false,
        }
    }

    // The tree whole. The root is the last record. Lines deeper than `most` are left out.
    pub fn show(&'a self, page: &mut Page, entries: &mut [Entry], most: usize) {
        if self.count == 0 {
            return;
        }
        let view = View { tree: self, most };
        let mut stack = Stack { entries, used: 0 };
        stack.push(Entry::new(self.count - 1, 0, Beginning::Plain));
        // each record stands on the stack twice at most
        for _ in 0..self.count % RECORDS * 2 {
            let Some(entry) = stack.pop() else {
                return;
            };
            view.show_next(page, &mut stack, entry);
        }
    }
}

// The name of the file whose tree follows.
pub fn tell_name(page: &mut Page, name: &[u8]) {
    page.paint(Colour::File);
    page.say_characters(name);
    page.say(b":");
    page.plain();
    page.say(b"\n");
}
