// A record as a line: its name in words, then its operator, name or text, its counts, and its place.
use crate::links::Record;
use crate::paths::{IDENTITIES, is_name, say_letters};
use grammar::tags::Tag;
use show::page::{Colour, Page};
use show::texts::{has_lines, lines};

// The infix operators by their bytes.
const OPERATORS: [&str; 20] = [
    "*", "/", "%", "+", "-", "<<", ">>", "<", ">", "<=", ">=", "&", "|", "^", "==", "!=", "&&",
    "||", "??", "in",
];

// A name in its colour.
fn say_coloured(page: &mut Page, name: &[u8]) {
    page.paint(Colour::Name);
    say_letters(page, name);
    page.plain();
}

// What a pattern does with the rest.
fn say_rest(page: &mut Page, what: u8, name: &[u8]) {
    match what {
        0 => {}
        1 => page.say(b", the rest dropped"),
        _ => {
            page.say(b", the rest kept as ");
            say_coloured(page, name);
        }
    }
}

fn say_visibility(page: &mut Page, visibility: u8) {
    match visibility {
        0 => {}
        1 => page.say(b", hidden"),
        _ => page.say(b", forced visible"),
    }
}

fn say_field_name(page: &mut Page, name: &[u8]) {
    if is_name(name) {
        say_letters(page, name);
        return;
    }
    page.say_quoted(name);
}

impl<'a> Record<'a> {
    // ` at` the place where the span begins that stands at a place of the payload.
    fn say_at(&self, page: &mut Page, at: usize) {
        let tree = self.tree;
        page.paint(Colour::Place);
        page.say_at(tree.places, self.number(at));
        page.plain();
    }

    // A text of several lines by their count: they follow it line by line.
    fn say_string(&self, page: &mut Page, several: bool) {
        if several {
            page.say(b"string");
            page.say_count(lines(self.payload), b" lines");
            return;
        }
        page.say(b"string ");
        page.paint(Colour::Text);
        page.say_quoted(self.payload);
        page.plain();
    }

    // Whether it is a text of several lines.
    pub fn is_several(&self) -> bool {
        self.tag == Tag::STRING && has_lines(self.payload)
    }

    // A record that has no children; whether it is a text of several lines.
    pub fn say_leaf(&self, page: &mut Page, several: bool) {
        match self.tag {
            Tag::IDENTITY => {
                page.say_word(&IDENTITIES, self.byte(0));
                self.say_at(page, 1);
            }
            Tag::NULL => page.say(b"null"),
            Tag::BOOL => page.say_word(&["false", "true"], self.byte(0)),
            Tag::NUMBER => {
                page.say(b"number ");
                say_coloured(page, self.payload);
            }
            Tag::STRING => self.say_string(page, several),
            _ => {
                page.say(b"variable ");
                say_coloured(page, self.rest(4));
                self.say_at(page, 0);
            }
        }
    }

    fn say_collection(&self, page: &mut Page) {
        match self.tag {
            Tag::ARRAY => {
                page.say(b"array");
                page.say_count(self.number(0), b" elements");
            }
            Tag::ARRAY_COMP => {
                page.say(b"array comprehension");
                page.say_count(self.number(0), b" clauses");
            }
            Tag::MEMBERS => {
                page.say(b"object");
                page.say_count(self.number(0), b" members");
            }
            _ => {
                page.say(b"object comprehension");
                page.say_count(self.number(0), b" members");
                page.say_count(self.number(2), b" clauses");
            }
        }
    }

    // An operator and its place; an infix record from before request 8 has none.
    fn say_infix(&self, page: &mut Page) {
        page.paint(Colour::Name);
        page.say_word(&OPERATORS, self.byte(0));
        page.plain();
        if self.payload.len() > 1 {
            self.say_at(page, 1);
        }
    }

    fn say_phrase(&self, page: &mut Page) {
        match self.tag {
            Tag::PREFIX => {
                page.say(b"prefix ");
                page.say_word(&["+", "-", "~", "!"], self.byte(0));
            }
            Tag::INFIX => {
                page.say(b"infix ");
                self.say_infix(page);
            }
            Tag::ASSERT_EXPR => page.say(b"assert expression"),
            Tag::LOCAL => {
                page.say(b"local");
                page.say_count(self.number(0), b" binds");
            }
            Tag::IMPORT => {
                page.say_word(&["import", "importstr", "importbin"], self.byte(0));
                self.say_at(page, 1);
            }
            _ => {
                page.say(b"error");
                self.say_at(page, 0);
            }
        }
    }

    // What is called, indexed, sliced or extended, where it is a path: it stands on the line, and in parentheses where these began a new run.
    fn say_base(&self, page: &mut Page) {
        let tree = self.tree;
        let base = tree.first_child(self.index);
        let is_closed = tree.tag(base) == Tag::INDEX_PART && tree.begins_run(self.index);
        page.paint(Colour::Name);
        page.say_if(is_closed, b"(");
        tree.say_path(page, base);
        page.say_if(is_closed, b")");
        page.plain();
    }

    fn say_arguments(&self, page: &mut Page) {
        page.say_count(self.number(5), b" arguments");
        let named = self.number(7);
        if named > 0 {
            page.say_count(named, b" named arguments");
        }
        page.say_if(self.flag(4), b", tailstrict");
    }

    // One of a slice's parts, where it is there.
    fn say_part(&self, page: &mut Page, is_there: bool, word: &[u8], at: usize) {
        if is_there {
            page.say(word);
            self.say_at(page, at);
        }
    }

    fn say_bounds(&self, page: &mut Page) {
        let there = self.byte(0);
        self.say_part(page, there % 2 != 0, b", start", 1);
        self.say_part(page, there / 2 % 2 != 0, b", end", 5);
        self.say_part(page, there / 4 % 2 != 0, b", step", 9);
    }

    // An index behind its base: `.name`, or what stands between brackets below it.
    fn say_index(&self, page: &mut Page) {
        let tree = self.tree;
        if tree.is_named_part(self.index) {
            tree.say_part_name(page, self.index);
            return;
        }
        page.say_if(self.flag(5), b"?.");
        page.say(b"[..]");
    }

    // `index` and its path, or the path and what follows it.
    fn say_whole_index(&self, page: &mut Page) {
        let tree = self.tree;
        page.say(b"index ");
        if tree.is_named_part(self.index) {
            page.paint(Colour::Name);
            tree.say_path(page, self.index);
            page.plain();
            return;
        }
        self.say_base(page);
        self.say_index(page);
    }

    // What stands behind a path on its line.
    fn say_suffix(&self, page: &mut Page) {
        match self.tag {
            Tag::CALL => {
                page.say(b"call ");
                self.say_base(page);
                self.say_at(page, 0);
                self.say_arguments(page);
            }
            Tag::INDEX_PART => {
                self.say_whole_index(page);
                self.say_at(page, 0);
            }
            Tag::SLICE => {
                page.say(b"slice ");
                self.say_base(page);
                self.say_bounds(page);
            }
            _ => {
                page.say(b"extension of ");
                self.say_base(page);
            }
        }
    }

    // The same where its base, which is no path, stands before it; and a further operator of a chain.
    pub fn say_step(&self, page: &mut Page) {
        let tree = self.tree;
        match self.tag {
            Tag::CALL => {
                page.say(b"call");
                self.say_at(page, 0);
                self.say_arguments(page);
            }
            Tag::INDEX_PART => {
                self.say_index(page);
                self.say_at(page, 0);
                let base = tree.tag(tree.first_child(self.index));
                let is_closed = base == Tag::INDEX_PART && self.flag(4);
                page.say_if(is_closed, b", behind parentheses");
            }
            Tag::SLICE => {
                page.say(b"slice");
                self.say_bounds(page);
            }
            Tag::EXTENSION => page.say(b"extension"),
            _ => self.say_infix(page),
        }
    }

    fn say_control(&self, page: &mut Page) {
        match self.tag {
            Tag::NAMED_ARGUMENT => {
                page.say(b"named argument ");
                say_coloured(page, self.payload);
            }
            Tag::FUNCTION => {
                page.say(b"function");
                self.say_at(page, 0);
                page.say_count(self.number(4), b" parameters");
            }
            _ => {
                page.say(b"if");
                self.say_at(page, 0);
            }
        }
    }

    // The name that a pattern is, on the line of what it belongs to.
    fn say_pattern_name(&self, page: &mut Page) {
        let pattern = self.first_child();
        if pattern.tag == Tag::NAME_PATTERN {
            page.say(b" ");
            say_coloured(page, pattern.rest(4));
            pattern.say_at(page, 0);
        }
    }

    fn say_bound(&self, page: &mut Page) {
        match self.tag {
            Tag::BIND => {
                page.say(b"bind");
                self.say_pattern_name(page);
                if self.flag(0) {
                    page.say(b", a function");
                    page.say_count(self.number(1), b" parameters");
                }
            }
            Tag::PARAMETER => {
                page.say(b"parameter");
                self.say_pattern_name(page);
                page.say_if(self.flag(0), b" with default");
            }
            _ => {
                page.say(b"for");
                self.say_pattern_name(page);
            }
        }
    }

    fn say_pattern_field(&self, page: &mut Page) {
        page.say(b"pattern field ");
        say_coloured(page, self.rest(6));
        page.say_if(self.flag(0), b", its own pattern");
        if self.flag(1) {
            page.say(b", default");
            self.say_at(page, 2);
        }
    }

    fn say_pattern(&self, page: &mut Page) {
        match self.tag {
            Tag::NAME_PATTERN => {
                page.say(b"name ");
                say_coloured(page, self.rest(4));
                self.say_at(page, 0);
            }
            Tag::SKIP => page.say(b"skipped"),
            Tag::ARRAY_PATTERN => {
                page.say(b"array pattern");
                page.say_count(self.number(0), b" leading elements");
                say_rest(page, self.byte(2), self.rest(5));
                page.say_count(self.number(3), b" trailing elements");
            }
            Tag::OBJECT_PATTERN => {
                page.say(b"object pattern");
                page.say_count(self.number(0), b" fields");
                say_rest(page, self.byte(2), self.rest(3));
            }
            _ => self.say_pattern_field(page),
        }
    }

    // A field's name where it is fixed: the first record of its tree.
    fn say_fixed(&self, page: &mut Page) {
        let tree = self.tree;
        if self.flag(4) {
            page.say(b"[..]");
            return;
        }
        say_field_name(page, tree.payload(self.first()));
    }

    // What a field is besides.
    fn say_marks(&self, page: &mut Page) {
        page.say_if(self.flag(5), b", added with +");
        say_visibility(page, self.byte(9));
        if self.flag(6) {
            page.say(b", a method");
            page.say_count(self.number(7), b" parameters");
        }
    }

    // Whether a field is neither added with +, nor a method, nor hidden or forced visible.
    fn is_plain_field(&self) -> bool {
        !self.flag(5) && !self.flag(6) && !self.flag(9)
    }

    fn say_field(&self, page: &mut Page) {
        page.say(b"field ");
        page.paint(Colour::Name);
        self.say_fixed(page);
        page.plain();
        self.say_at(page, 0);
        if !self.is_plain_field() {
            self.say_marks(page);
        }
    }

    fn say_member(&self, page: &mut Page) {
        match self.tag {
            Tag::ASSERT => {
                page.say(b"assert");
                self.say_at(page, 0);
                page.say_if(self.flag(4), b" with message");
            }
            Tag::IF_CLAUSE => {
                page.say(b"if clause");
                self.say_at(page, 0);
            }
            Tag::OBJECT_ITERATION => {
                page.say(b"for object, key ");
                say_coloured(page, self.rest(1));
                say_visibility(page, self.byte(0));
            }
            _ => page.say(b"no record"),
        }
    }

    // Its line, with the children that stand on it.
    pub fn say(&self, page: &mut Page) {
        match self.tag {
            Tag::IDENTITY..=Tag::VARIABLE => self.say_leaf(page, self.is_several()),
            Tag::ARRAY..=Tag::OBJECT_COMP => self.say_collection(page),
            Tag::EXTENSION | Tag::CALL | Tag::INDEX_PART | Tag::SLICE => self.say_suffix(page),
            Tag::PREFIX..=Tag::ERROR => self.say_phrase(page),
            Tag::NAMED_ARGUMENT..=Tag::IF => self.say_control(page),
            Tag::BIND | Tag::PARAMETER | Tag::FOR => self.say_bound(page),
            Tag::NAME_PATTERN..=Tag::PATTERN_FIELD => self.say_pattern(page),
            Tag::FIELD => self.say_field(page),
            _ => self.say_member(page),
        }
    }
}
