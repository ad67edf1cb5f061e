// A refusal as a sentence, with the line that it is about.
ghost use Rattle.std.specs.Prelude.{◌≤◌, length};

use crate::bad_blocks::line_at_fault;
use crate::file::File;
use crate::page::{Colour, Page};
use crate::say::{character_end, columns, is_inside};
use crate::within::Brackets;
use grammar::numbers::Number;
use lexemes::kinds::Kind;

// How many characters of the line are shown before the place, and from it on.
const BEFORE: usize = 50;

const AFTER: usize = 30;

// A refusal in document 01's numbers.
#[derive(Clone, Copy)]
pub struct Refusal {
    pub number: u64,
    pub start: u64,
    pub end: u64,
    pub detail: u64,
    pub length: u64,
}

// What is wrong.
#[derive(Clone, Copy)]
enum Fault {
    Setting,
    Long,
    Encoding,
    Lexeme(u8), // a bad one, by its kind
    Wanted(u8), // another lexeme is, of this kind
    NoFieldName,
    NoName,
    NoExpression,
    LateArgument, // one without a name, behind one with a name
    SecondField, // an object comprehension has it
    Assert, // an object comprehension has one
    NoField, // an object comprehension has none
    Escape(usize), // where its backslash stands
    Depth,
    Room(usize), // how many bytes the tree takes
    Large,
}

// A number or a detail, which is a kind or below 5.
fn small(n: u64) -> u8 {
    u8::try_from(n).unwrap_or(0)
}

// The name of a kind of lexeme that is wanted.
fn kind_name(kind: u8) -> &'static [u8] {
    match kind {
        Kind::EOF => b"the end of the file",
        Kind::IDENT => b"a name",
        Kind::R_BRACK => b"`]`",
        Kind::L_PAREN => b"`(`",
        Kind::R_PAREN => b"`)`",
        Kind::R_BRACE => b"`}`",
        Kind::COLON => b"`:`",
        Kind::SEMI => b"`;`",
        Kind::DOT => b"`.`",
        Kind::ASSIGN => b"`=`",
        Kind::THEN_KW => b"`then`",
        Kind::IN_KW => b"`in`",
        _ => b"something else",
    }
}

// What is wrong with a bad lexeme.
fn lexeme_fault(kind: u8) -> &'static [u8] {
    match kind {
        Kind::ERROR_FLOAT_JUNK_AFTER_POINT => b"a number has no digit after its point",
        Kind::ERROR_FLOAT_JUNK_AFTER_EXPONENT => {
            b"a number has no digit after its exponent's letter"
        }
        Kind::ERROR_FLOAT_JUNK_AFTER_EXPONENT_SIGN => {
            b"a number has no digit after its exponent's sign"
        }
        Kind::ERROR_STRING_DOUBLE_UNTERMINATED => b"a string's closing \" is missing",
        Kind::ERROR_STRING_SINGLE_UNTERMINATED => b"a string's closing ' is missing",
        Kind::ERROR_STRING_DOUBLE_VERBATIM_UNTERMINATED => {
            b"a verbatim string's closing \" is missing"
        }
        Kind::ERROR_STRING_SINGLE_VERBATIM_UNTERMINATED => {
            b"a verbatim string's closing ' is missing"
        }
        Kind::ERROR_STRING_VERBATIM_MISSING_QUOTES => b"a quote is wanted after @",
        Kind::ERROR_STRING_BLOCK_UNEXPECTED_END => {
            b"a text block is not closed before the file ends"
        }
        Kind::ERROR_STRING_BLOCK_MISSING_NEW_LINE => {
            b"a new line is wanted after a text block's |||"
        }
        Kind::ERROR_STRING_BLOCK_MISSING_TERMINATION => {
            b"a text block has a line with neither its indent nor |||"
        }
        Kind::ERROR_STRING_BLOCK_MISSING_INDENT => b"a text block's first line is not indented",
        Kind::ERROR_COMMENT_TOO_SHORT => b"/*/ does not close a comment",
        Kind::ERROR_COMMENT_UNTERMINATED => b"a comment is not closed",
        _ => b"no word, number or sign begins so",
    }
}

// Whether a bad lexeme is a text block of which one line is at fault.
fn has_bad_line(kind: u8) -> bool {
    matches!(
        kind,
        Kind::ERROR_STRING_BLOCK_MISSING_TERMINATION | Kind::ERROR_STRING_BLOCK_MISSING_INDENT
    )
}

impl Fault {
    // Whether it has a place.
    fn has_place(self) -> bool {
        !matches!(self, Fault::Setting | Fault::Long | Fault::Room(_))
    }

    // Whether a phrase is refused: it is then told what stands open there.
    fn is_of_phrase(self) -> bool {
        match self {
            Fault::Wanted(_) | Fault::NoFieldName | Fault::NoName | Fault::NoExpression => true,
            Fault::LateArgument | Fault::SecondField | Fault::Assert | Fault::NoField => true,
            _ => false,
        }
    }

    // In words.
    fn say(self, page: &mut Page) {
        let words: &[u8] = match self {
            Fault::Encoding => b"the bytes are not UTF-8",
            Fault::Lexeme(kind) => lexeme_fault(kind),
            Fault::Wanted(kind) => {
                page.say(kind_name(kind));
                b" is wanted"
            }
            Fault::NoFieldName => b"a field name is wanted",
            Fault::NoName => b"a name or a pattern is wanted",
            Fault::NoExpression => b"an expression is wanted",
            Fault::LateArgument => b"an argument without a name follows one with a name",
            Fault::SecondField => b"the object comprehension that ends here has a second field",
            Fault::Assert => b"the object comprehension that ends here has an assert",
            Fault::NoField => b"the object comprehension that ends here has no field",
            Fault::Large => b"the number is more than a double holds, some 1.797e308",
            _ => b"phrases stand more than 200 deep in each other",
        };
        page.say(words);
    }
}

// Where the shown part of a line begins: so many characters before the place, or with the line.
// Kept by hand, and `shown_to`: `behind` and `ahead` of the line need its ends, which are sought over all of a long line for each place that is shown in it.
fn shown_from(source: &[u8], at: usize) -> usize
    requires { at ≤ length source.now }
    ensures { result ≤ at }
{
    let mut left = BEFORE;
    for (i, b) in source[..at].iter().enumerate().rev() {
        if *b == b'\n' || left == 0 {
            return i + 1;
        }
        if !is_inside(*b) {
            left -= 1;
        }
    }
    0
}

// Where it ends: so many characters from the place on, or with the line.
fn shown_to(source: &[u8], at: usize) -> usize
    requires { at ≤ length source.now }
    ensures { (at ≤ result) × (result ≤ length source.now) }
{
    let mut i = at;
    for _ in 0..AFTER {
        if source.len() <= i || source[i] == b'\n' {
            return i;
        }
        i = character_end(source, i);
    }
    i
}

// Whether a part of a line that begins here leaves some of it out.
fn is_cut_before(source: &[u8], from: usize) -> bool {
    matches!(source.get(..from), Some([.., b]) if *b != b'\n')
}

fn is_cut_after(source: &[u8], to: usize) -> bool {
    matches!(source.get(to), Some(b) if *b != b'\n')
}

// How many columns are marked of a line that is shown up to a place: one at least.
fn marked(source: &[u8], start: usize, end: usize, to: usize) -> usize {
    match source.get(start..end.min(to)) {
        None | Some([]) => 1,
        Some(text) => columns(text),
    }
}

impl Page {
    // The shown part of a line.
    fn say_shown(&mut self, source: &[u8], from: usize, to: usize)
        requires { (from ≤ to) × (to ≤ length source.now) }
    {
        self.say(b"    ");
        self.say_if(is_cut_before(source, from), b"...");
        self.say_characters(&source[from..to]);
        self.say_if(is_cut_after(source, to), b"...");
        self.say(b"\n");
    }

    // The line below it: so many columns up to the place, and carets.
    fn say_marks(&mut self, is_cut: bool, before: usize, count: usize) {
        self.say(b"    ");
        self.say_if(is_cut, b"   ");
        self.say_times(b" ", before);
        self.paint(Colour::Fault);
        self.say_times(b"^", count);
        self.plain();
        self.say(b"\n");
    }

    // The line, and carets under the place.
    pub fn say_line(&mut self, source: &[u8], start: usize, end: usize) {
        if source.len() < start {
            return;
        }
        let from = shown_from(source, start);
        let to = shown_to(source, start);
        self.say_shown(source, from, to);
        self.say_marks(
            is_cut_before(source, from),
            columns(&source[from..start]),
            marked(source, start, end, to),
        );
    }

    // What stands at the place of a refusal.
    fn say_there(&mut self, fault: Fault, source: &[u8], start: usize, end: usize) {
        match (source.get(start), fault) {
            (Some(b), Fault::Encoding) => {
                self.say(b"; the byte 0x");
                self.say_hex(u32::from(*b), 2);
                self.say(b" stands there");
            }
            (Some(_), _) if start < end => {
                if let Some(text) = source.get(start..end) {
                    self.say(b"; ");
                    self.say_text(b"`", text);
                    self.say(b" stands there");
                }
            }
            _ => self.say(b"; nothing more stands there"),
        }
    }

    // A file that is read, under its name, as one line.
    pub fn tell_read(&mut self, name: &[u8]) {
        self.say_characters(name);
        self.say(b": ok\n");
    }
}

impl Refusal {
    // What is wrong, by its number and detail.
    fn fault(self) -> Fault {
        let detail = small(self.detail);
        match small(self.number) {
            Number::SETTING => Fault::Setting,
            Number::LONG => Fault::Long,
            Number::ENCODING => Fault::Encoding,
            Number::LEXEME => Fault::Lexeme(detail),
            Number::WANTED => Fault::Wanted(detail),
            Number::ABSENT if detail == 1 => Fault::NoFieldName,
            Number::ABSENT => Fault::NoName,
            Number::EXPRESSION => Fault::NoExpression,
            Number::MISPLACED => match detail {
                1 => Fault::LateArgument,
                2 => Fault::SecondField,
                3 => Fault::Assert,
                _ => Fault::NoField,
            },
            Number::ESCAPE => Fault::Escape(self.detail as usize),
            Number::ROOM => Fault::Room(self.length as usize),
            Number::LARGE => Fault::Large,
            _ => Fault::Depth,
        }
    }

    // What is wrong, and what stands there.
    fn say_fault(self, page: &mut Page, fault: Fault, source: &[u8]) {
        fault.say(page);
        page.say_there(fault, source, self.start as usize, self.end as usize);
    }

    // The same of a phrase, and what stands open there.
    fn say_phrase(self, page: &mut Page, fault: Fault, source: &[u8]) {
        let brackets = Brackets::before(source, self.start as usize);
        if let Fault::Wanted(kind) = fault {
            page.say_if(brackets.take_comma(kind), b"`,` or ");
        }
        self.say_fault(page, fault, source);
        brackets.say(page);
    }

    // The sentence of a fault that has a place.
    fn say_sentence(self, page: &mut Page, fault: Fault, source: &[u8]) {
        page.say_place(source, self.start as usize);
        page.say(b": ");
        if fault.is_of_phrase() {
            self.say_phrase(page, fault, source);
        } else {
            self.say_fault(page, fault, source);
        }
        page.say(b".\n");
    }

    // The sentence of a bad escape, at its backslash.
    fn say_bad_escape(self, page: &mut Page, at: usize, source: &[u8]) {
        page.say_place(source, at);
        page.say(b": ");
        if at < source.len() {
            page.say_escape(&source[at..]);
        }
        Brackets::before(source, self.start as usize).say(page);
        page.say(b".\n");
    }

    // A refusal of a file under its name, as one line; whether it has a place.
    pub fn tell_in_a_line(self, page: &mut Page, file: File) -> bool {
        page.say_characters(file.name);
        page.say(b":");
        let fault = self.fault();
        match fault {
            Fault::Setting => page.say(b" the setting is above 15.\n"),
            Fault::Long => {
                page.say(b" the file is longer than 65,000 bytes, the most that is read.\n")
            }
            Fault::Room(length) => {
                page.say(b" the tree takes ");
                page.say_number(length);
                page.say(b" bytes, more than there is room for.\n");
            }
            Fault::Escape(at) => self.say_bad_escape(page, at, file.text),
            _ => self.say_sentence(page, fault, file.text),
        }
        fault.has_place()
    }

    // A refusal with the line of the source that it is about: a bad escape is marked at its backslash, and where the bytes are not UTF-8, it is the line
    // up to there.
    pub fn tell(self, page: &mut Page, file: File) {
        if !self.tell_in_a_line(page, file) {
            return;
        }
        let source = file.text;
        let start = self.start as usize;
        let end = self.end as usize;
        match self.fault() {
            Fault::Escape(at) => page.say_line(source, at, at.saturating_add(1)),
            Fault::Encoding => page.say_line(source.get(..start).unwrap_or(&[]), start, start),
            Fault::Lexeme(kind) if has_bad_line(kind) => {
                page.say_line(source, start, end);
                let at = line_at_fault(source, start);
                file.say_place(page, at);
                page.say(b"this line.\n");
                page.say_line(source, at, at);
            }
            _ => page.say_line(source, start, end),
        }
    }
}
