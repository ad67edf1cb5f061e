// What stands open before a place of a refused source, told from the kept lexemes before it: brackets, and which member of an object it is.
use crate::page::Page;
use crate::records::byte;
use arrayvec::ArrayVec;
use lexemes::Lexeme;
use lexemes::kept::next_kept;
use lexemes::kinds::Kind;

// How many open brackets are noted. No phrase that is read stands so deep.
const ROOM: usize = 512;

// An open bracket, and what has stood in it so far. Room for all is made at once, so it is two words.
#[derive(Clone, Copy, Default)]
struct Bracket {
    mark: usize, // twice where it stands, and one more where a comma may stand in it
    member: usize, // where the current member of an object starts, which is behind the bracket; 0 where none does
}

impl Bracket {
    fn new(start: usize, takes_commas: bool) -> Self {
        Self {
            mark: start << 1 | usize::from(takes_commas),
            member: 0,
        }
    }

    fn start(self) -> usize {
        self.mark / 2
    }

    fn takes_commas(self) -> bool {
        self.mark % 2 != 0
    }

    // No comma may stand in it from here on, behind a `for`.
    fn end_commas(&mut self) {
        self.mark = self.start() << 1;
    }

    fn member(self) -> Option<usize> {
        (self.member != 0).then_some(self.member)
    }
}

// The brackets that are open before a place of a source, the innermost last.
#[derive(Drop)]
pub struct Brackets<'a> {
    source: &'a [u8],
    open: ArrayVec<Bracket, ROOM>,
    awaits_member: bool, // whether the next lexeme starts a member
}

// Whether a lexeme may end what is called or indexed.
fn ends_operand(kind: u8) -> bool {
    matches!(
        kind,
        Kind::IDENT
            | Kind::R_BRACK
            | Kind::R_PAREN
            | Kind::R_BRACE
            | Kind::DOLLAR
            | Kind::SELF_KW
            | Kind::SUPER_KW
            | Kind::FUNCTION_KW
            | Kind::STRING_DOUBLE
            | Kind::STRING_SINGLE
            | Kind::STRING_DOUBLE_VERBATIM
            | Kind::STRING_SINGLE_VERBATIM
            | Kind::STRING_BLOCK
    )
}

// Whether commas stand in a bracket, by the lexeme before it and whether it starts a member: none do in an index, in a computed name or in parentheses
// around a phrase.
fn has_commas(kind: u8, last: u8, is_member: bool) -> bool {
    match kind {
        Kind::L_BRACE => true,
        Kind::L_PAREN => ends_operand(last),
        _ => !is_member && last != Kind::FOR_KW && !ends_operand(last),
    }
}

// A field's name and where it stands, if the member that starts at a place is a field with a fixed name.
fn name_at(source: &[u8], at: usize) -> Option<Lexeme> {
    let l = next_kept(source, at);
    if ends_operand(l.kind) && l.start < l.end && l.end <= source.len() {
        return Some(l);
    }
    None
}

impl<'a> Brackets<'a> {
    // Those that are open before a place.
    pub fn before(source: &'a [u8], to: usize) -> Self {
        let mut brackets = Self {
            source,
            open: ArrayVec::new(),
            awaits_member: false,
        };
        let mut last = Kind::EOF;
        let mut at = 0;
        while at < to {
            let l = next_kept(source, at);
            if to <= l.start || l.end <= at {
                break;
            }
            let kind = l.kind;
            at = l.end;
            brackets.note(l, last);
            last = kind;
        }
        brackets
    }

    // A lexeme behind those that are noted, and the kind of the one before it.
    fn note(&mut self, l: Lexeme, last: u8) {
        let is_member = self.awaits_member;
        self.awaits_member = false;
        match l.kind {
            Kind::L_BRACE | Kind::L_BRACK | Kind::L_PAREN => self.note_open(l, last, is_member),
            Kind::R_BRACE | Kind::R_BRACK | Kind::R_PAREN => {
                let _ = self.open.pop();
            }
            _ => self.note_word(l, is_member),
        }
    }

    // The first member of an object starts behind its bracket.
    fn note_open(&mut self, l: Lexeme, last: u8, is_member: bool) {
        let bracket = Bracket::new(l.start, has_commas(l.kind, last, is_member));
        if self.open.try_push(bracket).is_ok() {
            self.awaits_member = l.kind == Kind::L_BRACE;
        }
    }

    // A comma ends a member, and what starts one is noted.
    fn note_word(&mut self, l: Lexeme, is_member: bool) {
        let source = self.source;
        let Some(top) = self.open.as_mut_slice().last_mut() else {
            return;
        };
        match l.kind {
            Kind::FOR_KW => top.end_commas(),
            Kind::COMMA => {
                top.member = 0;
                self.awaits_member = byte(source, top.start()) == b'{';
            }
            _ if is_member => top.member = l.start,
            _ => {}
        }
    }

    // Whether a comma would do as well as what closes the bracket that was opened last.
    pub fn take_comma(&self, wanted: u8) -> bool {
        match self.open.as_slice().last() {
            Some(top) if top.takes_commas() => matches!(
                (byte(self.source, top.start()), wanted),
                (b'{', Kind::R_BRACE) | (b'[', Kind::R_BRACK) | (b'(', Kind::R_PAREN)
            ),
            _ => false,
        }
    }

    // The name of the innermost field.
    fn field(&self) -> Option<Lexeme> {
        let source = self.source;
        let brackets = self.open.as_slice().iter().rev();
        brackets
            .filter_map(|bracket| bracket.member())
            .find_map(|at| name_at(source, at))
    }

    // `, in the [ at LINE:COLUMN, in the field NAME at LINE:COLUMN`: the bracket that was opened last, and the innermost field.
    pub fn say(&self, page: &mut Page) {
        let source = self.source;
        let Some(top) = self.open.as_slice().last() else {
            return;
        };
        let start = top.start();
        page.say(b", in the `");
        page.say_byte(byte(source, start));
        page.say(b"` at ");
        page.say_place(source, start);
        if let Some(name) = self.field() {
            page.say(b", in the field ");
            page.say_name(source.get(name.start..name.end).unwrap_or(&[]));
            page.say(b" at ");
            page.say_place(source, name.start);
        }
    }
}
