// The judge's lines. A question is taken in byte by byte, so that a line may be of any length. Its forms:
//     SETTING OUTLEN HEXSOURCE
//     night SETTING ENDS OUTENDS OUTLEN ANSWERLEN HEXSOURCES
//     back HEXIMAGE
//     mass LISTLEN HEXIMAGE
//     json OUTLEN HEXTEXT
ghost use Rattle.std.specs.Prelude.{◌≡◌, ◌≤◌, IfOk, length};

pub use crate::is_clear;
use crate::list::List;
use crate::nights::Night;
use crate::text::Text;
use crate::{Fields, Language, backs, masses};

// The longest output that a question may ask for.
pub const OUTPUT: usize = 1_048_576;

// How many bytes of sources or of an image are kept. Of one source that is enough for the reader to see that it is too long; a night's and an
// image are not cut.
pub const SOURCE: usize = 1_048_576;

// How many numbers a list of a question may have, and room for a question's two.
pub const LIST: usize = 4_096;

pub const LISTS: usize = 8_192;

// The most numbers that a question may ask for as listings.
pub const LISTINGS: usize = 8_192;

// The most numbers that a question may ask for as a list of answers: five for each of a list.
pub const ANSWERS: usize = 20_480;

// The most numbers that can be lent as the links of an image: an image of 400,000 bytes needs as many.
pub const LINKS: usize = 266_666;

// Room for the longest answer: two digits for each byte of the output, twenty and a comma for each number, and five numbers before them.
pub const TEXT: usize = 2_527_360;

// No word of a form is longer.
const WORD: usize = 8;

// What no question has.
#[derive(Clone, Copy, Debug)]
struct Bad;

#[derive(Clone, Copy, Debug, PartialEq, Eq)]
enum Form {
    Source,
    Night,
    Back,
    Mass,
    Json,
}

// The fields of a question.
#[derive(Clone, Copy, Debug, PartialEq, Eq)]
enum Stage {
    Word, // the form's word
    Setting,
    Ends, // the ends of files
    Parts, // the ends of their parts
    Room, // the output's length
    Count, // the length of the list for the answers or the listings
    Bytes, // the hex of the sources or the image
    Bad, // what no question has
}

impl Form {
    // The form that a word names; a source has none.
    fn named(word: &[u8]) -> Result<Form, Bad> {
        match word {
            b"night" => Ok(Form::Night),
            b"back" => Ok(Form::Back),
            b"mass" => Ok(Form::Mass),
            b"json" => Ok(Form::Json),
            _ => Err(Bad),
        }
    }

    // The field that follows a field.
    fn next(self, stage: Stage) -> Result<Stage, Bad> {
        match (self, stage) {
            (Form::Night, Stage::Word) => Ok(Stage::Setting),
            (Form::Night, Stage::Setting) => Ok(Stage::Ends),
            (Form::Night, Stage::Ends) => Ok(Stage::Parts),
            (Form::Night, Stage::Parts) => Ok(Stage::Room),
            (Form::Night, Stage::Room) => Ok(Stage::Count),
            (Form::Night, Stage::Count) => Ok(Stage::Bytes),
            (Form::Back, Stage::Word) => Ok(Stage::Bytes),
            (Form::Mass, Stage::Word) => Ok(Stage::Count),
            (Form::Mass, Stage::Count) => Ok(Stage::Bytes),
            (Form::Json, Stage::Word) => Ok(Stage::Room),
            (Form::Json | Form::Source, Stage::Room) => Ok(Stage::Bytes),
            (Form::Source, Stage::Setting) => Ok(Stage::Room),
            _ => Err(Bad),
        }
    }
}

// What has come of a field, or of an element of a list.
#[derive(Clone, Copy, Debug, PartialEq, Eq)]
enum Field {
    Empty,
    Begun,
    None, // it is the sign for none, behind which nothing may follow
}

// The letters of a form's word.
#[derive(Clone, Copy)]
struct Word {
    letters: [u8; WORD],
    count: usize,
    ghost fits: { count ≤ 8 },
}

impl Word {
    fn new() -> Self {
        Self {
            letters: [0; WORD],
            count: 0,
        }
    }

    fn push(&mut self, letter: u8) -> Result<(), Bad> {
        let n = self.count;
        if n == WORD {
            return Err(Bad);
        }
        self.letters[n] = letter;
        self.count = n + 1;
        Ok(())
    }

    fn as_slice(&self) -> &[u8] {
        &self.letters[..self.count]
    }
}

// A question as far as it has come, but for its lists and bytes.
#[derive(Clone, Copy)]
pub struct Question {
    form: Form,
    stage: Stage,
    field: Field,
    word: Word,
    number: u64, // the number of the field so far
    setting: u64,
    room: u64,
    count: u64,
    high: Option<u8>, // the first digit of a pair whose second has not come
    is_cut: bool, // whether some bytes of the sources or the image were not kept
}

impl Question {
    pub fn new() -> Self {
        Self {
            form: Form::Source,
            stage: Stage::Setting,
            field: Field::Empty,
            word: Word::new(),
            number: 0,
            setting: 0,
            room: 0,
            count: 0,
            high: None,
            is_cut: false,
        }
    }

    // Whether a character of the question has come.
    pub fn is_begun(self) -> bool {
        self.field != Field::Empty || self.stage != Stage::Setting || self.form != Form::Source
    }

    // A digit of a number of at most 64 bits.
    fn take_digit(&mut self, b: u8) -> Result<(), Bad> {
        if !b.is_ascii_digit() {
            return Err(Bad);
        }
        let tens = self.number.checked_mul(10).ok_or(Bad)?;
        self.number = tens.checked_add(u64::from(b - b'0')).ok_or(Bad)?;
        self.field = Field::Begun;
        Ok(())
    }

    // A letter of the form's word.
    fn take_letter(&mut self, b: u8) -> Result<(), Bad> {
        self.word.push(b)?;
        self.stage = Stage::Word;
        self.field = Field::Begun;
        Ok(())
    }

    // The sign for none.
    fn take_none(&mut self) -> Result<(), Bad> {
        if self.field != Field::Empty {
            return Err(Bad);
        }
        self.field = Field::None;
        Ok(())
    }

    // A character of a word or a number.
    fn take_character(&mut self, b: u8) -> Result<(), Bad> {
        let in_word = self.stage == Stage::Word;
        match b {
            b'a'..=b'z' if in_word || !self.is_begun() => self.take_letter(b),
            b'0'..=b'9' if !in_word => self.take_digit(b),
            _ => Err(Bad),
        }
    }
}

fn digit(b: u8) -> Result<u8, Bad>
    ensures { IfOk result (λ n. n ≤ 15) }
{
    match b {
        b'0'..=b'9' => Ok(b - b'0'),
        b'a'..=b'f' => Ok(b - b'a' + 10),
        _ => Err(Bad),
    }
}

// One element more.
fn add(list: &mut List<usize>, number: u64) -> Result<(), Bad> {
    if list.is_full() {
        return Err(Bad);
    }
    list.push(number as usize);
    Ok(())
}

// A question as far as it has come, with its lists and bytes.
#[derive(Drop)]
pub struct Intake<'a> {
    head: Question,
    source: List<'a, u8>, // the bytes of the sources or the image, as many as are kept
    ends: List<'a, usize>,
    parts: List<'a, usize>,
}

impl<'a> Intake<'a> {
    // One that is taken in to these buffers.
    pub fn new(source: &'a mut [u8], ends: &'a mut [usize], parts: &'a mut [usize]) -> Self {
        Self {
            head: Question::new(),
            source: List::new(source),
            ends: List::new(ends),
            parts: List::new(parts),
        }
    }

    // Nothing of the next one has come.
    fn clear(&mut self) {
        self.head = Question::new();
        self.source.clear();
        self.ends.clear();
        self.parts.clear();
    }

    fn is_whole(&self) -> bool {
        let head = &self.head;
        head.stage == Stage::Bytes && head.field != Field::Empty && head.high.is_none()
    }

    // Of a source or a station's text, what it is written in.
    fn language(&self) -> Language {
        match self.head.form {
            Form::Json => Language::Json,
            _ => Language::Jsonnet(self.head.setting),
        }
    }

    // An element of a list that has ended.
    fn end_element(&mut self) -> Result<(), Bad> {
        if self.head.field != Field::Begun {
            return Err(Bad);
        }
        let number = self.head.number;
        if self.head.stage == Stage::Parts {
            add(&mut self.parts, number)?;
        } else {
            add(&mut self.ends, number)?;
        }
        self.head.number = 0;
        self.head.field = Field::Empty;
        Ok(())
    }

    // The field that has ended, kept.
    fn keep(&mut self) -> Result<(), Bad> {
        let head = &mut self.head;
        match head.stage {
            Stage::Word => head.form = Form::named(head.word.as_slice())?,
            Stage::Setting => head.setting = head.number,
            Stage::Room => head.room = head.number,
            Stage::Count => head.count = head.number,
            _ => {
                if head.field != Field::None {
                    return self.end_element();
                }
            }
        }
        Ok(())
    }

    // A space: the end of a field.
    fn take_space(&mut self) -> Result<(), Bad> {
        if self.head.field == Field::Empty {
            return Err(Bad);
        }
        self.keep()?;
        let head = &mut self.head;
        head.stage = head.form.next(head.stage)?;
        head.field = Field::Empty;
        head.number = 0;
        Ok(())
    }

    // A character of a list: a comma, or a digit of an element, or the sign for none, which nothing may stand before.
    fn take_listed(&mut self, b: u8) -> Result<(), Bad> {
        let list = if self.head.stage == Stage::Parts {
            &self.parts
        } else {
            &self.ends
        };
        match b {
            b',' => self.end_element(),
            b'-' if list.as_slice().is_empty() => self.head.take_none(),
            _ => self.head.take_digit(b),
        }
    }

    // A digit of the sources or the image.
    fn take_hex(&mut self, b: u8) -> Result<(), Bad> {
        let head = &mut self.head;
        if b == b'-' {
            return head.take_none();
        }
        let low = digit(b)?;
        head.field = Field::Begun;
        match head.high.take() {
            None => head.high = Some(low),
            Some(_) if self.source.is_full() => head.is_cut = true,
            Some(high) => self.source.push(high << 4 | low),
        }
        Ok(())
    }

    fn take_in(&mut self, b: u8) -> Result<(), Bad> {
        if self.head.field == Field::None && b != b' ' {
            return Err(Bad);
        }
        match self.head.stage {
            Stage::Bad => Err(Bad),
            Stage::Bytes => self.take_hex(b),
            _ if b == b' ' => self.take_space(),
            Stage::Ends | Stage::Parts => self.take_listed(b),
            _ => self.head.take_character(b),
        }
    }

    // One byte more of the line.
    fn take(&mut self, b: u8) {
        if self.take_in(b).is_err() {
            self.head.stage = Stage::Bad;
        }
    }

    // The answer's line for a night.
    fn answer_night(
        &self,
        output: &mut [u8],
        answers: &mut [u64],
        text: &mut Text,
    ) -> Result<(), Bad>
        ensures { length text.new.room.now ≡ length text.old.room.now }
    {
        let head = &self.head;
        let output = output.get_mut(..head.room as usize).ok_or(Bad)?;
        let answers = answers.get_mut(..head.count as usize).ok_or(Bad)?;
        let night = Night {
            setting: head.setting,
            sources: self.source.as_slice(),
            ends: self.ends.as_slice(),
            output,
            parts: self.parts.as_slice(),
            answers,
        };
        night.answer_into(text);
        Ok(())
    }

    // The answer's line for an image, which is lent just as many numbers as it needs.
    fn answer_back(&self, links: &mut [usize], text: &mut Text) -> Result<(), Bad>
        ensures { length text.new.room.now ≡ length text.old.room.now }
    {
        let image = self.source.as_slice();
        let links = links.get_mut(..image.len() / 3 * 2).ok_or(Bad)?;
        backs::answer_into(image, links, text);
        Ok(())
    }

    // The answer's line for the planner's list, whose array has just as many numbers as the image needs.
    fn answer_mass(
        &self,
        links: &mut [usize],
        list: &mut [usize],
        text: &mut Text,
    ) -> Result<(), Bad>
        ensures { length text.new.room.now ≡ length text.old.room.now }
    {
        let image = self.source.as_slice();
        let links = links.get_mut(..image.len() / 3 * 2).ok_or(Bad)?;
        let list = list.get_mut(..self.head.count as usize).ok_or(Bad)?;
        masses::answer_into(image, links, list, text);
        Ok(())
    }

    // The answer's line for a source or a station's text.
    fn answer_source(&self, output: &mut [u8], text: &mut Text) -> Result<(), Bad>
        ensures { length text.new.room.now ≡ length text.old.room.now }
    {
        let output = output.get_mut(..self.head.room as usize).ok_or(Bad)?;
        answer_into(self.language(), self.source.as_slice(), output, text);
        Ok(())
    }
}

// The line `NUMBER START END DETAIL LENGTH HEXIMAGE`; `dirty` where more than the image stands in the output.
fn tell(f: Fields, output: &[u8], text: &mut Text)
    ensures { length text.new.room.now ≡ length text.old.room.now }
{
    let image = crate::image(f, output);
    if !is_clear(output, image.len()) {
        text.put("dirty\n");
        return;
    }
    let Fields {
        number,
        start,
        end,
        detail,
        length,
    } = f;
    text.put(format_args!("{number} {start} {end} {detail} {length} "));
    if number != 0 {
        text.put("-\n");
        return;
    }
    text.put_hex_line(image);
}

// The answer's line for a source or a station's text.
pub fn answer_into(language: Language, source: &[u8], output: &mut [u8], text: &mut Text)
    ensures { length text.new.room.now ≡ length text.old.room.now }
{
    // anything but zeros, so that what the reader leaves untouched is seen
    output.fill(0xAA);
    let f = crate::answer_in(language, source, output);
    tell(f, output, text);
}

// Where questions are taken in and answered.
#[derive(Drop)]
pub struct Clerk<'a> {
    pub question: Intake<'a>,
    pub output: &'a mut [u8],
    pub answers: &'a mut [u64],
    pub links: &'a mut [usize],
    pub listings: &'a mut [usize],
    pub text: Text<'a>, // the answer's line
}

impl Clerk<'_> {
    fn answer_asked(&mut self) -> Result<(), Bad>
        ensures { length self.new.text.room.now ≡ length self.old.text.room.now }
    {
        let q = &self.question;
        if !q.is_whole() {
            return Err(Bad);
        }
        let text = &mut self.text;
        match q.head.form {
            Form::Source | Form::Json => q.answer_source(self.output, text),
            _ if q.head.is_cut => Err(Bad),
            Form::Night => q.answer_night(self.output, self.answers, text),
            Form::Back => q.answer_back(self.links, text),
            Form::Mass => q.answer_mass(self.links, self.listings, text),
        }
    }

    // The answer's line for the question, behind which the next one is taken in; `bad` for a line that asks nothing, and for one that the buffers are too
    // short for.
    fn answer(&mut self)
        ensures { length self.new.text.room.now ≡ length self.old.text.room.now }
    {
        self.text.clear();
        if self.answer_asked().is_err() {
            self.text.put("bad\n");
        }
        self.question.clear();
    }

    // One byte more of a line, and whether it was its end: then the line is answered.
    pub fn take(&mut self, b: u8) -> bool
        ensures { length self.new.text.room.now ≡ length self.old.text.room.now }
    {
        let is_end = b == b'\n';
        if is_end {
            self.answer();
        } else {
            self.question.take(b);
        }
        is_end
    }

    // The end of all lines, and whether one came before it that lacked its own: then that is answered.
    pub fn finish(&mut self) -> bool
        ensures { length self.new.text.room.now ≡ length self.old.text.room.now }
    {
        let is_begun = self.question.head.is_begun();
        if is_begun {
            self.answer();
        }
        is_begun
    }
}
