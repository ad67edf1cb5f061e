#![tactic(auto)]
// Station files: a JSON text (RFC 8259) read into the image. Nothing recurses: the open values stand in an array.
ghost use Rattle.std.specs.Prelude.{◌≡◌, [], ◌∷◌, ◌+◌, ◌*◌, ◌^◌, ◌≤◌, ◌<◌, length, get_or, false};
ghost use Rattle.grammar.specs.Tags.{NULL, BOOL, FIELD};
ghost use Rattle.grammar.specs.Trees.{byte, number as number01, span, none, tree};
ghost use Rattle.grammar.specs.Image.{entry};
ghost use Rattle.grammar.specs.Writing.{Wrote};
ghost use Rattle.json_import.specs.Values.{can_begin};
ghost use Rattle.json_import.specs.Tokens.{is_blank};
ghost use Rattle.json_import.specs.Machine.{spelling, minus, first, first_name, want};
ghost use Rattle.json_import.specs.Leaves.{Ready, LeafTo, Any, NumeralTo};
ghost use Rattle.json_import.specs.Steps.{Shallow, ColonTo, NamedTo, OpensTo, Behind, Standing, ArrayNext, ObjectNext, OpenNext, EndedTo, ParsedTo};
ghost use Rattle.json_import.specs.Importer.{importing, Finds, Imports};

use grammar::tags::Tag;
use grammar::writers;
use grammar::writers::Flags;

mod fields; // an answer in numbers
mod scan; // white space, words, numbers
mod text; // strings

pub use fields::{Fields, five, numbers};

// Why a text is not read, with the place: the cases are named as their numbers.
#[derive(Clone, Copy, PartialEq, Eq)]
pub enum Unread {
    Long,
    Encoding(usize), // the bytes valid so far
    NotJson(usize), // the first byte where no JSON text continues
    Depth(usize), // where the value or number begins
    Room(usize), // the length needed
    Large(usize, usize), // a number
}

// What becomes of a text: its image's length.
pub type Importing = Result<usize, Unread>;

// Why the reading breaks off: 19, 11 and 17, each with its place.
#[derive(Clone, Copy)]
pub(crate) enum Fault {
    NotJson(usize),
    Deep(usize),
    Large(usize, usize),
}

impl From<Fault> for Unread {
    ghost from_gives = { λ fault unread. unread ≡ importing fault };

    fn from(fault: Fault) -> Unread {
        match fault {
            Fault::NotJson(n) => Unread::NotJson(n),
            Fault::Deep(n) => Unread::Depth(n),
            Fault::Large(start, end) => Unread::Large(start, end),
        }
    }
}

// How far the text is read, and how long the image is so far.
#[derive(Clone, Copy)]
pub(crate) struct Place {
    at: usize,
    written: usize,
}

// An open value: how many elements or fields it has, and of an object where the name of the field stands whose value is being read.
#[derive(Clone, Copy)]
pub(crate) enum Open {
    Array(usize),
    Object(usize, usize, usize),
}

// What is next, with the place.
#[derive(Clone, Copy)]
pub(crate) enum Step {
    Whole(Place), // a value is whole
    Within(Place, Open), // a value is wanted within an open one
}

// The limits: the longest text, and how many values may be open.
const LONGEST: usize = 65_000;

const DEPTH: usize = 200;

// `null` behind its first letter, and `false` or `true`.
fn null(text: &[u8], out: &mut [u8], from: Place) -> Result<Place, Fault>
    requires { Ready text.now from.at from.written }
    ensures { LeafTo text.now out.old Any (spelling (0x75 ∷ 0x6C ∷ 0x6C ∷ []) (tree NULL [] none)) from.at from.written result out.new }
{
    let at = scan::word(text, from.at, b"ull")?;
    let written = writers::put_none(out, from.written, Tag::NULL);
    Ok(Place { at, written })
}

fn bool(text: &[u8], out: &mut [u8], from: Place, rest: &[u8], flag: u8) -> Result<Place, Fault>
    requires { Ready text.now from.at from.written × (1 ≤ length rest.now) }
    ensures { LeafTo text.now out.old Any (spelling rest.now (tree BOOL (byte flag ∷ []) none)) from.at from.written result out.new }
{
    let at = scan::word(text, from.at, rest)?;
    let written = writers::put_flag(out, from.written, Tag::BOOL, flag);
    Ok(Place { at, written })
}

// The number whose first digit stands at a place.
fn number(text: &[u8], out: &mut [u8], from: Place) -> Result<Place, Fault>
    requires { (from.at < length text.now) × Ready text.now from.at from.written }
    ensures { NumeralTo text.now out.old from.at from.written result out.new }
{
    let at = scan::number(text, from.at)?;
    let literal = &text[from.at..at];
    if numerals::too_large(literal) {
        return Err(Fault::Large(from.at, at));
    }
    let written = writers::put_word(out, from.written, Tag::NUMBER, literal);
    Ok(Place { at, written })
}

// The number behind a minus within so many open values, and the prefix over it.
fn negative(text: &[u8], out: &mut [u8], from: Place, depth: usize) -> Result<Place, Fault>
    requires { Ready text.now from.at from.written }
    ensures { LeafTo text.now out.old (λ fs. length fs + 1 ≡ depth) minus from.at from.written result out.new }
{
    if !scan::peek(text, from.at).is_ascii_digit() {
        return Err(Fault::NotJson(from.at));
    }
    if DEPTH <= depth {
        return Err(Fault::Deep(from.at));
    }
    let behind = number(text, out, from)?;
    let written = writers::put_flag(out, behind.written, Tag::PREFIX, 1);
    Ok(Place { written, ..behind })
}

// Whether a byte can begin a value.
fn begins(b: u8) -> bool
    ensures { result ≡ can_begin b }
{
    matches!(
        b,
        b'"' | b'[' | b'{' | b'-' | b'f' | b'n' | b't' | b'0'..=b'9'
    )
}

// Behind the bracket of an array or object that has so many: its record is written.
fn closed(out: &mut [u8], bracket: Place, tag: u8, count: usize) -> Place
    requires { (bracket.at < 2 ^ 40) × (bracket.written < 2 ^ 40) × (count < 2 ^ 16) }
    ensures { (result.at ≡ bracket.at + 1) × Wrote out.old bracket.written (entry tag (number01 count ∷ [])) result.written out.new }
{
    let written = writers::put_count(out, bracket.written, tag, count);
    Place {
        at: bracket.at + 1,
        written,
    }
}

// Behind a field's name: its colon, and where its value begins.
fn behind_name(text: &[u8], end: usize) -> Result<usize, Fault>
    requires { (end ≤ length text.now) × (length text.now ≤ 65000) }
    ensures { ColonTo text.now end result }
{
    let colon = scan::blanks(text, end);
    if scan::peek(text, colon) != b':' {
        return Err(Fault::NotJson(colon));
    }
    Ok(scan::blanks(text, colon + 1))
}

// A field's name at a place, and the colon behind it: its value is wanted within the object, which has so many fields before.
fn named(text: &[u8], out: &mut [u8], from: Place, count: usize) -> Result<Step, Fault>
    requires { Ready text.now from.at from.written × (is_blank (get_or text.now from.at 0) ≡ false) }
    ensures { NamedTo text.now out.old from.at from.written count result out.new }
{
    if scan::peek(text, from.at) != b'"' {
        return Err(Fault::NotJson(from.at));
    }
    let name = text::string(text, out, from)?;
    let at = behind_name(text, name.at)?;
    let field = Open::Object(count, from.at, name.at);
    Ok(Step::Within(Place { at, ..name }, field))
}

// Behind a `[`: an empty array, or a first element.
fn array(text: &[u8], out: &mut [u8], from: Place) -> Result<Step, Fault>
    requires { Ready text.now from.at from.written }
    ensures { OpensTo text.now out.old Shallow first from.at from.written result out.new }
{
    let at = scan::blanks(text, from.at);
    let inside = Place { at, ..from };
    if scan::peek(text, at) == b']' {
        return Ok(Step::Whole(closed(out, inside, Tag::ARRAY, 0)));
    }
    Ok(Step::Within(inside, Open::Array(0)))
}

// Behind a `{`: an empty object, or a first field's name.
fn object(text: &[u8], out: &mut [u8], from: Place) -> Result<Step, Fault>
    requires { Ready text.now from.at from.written }
    ensures { OpensTo text.now out.old Shallow first_name from.at from.written result out.new }
{
    let at = scan::blanks(text, from.at);
    let inside = Place { at, ..from };
    if scan::peek(text, at) == b'}' {
        return Ok(Step::Whole(closed(out, inside, Tag::MEMBERS, 0)));
    }
    named(text, out, inside, 0)
}

// A value within so many open ones.
fn value(text: &[u8], out: &mut [u8], from: Place, depth: usize) -> Result<Step, Fault>
    requires { Ready text.now from.at from.written × (is_blank (get_or text.now from.at 0) ≡ false) }
    ensures { OpensTo text.now out.old (λ fs. length fs ≡ depth) want from.at from.written result out.new }
{
    let at = from.at;
    let b = scan::peek(text, at);
    if DEPTH <= depth {
        return Err(if begins(b) {
            Fault::Deep(at)
        } else {
            Fault::NotJson(at)
        });
    }
    let behind = Place { at: at + 1, ..from };
    let whole = match b {
        b'[' => return array(text, out, behind),
        b'{' => return object(text, out, behind),
        b'"' => text::string(text, out, from)?,
        b'-' => negative(text, out, behind, depth + 1)?,
        b'f' => bool(text, out, behind, b"alse", 0)?,
        b'n' => null(text, out, behind)?,
        b't' => bool(text, out, behind, b"rue", 1)?,
        b'0'..=b'9' => number(text, out, from)?,
        _ => return Err(Fault::NotJson(at)),
    };
    Ok(Step::Whole(whole))
}

// A value is whole within an array: the next element, or the array's end.
fn within_array(text: &[u8], out: &mut [u8], from: Place, count: usize) -> Result<Step, Fault>
    requires { Behind text.now from.at from.written count }
    ensures { ArrayNext text.now out.old from.at from.written count result out.new }
{
    match scan::peek(text, from.at) {
        b',' => {
            let at = scan::blanks(text, from.at + 1);
            Ok(Step::Within(Place { at, ..from }, Open::Array(count)))
        }
        b']' => Ok(Step::Whole(closed(out, from, Tag::ARRAY, count))),
        _ => Err(Fault::NotJson(from.at)),
    }
}

// A field is whole within an object: the next name, or the object's end.
#[tactic(auto, using(crate::proofs::NextPlaces::object_next))]
fn within_object(text: &[u8], out: &mut [u8], from: Place, count: usize) -> Result<Step, Fault>
    requires { Behind text.now from.at from.written count }
    ensures { ObjectNext text.now out.old from.at from.written count result out.new }
{
    match scan::peek(text, from.at) {
        b',' => {
            let at = scan::blanks(text, from.at + 1);
            named(text, out, Place { at, ..from }, count)
        }
        b'}' => Ok(Step::Whole(closed(out, from, Tag::MEMBERS, count))),
        _ => Err(Fault::NotJson(from.at)),
    }
}

// A field's record: its name's span, nothing computed, no plus, no method, no parameters, `:`. Where there is room for all of it, which one test tells, its
// bytes are stored at once.
fn put_field(out: &mut [u8], w: usize, a: u16, e: u16) -> usize
    requires { (w < 2 ^ 40) × (a < 2 ^ 16) × (e < 2 ^ 16) }
    ensures { Wrote out.old w (entry FIELD (span a e ∷ byte 0 ∷ byte 0 ∷ byte 0 ∷ number01 0 ∷ byte 0 ∷ [])) result out.new }
{
    let end = w + 13;
    if out.len() < end {
        let flags = Flags {
            computed: 0,
            plus: 0,
            method: 0,
        };
        return writers::put_field(out, w, a, e, flags, 0, 0);
    }
    out[w] = Tag::FIELD;
    out[w + 1] = 0;
    out[w + 2] = 10;
    out[w + 3] = (a / 256) as u8;
    out[w + 4] = (a % 256) as u8;
    out[w + 5] = (e / 256) as u8;
    out[w + 6] = (e % 256) as u8;
    out[w + 7] = 0;
    out[w + 8] = 0;
    out[w + 9] = 0;
    out[w + 10] = 0;
    out[w + 11] = 0;
    out[w + 12] = 0;
    end
}

// A value is whole within an open one: of an object, its field is.
fn within(text: &[u8], out: &mut [u8], from: Place, opened: Open) -> Result<Step, Fault>
    requires { Ready text.now from.at from.written × Standing from.at opened }
    ensures { OpenNext text.now out.old from.at from.written opened result out.new }
{
    let at = scan::blanks(text, from.at);
    match opened {
        Open::Array(count) => within_array(text, out, Place { at, ..from }, count + 1),
        Open::Object(count, start, end) => {
            let written = put_field(out, from.written, start as u16, end as u16);
            within_object(text, out, Place { at, written }, count + 1)
        }
    }
}

// The text's value is whole: only white space may be left.
fn ended(text: &[u8], from: usize) -> Result<(), Fault>
    requires { from ≤ length text.now }
    ensures { EndedTo text.now from result }
{
    let end = scan::blanks(text, from);
    if end < text.len() {
        return Err(Fault::NotJson(end));
    }
    Ok(())
}

// The text's value, and nothing but white space round it: the image's length. It stands in the output, as far as it has room.
fn parse(text: &[u8], out: &mut [u8]) -> Result<usize, Fault>
    requires { length text.now ≤ 65000 }
    ensures { ParsedTo text.now out.old result out.new }
{
    let mut stack = [Open::Array(0); 200];
    let mut depth = 0;
    let mut place = Place {
        at: scan::blanks(text, 0),
        written: 0,
    };
    loop {
        let mut step = value(text, out, place, depth)?;
        // A value is whole, and perhaps open ones with it.
        while let Step::Whole(behind) = step {
            if depth == 0 {
                ended(text, behind.at)?;
                return Ok(behind.written);
            }
            depth -= 1;
            step = within(text, out, behind, stack[depth])?;
        }
        if let Step::Within(inside, opened) = step {
            stack[depth] = opened;
            depth += 1;
            place = inside;
        }
    }
}

// The answer: the text's length and encoding first, the room last. Beyond the image the output may hold anything yet.
fn find(text: &[u8], output: &mut [u8]) -> Importing
    ensures { Finds text.now output.old result output.new }
{
    if LONGEST < text.len() {
        return Err(Unread::Long);
    }
    let valid = strings::utf8::valid_to(text);
    if valid < text.len() {
        return Err(Unread::Encoding(valid));
    }
    let length = parse(text, output)?;
    if output.len() < length {
        return Err(Unread::Room(length));
    }
    Ok(length)
}

// A text read into a lent output: what is beyond the image is cleared.
pub fn read_json(text: &[u8], output: &mut [u8]) -> Importing
    ensures { Imports text.now output.old result output.new }
{
    let found = find(text, output);
    let length = found.unwrap_or(0);
    output[length..].fill(0);
    found
}
