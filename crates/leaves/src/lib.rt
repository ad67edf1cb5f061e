#![tactic(auto)]
// Phrases, and ends of phrases, that read no other phrase; and what every phrase function reads by and answers with.
ghost use Rattle.std.specs.Prelude.{◌≡◌, ◌⊎◌, [], ◌∷◌, ◌+◌, ◌-◌, ◌≤◌, ◌<◌, ◌^◌, length};
ghost use Rattle.std.proofs.lemmas.List.Edits.{sets};
ghost use Rattle.std.proofs.Math.Seq.{slice};
ghost use Rattle.strings.specs.Decoding.{Decoding, Never};
ghost use Rattle.strings.specs.Literals.{Quoted, BadEscape, Verbatim};
ghost use Rattle.numerals.specs.Value.{TooLarge};
ghost use Rattle.lexemes.specs.Kinds.{L_BRACK, L_BRACE, FLOAT};
ghost use Rattle.lexemes.specs.Texts.{plain as plain_text};
ghost use Rattle.grammar.specs.Tags.{MEMBERS};
ghost use Rattle.grammar.specs.Trees.{number, span};
ghost use Rattle.grammar.specs.Says.{Means, Spoils};
ghost use Rattle.grammar.specs.Productions.{goto, end, ◌▸◌, close, string, basic, pattern, array_pattern_close, object_pattern_close, object_rest, with_field, with_assert, with_member, member_name as member_name_phrase, call_close, field};
ghost use Rattle.leaves.specs.Lexing.{Stands, Quoting, Quotes, Atom, Colons, Past};
ghost use Rattle.leaves.specs.Meets.{Ready, state, Ends, EndsAny, EndsOver, EndsUnder, TellsEver, TellsEverAny, suffixes, titled, bracketed, sliced};

pub mod parser; // Parser and its methods
pub mod operators; // binary operators under a setting
pub mod records; // records written from structs

use grammar::numbers::Number;
use grammar::tags::Tag;
use grammar::{settings, writers};
use lexemes::kinds::Kind;
use parser::{NAME, eat, eat_any, error};
use records::Span;
use strings::Decoded;

// Where a phrase reads: where the last lexeme ended, and the next kept lexeme, EOF where none is left.
#[derive(Clone, Copy)]
pub struct Cursor {
    pub at: u16,
    pub kind: u8,
    pub start: u16,
    pub end: u16,
}

// A phrase broken off: 01's number and detail, and where.
#[derive(Clone, Copy)]
pub struct Refusal {
    pub number: u8,
    pub place: Cursor,
    pub detail: usize,
}

// Where a phrase ended, how long the image is then, and a number. What the number is, the type says that a function answers by: of an `Answer`
// nobody reads it.
#[derive(Clone, Copy)]
pub struct Done(pub Cursor, pub usize, pub usize);

// A phrase's answer: where it ended, or where it was broken off.
pub type Answer = Result<Done, Refusal>;

// The number is how many trees a list has.
pub type WithCount = Answer;

// The number is the flag of the next index part: whether it is the first of its run.
pub type WithFirst = Answer;

// The number is the flag of a field: whether its name is computed.
pub type WithComputed = Answer;

fn least(a: usize, b: usize) -> usize
    ensures { (result ≤ b) × ((result ≡ a) ⊎ ((result ≡ b) × (b ≤ a))) }
{
    if a <= b { a } else { b }
}

// The text of a string literal into a lent part of the output, by its kind; or its bad escape.
fn decode(src: &[u8], c: Cursor, part: &mut [u8]) -> Decoded
    requires { (Stands src.now c) × Quoting c.kind }
    ensures { Decoding (Means src.now c.kind c.start c.end) (Spoils src.now c.kind c.start c.end) part.old result part.new }
{
    let start = c.start as usize;
    let end = c.end as usize;
    let kind = c.kind;
    match kind {
        Kind::STRING_BLOCK => blocks::block_text(src, start + 3, part),
        Kind::STRING_DOUBLE_VERBATIM => verbatim(src, start + 2, end - 1, b'"', part),
        Kind::STRING_SINGLE_VERBATIM => verbatim(src, start + 2, end - 1, b'\'', part),
        _ => quoted(src, start + 1, end - 1, part),
    }
}

fn quoted(src: &[u8], a: usize, e: usize, part: &mut [u8]) -> Decoded
    requires { (a ≤ e) × (e ≤ length src.now) }
    ensures { Decoding (Quoted (slice a e src.now)) (BadEscape (slice a e src.now)) part.old result part.new }
{
    strings::string::unescape(&src[a..e], part)
}

fn verbatim(src: &[u8], a: usize, e: usize, quote: u8, part: &mut [u8]) -> Decoded
    requires { (a ≤ e) × (e ≤ length src.now) }
    ensures { Decoding (Verbatim quote (slice a e src.now)) Never part.old result part.new }
{
    strings::string::verbatim(&src[a..e], quote, part)
}

// parse_string_content: `string`. The text goes straight into the unused rest of the output, and its head before it. A bad escape is told by its
// place in the source: behind the quote and what stands before it in the inside.
pub fn parse_string_content(src: &[u8], out: &mut [u8], c: Cursor, w: usize) -> Answer
    requires { Ready src.now c w × Quoting c.kind }
    ensures { Ends src.now (state (goto string) 0 c w out.old) 0 end 1 result out.new }
{
    let from = least(w + 3, out.len());
    let d = decode(src, c, &mut out[from..]);
    match d {
        Err(refused) => error(c, Number::ESCAPE, c.start as usize + 1 + refused.at),
        Ok(n) => {
            let w1 = writers::put_head(out, w, Tag::STRING, n);
            Ok(Done(eat_any(src, c), w1 + n, 1))
        }
    }
}

// is_string_token
pub fn is_string_token(kind: u8) -> bool
    ensures { Quotes kind result }
{
    matches!(
        kind,
        Kind::STRING_DOUBLE
            | Kind::STRING_SINGLE
            | Kind::STRING_DOUBLE_VERBATIM
            | Kind::STRING_SINGLE_VERBATIM
            | Kind::STRING_BLOCK
    )
}

// A number's literal without underscores, into a lent part of the output; its length.
fn plain(text: &[u8], part: &mut [u8]) -> usize
    requires { length text.now ≤ 65000 }
    ensures { (result ≡ length (plain_text text.now)) × (part.new ≡ sets part.old 0 (plain_text text.now)) }
{
    let mut n = 0;
    for &b in text {
        if b == b'_' {
            continue;
        }
        strings::put(part, n, b);
        n += 1;
    }
    n
}

// A number that a double holds: its record.
fn number_in_range(src: &[u8], out: &mut [u8], c: Cursor, w: usize) -> Answer
    requires { Ready src.now c w × (c.kind ≡ FLOAT) × (TooLarge (plain_text (slice c.start c.end src.now)) → ⊥) }
    ensures { Ends src.now (state (goto basic) 0 c w out.old) 0 end 1 result out.new }
{
    let start = c.start;
    let end = c.end;
    let from = least(w + 3, out.len());
    let n = plain(&src[start as usize..end as usize], &mut out[from..]);
    let w1 = writers::put_head(out, w, Tag::NUMBER, n);
    Ok(Done(eat_any(src, c), w1 + n, 1))
}

// parse_number, with `NumValue::try_from`, which refuses what a double does not hold.
fn parse_number(src: &[u8], out: &mut [u8], c: Cursor, w: usize) -> Answer
    requires { Ready src.now c w × (c.kind ≡ FLOAT) }
    ensures { Ends src.now (state (goto basic) 0 c w out.old) 0 end 1 result out.new }
{
    let start = c.start;
    let end = c.end;
    if numerals::too_large(&src[start as usize..end as usize]) {
        return error(c, Number::LARGE, 0);
    }
    number_in_range(src, out, c, w)
}

// expr_basic: those of its phrases that are one lexeme.
pub fn atom(src: &[u8], out: &mut [u8], c: Cursor, w: usize) -> Answer
    requires { Ready src.now c w × Atom c.kind }
    ensures { Ends src.now (state (goto basic) 0 c w out.old) 0 end 1 result out.new }
{
    let start = c.start;
    let end = c.end;
    let kind = c.kind;
    match kind {
        Kind::SELF_KW => Ok(Done(
            eat_any(src, c),
            writers::put_kind(out, w, Tag::IDENTITY, 0, start, end),
            1,
        )),
        Kind::SUPER_KW => Ok(Done(
            eat_any(src, c),
            writers::put_kind(out, w, Tag::IDENTITY, 1, start, end),
            1,
        )),
        Kind::DOLLAR => Ok(Done(
            eat_any(src, c),
            writers::put_kind(out, w, Tag::IDENTITY, 2, start, end),
            1,
        )),
        Kind::NULL_KW => Ok(Done(eat_any(src, c), writers::put_none(out, w, Tag::NULL), 1)),
        Kind::TRUE_KW => Ok(Done(eat_any(src, c), writers::put_flag(out, w, Tag::BOOL, 1), 1)),
        Kind::FALSE_KW => Ok(Done(eat_any(src, c), writers::put_flag(out, w, Tag::BOOL, 0), 1)),
        Kind::FLOAT => parse_number(src, out, c, w),
        Kind::IDENT => Ok(Done(
            eat_any(src, c),
            writers::put_name(
                out,
                w,
                Tag::VARIABLE,
                start,
                end,
                &src[start as usize..end as usize],
            ),
            1,
        )),
        _ => {
            if is_string_token(kind) {
                return parse_string_content(src, out, c, w);
            }
            error(c, Number::EXPRESSION, 0)
        }
    }
}

// destruct: those of its patterns that are one lexeme, and its refusals.
pub fn pattern_atom(src: &[u8], out: &mut [u8], c: Cursor, w: usize, set: u64) -> Answer
    requires { Ready src.now c w × (c.kind ≡ L_BRACK → ⊥) × (c.kind ≡ L_BRACE → ⊥) }
    ensures { EndsUnder set src.now (state (goto pattern) 0 c w out.old) 0 end 1 result out.new }
{
    let start = c.start;
    let end = c.end;
    let kind = c.kind;
    if kind == Kind::IDENT {
        let w1 = writers::put_name(
            out,
            w,
            Tag::NAME_PATTERN,
            start,
            end,
            &src[start as usize..end as usize],
        );
        return Ok(Done(eat_any(src, c), w1, 1));
    }
    if !settings::has_destruct(set) {
        return error(c, Number::WANTED, NAME);
    }
    if kind == Kind::QUESTION_MARK {
        let w1 = writers::put_none(out, w, Tag::SKIP);
        return Ok(Done(eat_any(src, c), w1, 1));
    }
    error(c, Number::ABSENT, 2)
}

// destruct_array from its `]` on: n patterns, a rest, and m more.
pub fn array_pattern_close(
    src: &[u8],
    out: &mut [u8],
    c: Cursor,
    w: usize,
    n: usize,
    rest: u8,
    m: usize,
    name: Span,
) -> Answer
    requires { Ready src.now c w × (n ≤ c.at) × (m ≤ c.at) × (name.start ≤ name.end) × (name.end ≤ length src.now) }
    ensures { Ends src.now (state (goto (array_pattern_close n rest (slice name.start name.end src.now))) (n + m) c w out.old) (name.end - name.start) end 1 result out.new }
{
    let Done(c1, w1, _) = eat(src, c, w, Kind::R_BRACK)?;
    let from = name.start;
    let to = name.end;
    let w2 = writers::put_array_pattern(out, w1, n, rest, m, &src[from as usize..to as usize]);
    Ok(Done(c1, w2, 1))
}

// destruct_object from its `}` on.
pub fn object_pattern_close(
    src: &[u8],
    out: &mut [u8],
    c: Cursor,
    w: usize,
    n: usize,
    rest: u8,
    name: Span,
) -> Answer
    requires { Ready src.now c w × (n ≤ c.at) × (name.start ≤ name.end) × (name.end ≤ length src.now) }
    ensures { Ends src.now (state (goto (object_pattern_close rest (slice name.start name.end src.now))) n c w out.old) (name.end - name.start) end 1 result out.new }
{
    let Done(c1, w1, _) = eat(src, c, w, Kind::R_BRACE)?;
    let from = name.start;
    let to = name.end;
    let w2 = writers::put_object_pattern(out, w1, n, rest, &src[from as usize..to as usize]);
    Ok(Done(c1, w2, 1))
}

// A comma, if one stands here.
pub fn past_comma(src: &[u8], c: Cursor) -> Cursor
    requires { Stands src.now c }
    ensures { Past src.now c result }
{
    if c.kind == Kind::COMMA {
        return eat_any(src, c);
    }
    c
}

// destruct_object's rest, after its `...`, and the end.
pub fn object_rest(src: &[u8], out: &mut [u8], c: Cursor, w: usize, n: usize) -> Answer
    requires { Ready src.now c w × (n ≤ c.at) }
    ensures { Ends src.now (state (goto object_rest) n c w out.old) 0 end 1 result out.new }
{
    let start = c.start;
    let end = c.end;
    if c.kind == Kind::IDENT {
        let c1 = past_comma(src, eat_any(src, c));
        return object_pattern_close(src, out, c1, w, n, 2, Span { start, end });
    }
    let c1 = past_comma(src, c);
    object_pattern_close(src, out, c1, w, n, 1, Span { start: 0, end: 0 })
}

// What stands after a field's name or an iteration's header: the visibility, and where its colons end.
#[derive(Clone, Copy)]
pub struct Visible {
    pub cursor: Cursor,
    pub byte: u8,
}

// visibility, after its first `:`.
pub fn visibility(src: &[u8], c: Cursor) -> Visible
    requires { Stands src.now c }
    ensures { Colons src.now c result.byte result.cursor }
{
    if c.kind != Kind::COLON {
        return Visible { cursor: c, byte: 0 };
    }
    let c1 = eat_any(src, c);
    if c1.kind != Kind::COLON {
        return Visible {
            cursor: c1,
            byte: 1,
        };
    }
    Visible {
        cursor: eat_any(src, c1),
        byte: 2,
    }
}

// expr_basic's arrays from their `]` on.
pub fn array_close(src: &[u8], out: &mut [u8], c: Cursor, w: usize, tag: u8, n: usize) -> Answer
    requires { Ready src.now c w × (n ≤ c.at) }
    ensures { EndsAny src.now (bracketed tag n) c w out.old 0 end 1 result out.new }
{
    let Done(c1, w1, _) = eat(src, c, w, Kind::R_BRACK)?;
    let w2 = writers::put_count(out, w1, tag, n);
    Ok(Done(c1, w2, 1))
}

// objinside without clauses.
pub fn members_close(out: &mut [u8], c: Cursor, w: usize, n: usize) -> Answer
    requires { (w < 2 ^ 40) × (n < 65536) }
    ensures { EndsOver (close MEMBERS (number n ∷ []) ▸ end) c w out.old 5 end 1 result out.new }
{
    let w1 = writers::put_count(out, w, Tag::MEMBERS, n);
    Ok(Done(c, w1, 1))
}

// objinside, the loop over a comprehension's members: its fault with one field more, and with one assert more.
fn with_field(fault: usize) -> usize
    requires { fault ≤ 4 }
    ensures { (result ≡ with_field fault) × (result ≤ 4) }
{
    if fault == 4 {
        return 0;
    }
    if fault == 0 {
        return 2;
    }
    fault
}

fn with_assert(fault: usize) -> usize
    requires { fault ≤ 4 }
    ensures { (result ≡ with_assert fault) × (result ≤ 4) }
{
    if fault == 2 {
        return 2;
    }
    3
}

// The same with one member more, by the kind that it begins with.
pub fn with_member(fault: usize, kind: u8) -> usize
    requires { fault ≤ 4 }
    ensures { (result ≡ with_member fault kind) × (result ≤ 4) }
{
    if kind == Kind::LOCAL_KW {
        return fault;
    }
    if kind == Kind::ASSERT_KW {
        return with_assert(fault);
    }
    with_field(fault)
}

// expr_suffix: the name after `.`, an index part.
pub fn member_name(
    src: &[u8],
    out: &mut [u8],
    c: Cursor,
    w: usize,
    first: usize,
    safe: u8,
) -> WithFirst
    requires { Ready src.now c w × (first ≤ 4) }
    ensures { TellsEver src.now (state (goto (member_name_phrase first safe)) 1 c w out.old) suffixes 1 result out.new }
{
    if c.kind != Kind::IDENT {
        return error(c, Number::WANTED, NAME);
    }
    let start = c.start;
    let end = c.end;
    let w1 = writers::put_word(out, w, Tag::STRING, &src[start as usize..end as usize]);
    let w2 = records::put_index(out, w1, start, end, first, safe);
    Ok(Done(eat_any(src, c), w2, 0))
}

// expr_suffix: a slice from its `]` on.
pub fn slice_close(
    src: &[u8],
    out: &mut [u8],
    c: Cursor,
    w: usize,
    parts: u8,
    x: Span,
    y: Span,
    z: Span,
) -> WithFirst
    requires { Ready src.now c w × (x.start < 65536) × (x.end < 65536) × (y.start < 65536) × (y.end < 65536) × (z.start < 65536) × (z.end < 65536) }
    ensures { TellsEverAny src.now (sliced parts (span x.start x.end) (span y.start y.end) (span z.start z.end)) c w out.old suffixes 1 result out.new }
{
    let Done(c1, w1, _) = eat(src, c, w, Kind::R_BRACK)?;
    let w2 = writers::put_slice(
        out, w1, parts, x.start, x.end, y.start, y.end, z.start, z.end,
    );
    Ok(Done(c1, w2, 1))
}

// expr_suffix: a call from its `)` on, and perhaps `tailstrict`.
pub fn call_close(
    src: &[u8],
    out: &mut [u8],
    c: Cursor,
    w: usize,
    from: u16,
    unnamed: usize,
    named: usize,
) -> WithFirst
    requires { Ready src.now c w × (from < 65536) × (unnamed ≤ c.at) × (named ≤ c.at) }
    ensures { TellsEverAny src.now (goto (call_close from unnamed named)) c w out.old suffixes 1 result out.new }
{
    let Done(c1, w1, _) = eat(src, c, w, Kind::R_PAREN)?;
    let to = c1.at;
    if c1.kind == Kind::TAILSTRICT_KW {
        let w2 = writers::put_call(out, w1, from, to, 1, unnamed, named);
        return Ok(Done(eat_any(src, c1), w2, 1));
    }
    let w2 = writers::put_call(out, w1, from, to, 0, unnamed, named);
    Ok(Done(c1, w2, 1))
}

// field_name, but for a computed name.
pub fn fixed_name(src: &[u8], out: &mut [u8], c: Cursor, w: usize) -> WithComputed
    requires { Ready src.now c w × (c.kind ≡ L_BRACK → ⊥) }
    ensures { TellsEver src.now (state (goto field) 0 c w out.old) (titled c.start) 1 result out.new }
{
    let start = c.start;
    let end = c.end;
    if c.kind == Kind::IDENT {
        let w1 = writers::put_word(out, w, Tag::STRING, &src[start as usize..end as usize]);
        return Ok(Done(eat_any(src, c), w1, 0));
    }
    if !is_string_token(c.kind) {
        return error(c, Number::ABSENT, 1);
    }
    let Done(c1, w1, _) = parse_string_content(src, out, c, w)?;
    Ok(Done(c1, w1, 0))
}
