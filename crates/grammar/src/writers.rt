// Records into a lent output, at a place: house tagged fields, one-byte tag, two-byte length, payload. Each writer hands back the place
// after what it wrote; where the output is full it stores nothing, and the count runs on.
ghost use Rattle.std.specs.Prelude.{[], ◌∷◌, ◌++◌, ◌+◌, ◌<◌, ◌^◌, length};
ghost use Rattle.grammar.specs.Tags.{OBJECT_COMP, CALL, INDEX_PART, FUNCTION, SLICE, BIND, ARRAY_PATTERN, OBJECT_PATTERN, PATTERN_FIELD, FIELD, OBJECT_ITERATION};
ghost use Rattle.grammar.specs.Trees.{byte, number, span, text};
ghost use Rattle.grammar.specs.Image.{two, entry};
ghost use Rattle.grammar.specs.Writing.{Wrote};

use crate::tags::Tag;
use strings::put;

// ── Fields ──────────────────────────────────────────────────────────────────────────────────────

fn put_byte(out: &mut [u8], w: usize, b: u8) -> usize
    requires { w < 2 ^ 62 }
    ensures { Wrote out.old w (b ∷ []) result out.new }
{
    put(out, w, b);
    w + 1
}

// "Numbers are two bytes, high first". Where there is room for both it is asked for once.
fn put_number(out: &mut [u8], w: usize, n: usize) -> usize
    requires { (w < 2 ^ 61) × (n < 2 ^ 16) }
    ensures { Wrote out.old w (two n) result out.new }
{
    if out.len() < w + 2 {
        let w1 = put_byte(out, w, (n / 256) as u8);
        return put_byte(out, w1, (n % 256) as u8);
    }
    out[w] = (n / 256) as u8;
    out[w + 1] = (n % 256) as u8;
    w + 2
}

fn put_span(out: &mut [u8], w: usize, a: u16, e: u16) -> usize
    requires { (w < 2 ^ 60) × (a < 2 ^ 16) × (e < 2 ^ 16) }
    ensures { Wrote out.old w (two a ++ two e) result out.new }
{
    let w1 = put_number(out, w, a as usize);
    put_number(out, w1, e as usize)
}

// As many bytes of `s` as there is room for, none where the output is full.
fn put_some(out: &mut [u8], w: usize, s: &[u8]) -> usize
    requires { (w < 2 ^ 60) × (length s.now < 2 ^ 16) }
    ensures { Wrote out.old w s.now result out.new }
{
    if out.len() <= w {
        return w + s.len();
    }
    for (i, b) in s.iter().enumerate() {
        put(out, w + i, *b);
    }
    w + s.len()
}

// The bytes of `s`, and nearly always there is room for all. They are stored one by one: a copy of a slice would be a call of `memmove`, which who
// links the archive for C would have to bring.
fn put_text(out: &mut [u8], w: usize, s: &[u8]) -> usize
    requires { (w < 2 ^ 60) × (length s.now < 2 ^ 16) }
    ensures { Wrote out.old w s.now result out.new }
{
    if out.len() < w + s.len() {
        return put_some(out, w, s);
    }
    for (i, b) in s.iter().enumerate() {
        out[w + i] = *b;
    }
    w + s.len()
}

// A record's tag and the length of its payload.
pub fn put_head(out: &mut [u8], w: usize, tag: u8, n: usize) -> usize
    requires { (w < 2 ^ 60) × (n < 2 ^ 16) }
    ensures { Wrote out.old w (tag ∷ two n) result out.new }
{
    let w1 = put_byte(out, w, tag);
    put_number(out, w1, n)
}

// What a field's record says of it.
#[derive(Drop)]
pub struct Flags {
    pub computed: u8,
    pub plus: u8,
    pub method: u8,
}

fn put_flags(out: &mut [u8], w: usize, flags: Flags) -> usize
    requires { w < 2 ^ 60 }
    ensures { Wrote out.old w (flags.computed ∷ flags.plus ∷ flags.method ∷ []) result out.new }
{
    let w1 = put_byte(out, w, flags.computed);
    let w2 = put_byte(out, w1, flags.plus);
    put_byte(out, w2, flags.method)
}

// ── Records, by the fields of their payload ─────────────────────────────────────────────────────

// NULL, EXTENSION, ASSERT_EXPR, SKIP, FOR: no payload.
pub fn put_none(out: &mut [u8], w: usize, tag: u8) -> usize
    requires { w < 2 ^ 40 }
    ensures { Wrote out.old w (entry tag []) result out.new }
{
    put_head(out, w, tag, 0)
}

// BOOL, PREFIX, PARAMETER: a flag or an enum's byte.
pub fn put_flag(out: &mut [u8], w: usize, tag: u8, b: u8) -> usize
    requires { w < 2 ^ 40 }
    ensures { Wrote out.old w (entry tag (byte b ∷ [])) result out.new }
{
    let w1 = put_head(out, w, tag, 1);
    put_byte(out, w1, b)
}

// ARRAY, ARRAY_COMP, MEMBERS, LOCAL: a count.
pub fn put_count(out: &mut [u8], w: usize, tag: u8, n: usize) -> usize
    requires { (w < 2 ^ 40) × (n < 2 ^ 16) }
    ensures { Wrote out.old w (entry tag (number n ∷ [])) result out.new }
{
    let w1 = put_head(out, w, tag, 2);
    put_number(out, w1, n)
}

// OBJECT_COMP: member count, clause count.
pub fn put_counts(out: &mut [u8], w: usize, members: usize, clauses: usize) -> usize
    requires { (w < 2 ^ 40) × (members < 2 ^ 16) × (clauses < 2 ^ 16) }
    ensures { Wrote out.old w (entry OBJECT_COMP (number members ∷ number clauses ∷ [])) result out.new }
{
    let w1 = put_head(out, w, Tag::OBJECT_COMP, 4);
    let w2 = put_number(out, w1, members);
    put_number(out, w2, clauses)
}

// NUMBER, NAMED_ARGUMENT: a text or a name.
pub fn put_word(out: &mut [u8], w: usize, tag: u8, s: &[u8]) -> usize
    requires { (w < 2 ^ 40) × (length s.now < 2 ^ 16) }
    ensures { Wrote out.old w (entry tag (text s.now ∷ [])) result out.new }
{
    let w1 = put_head(out, w, tag, s.len());
    put_text(out, w1, s)
}

// ERROR, IF_CLAUSE: a span.
pub fn put_mark(out: &mut [u8], w: usize, tag: u8, a: u16, e: u16) -> usize
    requires { (w < 2 ^ 40) × (a < 2 ^ 16) × (e < 2 ^ 16) }
    ensures { Wrote out.old w (entry tag (span a e ∷ [])) result out.new }
{
    let w1 = put_head(out, w, tag, 4);
    put_span(out, w1, a, e)
}

// IDENTITY, INFIX, IMPORT: an enum's byte, a span.
pub fn put_kind(out: &mut [u8], w: usize, tag: u8, b: u8, a: u16, e: u16) -> usize
    requires { (w < 2 ^ 40) × (a < 2 ^ 16) × (e < 2 ^ 16) }
    ensures { Wrote out.old w (entry tag (byte b ∷ span a e ∷ [])) result out.new }
{
    let w1 = put_head(out, w, tag, 5);
    let w2 = put_byte(out, w1, b);
    put_span(out, w2, a, e)
}

// IF, ASSERT: a span, a flag.
pub fn put_marked(out: &mut [u8], w: usize, tag: u8, a: u16, e: u16, b: u8) -> usize
    requires { (w < 2 ^ 40) × (a < 2 ^ 16) × (e < 2 ^ 16) }
    ensures { Wrote out.old w (entry tag (span a e ∷ byte b ∷ [])) result out.new }
{
    let w1 = put_head(out, w, tag, 5);
    let w2 = put_span(out, w1, a, e);
    put_byte(out, w2, b)
}

// FUNCTION: span, parameter count.
pub fn put_function(out: &mut [u8], w: usize, a: u16, e: u16, n: usize) -> usize
    requires { (w < 2 ^ 40) × (a < 2 ^ 16) × (e < 2 ^ 16) × (n < 2 ^ 16) }
    ensures { Wrote out.old w (entry FUNCTION (span a e ∷ number n ∷ [])) result out.new }
{
    let w1 = put_head(out, w, Tag::FUNCTION, 6);
    let w2 = put_span(out, w1, a, e);
    put_number(out, w2, n)
}

// VARIABLE, NAME_PATTERN: span, name.
pub fn put_name(out: &mut [u8], w: usize, tag: u8, a: u16, e: u16, s: &[u8]) -> usize
    requires { (w < 2 ^ 40) × (a < 2 ^ 16) × (e < 2 ^ 16) × (4 + length s.now < 2 ^ 16) }
    ensures { Wrote out.old w (entry tag (span a e ∷ text s.now ∷ [])) result out.new }
{
    let w1 = put_head(out, w, tag, 4 + s.len());
    let w2 = put_span(out, w1, a, e);
    put_text(out, w2, s)
}

// CALL: arguments' span, tailstrict, unnamed count, named count.
pub fn put_call(
    out: &mut [u8],
    w: usize,
    a: u16,
    e: u16,
    strict: u8,
    unnamed: usize,
    named: usize,
) -> usize
    requires { (w < 2 ^ 40) × (a < 2 ^ 16) × (e < 2 ^ 16) × (unnamed < 2 ^ 16) × (named < 2 ^ 16) }
    ensures { Wrote out.old w (entry CALL (span a e ∷ byte strict ∷ number unnamed ∷ number named ∷ [])) result out.new }
{
    let w1 = put_head(out, w, Tag::CALL, 9);
    let w2 = put_span(out, w1, a, e);
    let w3 = put_byte(out, w2, strict);
    let w4 = put_number(out, w3, unnamed);
    put_number(out, w4, named)
}

// INDEX_PART: span, first-of-run, null-safe.
pub fn put_index(out: &mut [u8], w: usize, a: u16, e: u16, first: u8, safe: u8) -> usize
    requires { (w < 2 ^ 40) × (a < 2 ^ 16) × (e < 2 ^ 16) }
    ensures { Wrote out.old w (entry INDEX_PART (span a e ∷ byte first ∷ byte safe ∷ [])) result out.new }
{
    let w1 = put_head(out, w, Tag::INDEX_PART, 6);
    let w2 = put_span(out, w1, a, e);
    let w3 = put_byte(out, w2, first);
    put_byte(out, w3, safe)
}

// SLICE: parts, three spans.
pub fn put_slice(
    out: &mut [u8],
    w: usize,
    parts: u8,
    a: u16,
    e: u16,
    a1: u16,
    e1: u16,
    a2: u16,
    e2: u16,
) -> usize
    requires { (w < 2 ^ 40) × (a < 2 ^ 16) × (e < 2 ^ 16) × (a1 < 2 ^ 16) × (e1 < 2 ^ 16) × (a2 < 2 ^ 16) × (e2 < 2 ^ 16) }
    ensures { Wrote out.old w (entry SLICE (byte parts ∷ span a e ∷ span a1 e1 ∷ span a2 e2 ∷ [])) result out.new }
{
    let w1 = put_head(out, w, Tag::SLICE, 13);
    let w2 = put_byte(out, w1, parts);
    let w3 = put_span(out, w2, a, e);
    let w4 = put_span(out, w3, a1, e1);
    put_span(out, w4, a2, e2)
}

// BIND: function flag, parameter count.
pub fn put_bind(out: &mut [u8], w: usize, function: u8, n: usize) -> usize
    requires { (w < 2 ^ 40) × (n < 2 ^ 16) }
    ensures { Wrote out.old w (entry BIND (byte function ∷ number n ∷ [])) result out.new }
{
    let w1 = put_head(out, w, Tag::BIND, 3);
    let w2 = put_byte(out, w1, function);
    put_number(out, w2, n)
}

// ARRAY_PATTERN: start count, rest byte, end count, rest name.
pub fn put_array_pattern(
    out: &mut [u8],
    w: usize,
    starts: usize,
    rest: u8,
    ends: usize,
    s: &[u8],
) -> usize
    requires { (w < 2 ^ 40) × (starts < 2 ^ 16) × (ends < 2 ^ 16) × (5 + length s.now < 2 ^ 16) }
    ensures { Wrote out.old w (entry ARRAY_PATTERN (number starts ∷ byte rest ∷ number ends ∷ text s.now ∷ [])) result out.new }
{
    let w1 = put_head(out, w, Tag::ARRAY_PATTERN, 5 + s.len());
    let w2 = put_number(out, w1, starts);
    let w3 = put_byte(out, w2, rest);
    let w4 = put_number(out, w3, ends);
    put_text(out, w4, s)
}

// OBJECT_PATTERN: field count, rest byte, rest name.
pub fn put_object_pattern(out: &mut [u8], w: usize, n: usize, rest: u8, s: &[u8]) -> usize
    requires { (w < 2 ^ 40) × (n < 2 ^ 16) × (3 + length s.now < 2 ^ 16) }
    ensures { Wrote out.old w (entry OBJECT_PATTERN (number n ∷ byte rest ∷ text s.now ∷ [])) result out.new }
{
    let w1 = put_head(out, w, Tag::OBJECT_PATTERN, 3 + s.len());
    let w2 = put_number(out, w1, n);
    let w3 = put_byte(out, w2, rest);
    put_text(out, w3, s)
}

// PATTERN_FIELD: has-pattern, has-default, default's span, name.
pub fn put_pattern_field(
    out: &mut [u8],
    w: usize,
    into: u8,
    default: u8,
    a: u16,
    e: u16,
    s: &[u8],
) -> usize
    requires { (w < 2 ^ 40) × (a < 2 ^ 16) × (e < 2 ^ 16) × (6 + length s.now < 2 ^ 16) }
    ensures { Wrote out.old w (entry PATTERN_FIELD (byte into ∷ byte default ∷ span a e ∷ text s.now ∷ [])) result out.new }
{
    let w1 = put_head(out, w, Tag::PATTERN_FIELD, 6 + s.len());
    let w2 = put_byte(out, w1, into);
    let w3 = put_byte(out, w2, default);
    let w4 = put_span(out, w3, a, e);
    put_text(out, w4, s)
}

// OBJECT_ITERATION: visibility, key.
pub fn put_iteration(out: &mut [u8], w: usize, visibility: u8, s: &[u8]) -> usize
    requires { (w < 2 ^ 40) × (1 + length s.now < 2 ^ 16) }
    ensures { Wrote out.old w (entry OBJECT_ITERATION (byte visibility ∷ text s.now ∷ [])) result out.new }
{
    let w1 = put_head(out, w, Tag::OBJECT_ITERATION, 1 + s.len());
    let w2 = put_byte(out, w1, visibility);
    put_text(out, w2, s)
}

// FIELD: name span, computed, plus, method, parameter count, visibility.
pub fn put_field(
    out: &mut [u8],
    w: usize,
    a: u16,
    e: u16,
    flags: Flags,
    n: usize,
    visibility: u8,
) -> usize
    requires { (w < 2 ^ 40) × (a < 2 ^ 16) × (e < 2 ^ 16) × (n < 2 ^ 16) }
    ensures { Wrote out.old w (entry FIELD (span a e ∷ byte flags.computed ∷ byte flags.plus ∷ byte flags.method ∷ number n ∷ byte visibility ∷ [])) result out.new }
{
    let w1 = put_head(out, w, Tag::FIELD, 10);
    let w2 = put_span(out, w1, a, e);
    let w3 = put_flags(out, w2, flags);
    let w4 = put_number(out, w3, n);
    put_byte(out, w4, visibility)
}
