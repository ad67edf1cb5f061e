#![tactic(auto)]
// The phrase functions of ir-parser's lib.rs, in its order. They call each other in a cycle; at each call the depth that is left falls,
// or it stays and the callee comes before its caller in the order of ranks. Lists and tails are loops: calls nest by depth alone.
ghost use Rattle.std.specs.Prelude.{◌≡◌, [], ◌∷◌, ◌+◌, ◌-◌, ◌≤◌, ◌<◌, length, true};
ghost use Rattle.std.proofs.Math.Seq.{slice as part};
ghost use Rattle.lexemes.specs.Kinds.{IF_KW, FUNCTION_KW, FOR_KW, ASSERT_KW};
ghost use Rattle.grammar.specs.Trees.{span};
ghost use Rattle.grammar.specs.Productions.{goto, end, sub, deep, expr as expr_phrase, infix_tail, suffixed, suffix as suffix_phrase, bracket, slice_end, slice_step, arguments, basic as basic_phrase, array as array_phrase, inside as inside_phrase, comprehension, clauses, for_clause, assertion};
ghost use Rattle.grammar.specs.Productions.{member as member_phrase, field as field_phrase, field_value, params as params_phrase, param as param_phrase, binds, local_body, bind as bind_phrase, pattern, array_rest, array_rest_end, pattern_fields, pattern_field, pattern_default};
ghost use Rattle.leaves.specs.Lexing.{Named, Header as HeaderAt, Imports, Suffixed};
ghost use Rattle.leaves.specs.Meets.{Ready, state, Leads, LeadsAny, Takes, TakesSome, Counts, Tells, TellsSome, TellsAny, Argues, suffixes, titled, bound as bound_by, safely};

use grammar::numbers::Number;
use grammar::operators::{prefix_power, unary_op};
use grammar::tags::Tag;
use grammar::{settings, writers};
use leaves::parser::{NAME, eat, eat_any, error, header_at, named_at, suffix_at};
use leaves::records::{Header, Span};
use leaves::{
    Answer, Cursor, Done, WithComputed, WithCount, WithFirst, array_close, array_pattern_close,
    call_close, member_name, members_close, object_pattern_close, object_rest, operators,
    past_comma, records, slice_close, visibility, with_member,
};
use lexemes::kinds::Kind;

// assert_stmt: assertion, condition, asserted.
#[cycle(phrase)]
fn assert(src: &[u8], out: &mut [u8], c: Cursor, w: usize, left: usize, set: u64) -> Answer
    requires { Ready src.now c w }
    ensures { Takes set src.now (sub assertion) 1 0 left c w out.old result out.new }
{
    let Done(c1, w1, _) = eat(src, c, w, Kind::ASSERT_KW)?;
    let from = c1.start;
    let Done(c2, w2, _) = expr(src, out, c1, w1, left, set, 0)?;
    let to = c2.at;
    if c2.kind != Kind::COLON {
        let w3 = writers::put_marked(out, w2, Tag::ASSERT, from, to, 0);
        return Ok(Done(c2, w3, 1));
    }
    let Done(c3, w3, _) = expr(src, out, eat_any(src, c2), w2, left, set, 0)?;
    let w4 = writers::put_marked(out, w3, Tag::ASSERT, from, to, 1);
    Ok(Done(c3, w4, 1))
}

// if_else, with if_spec_data's `if`: basic at `if`, else-part.
#[cycle(phrase)]
fn cond(src: &[u8], out: &mut [u8], c: Cursor, w: usize, left: usize, set: u64) -> Answer
    requires { Ready src.now c w × (c.kind ≡ IF_KW) }
    ensures { Leads set src.now left (state (goto basic_phrase) 0 c w out.old) 0 end 1 result out.new }
{
    let Done(c1, w1, _) = expr(src, out, eat_any(src, c), w, left, set, 0)?;
    let Done(c2, w2, _) = eat(src, c1, w1, Kind::THEN_KW)?;
    let Done(c3, w3, _) = expr(src, out, c2, w2, left, set, 0)?;
    if c3.kind != Kind::ELSE_KW {
        let w4 = writers::put_marked(out, w3, Tag::IF, c.start, c.end, 0);
        return Ok(Done(c3, w4, 1));
    }
    let Done(c4, w4, _) = expr(src, out, eat_any(src, c3), w3, left, set, 0)?;
    let w5 = writers::put_marked(out, w4, Tag::IF, c.start, c.end, 1);
    Ok(Done(c4, w5, 1))
}

// slice_desc, after its first `:`, with the start's span: slice-end, slice-ended.
#[cycle(phrase)]
fn slice(
    src: &[u8],
    out: &mut [u8],
    c: Cursor,
    w: usize,
    left: usize,
    set: u64,
    parts: u8,
    x: Span,
) -> WithFirst
    requires { Ready src.now c w × (parts ≤ 1) × (x.start < 65536) × (x.end < 65536) }
    ensures { TellsAny set src.now left (goto (slice_end parts x.start x.end)) c w out.old suffixes 1 result out.new }
{
    let none = Span { start: 0, end: 0 };
    if c.kind == Kind::COLON {
        return step(src, out, eat_any(src, c), w, left, set, parts, x, none);
    }
    if c.kind == Kind::R_BRACK {
        return slice_close(src, out, c, w, parts, x, none, none);
    }
    let Done(c1, w1, _) = expr(src, out, c, w, left, set, 0)?;
    let y = Span {
        start: c.start,
        end: c1.at,
    };
    if c1.kind == Kind::COLON {
        return step(src, out, eat_any(src, c1), w1, left, set, parts + 2, x, y);
    }
    slice_close(src, out, c1, w1, parts + 2, x, y, none)
}

// slice_desc, after its second `:`, with the spans of start and end: slice-step, slice-stepped.
#[cycle(phrase)]
fn step(
    src: &[u8],
    out: &mut [u8],
    c: Cursor,
    w: usize,
    left: usize,
    set: u64,
    parts: u8,
    x: Span,
    y: Span,
) -> WithFirst
    requires { Ready src.now c w × (parts ≤ 3) × (x.start < 65536) × (x.end < 65536) × (y.start < 65536) × (y.end < 65536) }
    ensures { TellsAny set src.now left (goto (slice_step parts x.start x.end y.start y.end)) c w out.old suffixes 1 result out.new }
{
    if c.kind == Kind::R_BRACK {
        return slice_close(src, out, c, w, parts, x, y, Span { start: 0, end: 0 });
    }
    let Done(c1, w1, _) = expr(src, out, c, w, left, set, 0)?;
    let z = Span {
        start: c.start,
        end: c1.at,
    };
    slice_close(src, out, c1, w1, parts + 4, x, y, z)
}

// destruct, destruct_array: pattern; array-pattern up to `...` or `]`, that is pattern-starts, pattern-starts-end.
#[cycle(phrase)]
fn pat(src: &[u8], out: &mut [u8], c: Cursor, w: usize, left: usize, set: u64) -> Answer
    requires { Ready src.now c w }
    ensures { Takes set src.now (sub pattern) 1 0 left c w out.old result out.new }
{
    let object = c.kind == Kind::L_BRACE;
    if c.kind != Kind::L_BRACK {
        if !object {
            return leaves::pattern_atom(src, out, c, w, set);
        }
    }
    if !settings::has_destruct(set) {
        return error(c, Number::WANTED, NAME);
    }
    if left == 0 {
        return error(c, Number::DEPTH, 0);
    }
    let mut cur = eat_any(src, c);
    if object {
        return obj(src, out, cur, w, left - 1, set);
    }
    let mut at = w;
    let mut n: usize = 0;
    loop {
        if cur.kind == Kind::R_BRACK {
            return array_pattern_close(src, out, cur, at, n, 0, 0, Span { start: 0, end: 0 });
        }
        if cur.kind == Kind::DOTDOTDOT {
            return rest(src, out, eat_any(src, cur), at, left - 1, set, n);
        }
        let Done(c1, w1, _) = pat(src, out, cur, at, left - 1, set)?;
        n += 1;
        at = w1;
        if c1.kind != Kind::COMMA {
            return array_pattern_close(src, out, c1, at, n, 0, 0, Span { start: 0, end: 0 });
        }
        cur = eat_any(src, c1);
    }
}

// destruct_rest in an array, after its `...`: array-rest.
#[cycle(phrase)]
fn rest(src: &[u8], out: &mut [u8], c: Cursor, w: usize, left: usize, set: u64, n: usize) -> Answer
    requires { Ready src.now c w × (n ≤ c.at) }
    ensures { Leads set src.now left (state (goto (array_rest n)) n c w out.old) 0 end 1 result out.new }
{
    if c.kind == Kind::IDENT {
        let name = Span {
            start: c.start,
            end: c.end,
        };
        return ends(src, out, eat_any(src, c), w, left, set, n, 2, name);
    }
    ends(src, out, c, w, left, set, n, 1, Span { start: 0, end: 0 })
}

// destruct_array after its rest: array-rest-end, pattern-ends, pattern-ends-end.
#[cycle(phrase)]
fn ends(
    src: &[u8],
    out: &mut [u8],
    c: Cursor,
    w: usize,
    left: usize,
    set: u64,
    n: usize,
    keep: u8,
    name: Span,
) -> Answer
    requires { Ready src.now c w × (n ≤ c.at) × (name.start ≤ name.end) × (name.end ≤ length src.now) }
    ensures { Leads set src.now left (state (goto (array_rest_end n keep (part name.start name.end src.now))) n c w out.old) (name.end - name.start) end 1 result out.new }
{
    let mut cur = c;
    let mut at = w;
    let mut m: usize = 0;
    loop {
        if cur.kind != Kind::COMMA {
            return array_pattern_close(src, out, cur, at, n, keep, m, name);
        }
        let next = eat_any(src, cur);
        if next.kind == Kind::R_BRACK {
            return array_pattern_close(src, out, next, at, n, keep, m, name);
        }
        let Done(c1, w1, _) = pat(src, out, next, at, left, set)?;
        m += 1;
        cur = c1;
        at = w1;
    }
}

// destruct_object, after its `{`: pattern-fields, pattern-fields-end.
#[cycle(phrase)]
fn obj(src: &[u8], out: &mut [u8], c: Cursor, w: usize, left: usize, set: u64) -> Answer
    requires { Ready src.now c w }
    ensures { Leads set src.now left (state (goto pattern_fields) 0 c w out.old) 0 end 1 result out.new }
{
    let mut cur = c;
    let mut at = w;
    let mut n: usize = 0;
    loop {
        if cur.kind == Kind::R_BRACE {
            return object_pattern_close(src, out, cur, at, n, 0, Span { start: 0, end: 0 });
        }
        if cur.kind == Kind::DOTDOTDOT {
            return object_rest(src, out, eat_any(src, cur), at, n);
        }
        let Done(c1, w1, _) = item(src, out, cur, at, left, set)?;
        n += 1;
        at = w1;
        if c1.kind != Kind::COMMA {
            return object_pattern_close(src, out, c1, at, n, 0, Span { start: 0, end: 0 });
        }
        cur = eat_any(src, c1);
    }
}

// destruct_object, one field: pattern-field, pattern-into.
#[cycle(phrase)]
fn item(src: &[u8], out: &mut [u8], c: Cursor, w: usize, left: usize, set: u64) -> Answer
    requires { Ready src.now c w }
    ensures { Takes set src.now (sub pattern_field) 1 0 left c w out.old result out.new }
{
    let Done(c1, w1, _) = eat(src, c, w, Kind::IDENT)?;
    let name = Span {
        start: c.start,
        end: c.end,
    };
    if c1.kind != Kind::COLON {
        return init(src, out, c1, w1, left, set, 0, name);
    }
    let Done(c2, w2, _) = pat(src, out, eat_any(src, c1), w1, left, set)?;
    init(src, out, c2, w2, left, set, 1, name)
}

// destruct_object, one field's default: pattern-default, default-value, default-end.
#[cycle(phrase)]
fn init(
    src: &[u8],
    out: &mut [u8],
    c: Cursor,
    w: usize,
    left: usize,
    set: u64,
    into: u8,
    name: Span,
) -> Answer
    requires { Ready src.now c w × (name.start ≤ name.end) × (name.end ≤ length src.now) }
    ensures { Leads set src.now left (state (goto (pattern_default into (part name.start name.end src.now))) into c w out.old) (9 + (name.end - name.start)) end 1 result out.new }
{
    let from = name.start;
    let to = name.end;
    if c.kind != Kind::ASSIGN {
        let w1 = writers::put_pattern_field(
            out,
            w,
            into,
            0,
            0,
            0,
            &src[from as usize..to as usize],
        );
        return Ok(Done(c, w1, 1));
    }
    let c1 = eat_any(src, c);
    let Done(c2, w2, _) = expr(src, out, c1, w, left, set, 0)?;
    let w3 = writers::put_pattern_field(
        out,
        w2,
        into,
        1,
        c1.start,
        c2.at,
        &src[from as usize..to as usize],
    );
    Ok(Done(c2, w3, 1))
}

// params: params, params-end.
#[cycle(phrase)]
fn params(src: &[u8], out: &mut [u8], c: Cursor, w: usize, left: usize, set: u64) -> WithCount
    requires { Ready src.now c w }
    ensures { Counts set src.now params_phrase 4 left c w out.old result out.new }
{
    let mut cur = c;
    let mut at = w;
    let mut n: usize = 0;
    loop {
        if cur.kind == Kind::R_PAREN {
            return Ok(Done(cur, at, n));
        }
        let Done(c1, w1, _) = param(src, out, cur, at, left, set)?;
        n += 1;
        at = w1;
        if c1.kind != Kind::COMMA {
            return Ok(Done(c1, at, n));
        }
        cur = eat_any(src, c1);
    }
}

// params, one of them: param, param-default.
#[cycle(phrase)]
fn param(src: &[u8], out: &mut [u8], c: Cursor, w: usize, left: usize, set: u64) -> Answer
    requires { Ready src.now c w }
    ensures { TakesSome set src.now (sub param_phrase) 1 4 left c w out.old result out.new }
{
    let Done(c1, w1, _) = pat(src, out, c, w, left, set)?;
    if c1.kind != Kind::ASSIGN {
        let w2 = writers::put_flag(out, w1, Tag::PARAMETER, 0);
        return Ok(Done(c1, w2, 1));
    }
    let Done(c2, w2, _) = expr(src, out, eat_any(src, c1), w1, left, set, 0)?;
    let w3 = writers::put_flag(out, w2, Tag::PARAMETER, 1);
    Ok(Done(c2, w3, 1))
}

// args, after expr_suffix's `(`, which stood at `from`: arguments, argument-end.
#[cycle(phrase)]
fn args(
    src: &[u8],
    out: &mut [u8],
    c: Cursor,
    w: usize,
    left: usize,
    set: u64,
    from: u16,
) -> WithFirst
    requires { Ready src.now c w × (from < 65536) }
    ensures { Tells set src.now left (state (goto (arguments from 0 0)) 1 c w out.old) suffixes 1 result out.new }
{
    let mut cur = c;
    let mut at = w;
    let mut unnamed: usize = 0;
    let mut named: usize = 0;
    loop {
        if cur.kind == Kind::R_PAREN {
            return call_close(src, out, cur, at, from, unnamed, named);
        }
        let k = named_at(src, cur);
        let Done(c1, w1, _) = arg(src, out, cur, at, left, set, named, k)?;
        unnamed += 1 - k;
        named += k;
        at = w1;
        if c1.kind != Kind::COMMA {
            return call_close(src, out, c1, at, from, unnamed, named);
        }
        cur = eat_any(src, c1);
    }
}

// args, one of them, of which k says whether it is named: argument, named-argument.
#[cycle(phrase)]
fn arg(
    src: &[u8],
    out: &mut [u8],
    c: Cursor,
    w: usize,
    left: usize,
    set: u64,
    named: usize,
    k: usize,
) -> Answer
    requires { Ready src.now c w × Named src.now c k }
    ensures { Argues set src.now left named k c w out.old result out.new }
{
    if k == 0 {
        if named != 0 {
            return error(c, Number::MISPLACED, 1);
        }
        return expr(src, out, c, w, left, set, 0);
    }
    let c1 = eat_any(src, c);
    let Done(c2, w2, _) = expr(src, out, eat_any(src, c1), w, left, set, 0)?;
    let from = c.start;
    let to = c.end;
    let w3 = writers::put_word(
        out,
        w2,
        Tag::NAMED_ARGUMENT,
        &src[from as usize..to as usize],
    );
    Ok(Done(c2, w3, 1))
}

// bind: bind, bind-named.
#[cycle(phrase)]
fn bind(src: &[u8], out: &mut [u8], c: Cursor, w: usize, left: usize, set: u64) -> Answer
    requires { Ready src.now c w }
    ensures { Takes set src.now (sub bind_phrase) 1 0 left c w out.old result out.new }
{
    if c.kind != Kind::IDENT {
        let Done(c1, w1, _) = pat(src, out, c, w, left, set)?;
        return rhs(src, out, c1, w1, left, set, 0, 0);
    }
    let from = c.start;
    let to = c.end;
    let w1 = writers::put_name(
        out,
        w,
        Tag::NAME_PATTERN,
        from,
        to,
        &src[from as usize..to as usize],
    );
    let c1 = eat_any(src, c);
    if c1.kind != Kind::L_PAREN {
        return rhs(src, out, c1, w1, left, set, 0, 0);
    }
    let Done(c2, w2, n) = params(src, out, eat_any(src, c1), w1, left, set)?;
    let Done(c3, w3, _) = eat(src, c2, w2, Kind::R_PAREN)?;
    rhs(src, out, c3, w3, left, set, 1, n)
}

// bind from its `=` on: bind-function, and the same of the other binds.
#[cycle(phrase)]
fn rhs(
    src: &[u8],
    out: &mut [u8],
    c: Cursor,
    w: usize,
    left: usize,
    set: u64,
    function: u8,
    n: usize,
) -> Answer
    requires { Ready src.now c w × (n ≤ c.at) }
    ensures { LeadsAny set src.now left (bound_by function n) c w out.old 0 end 1 result out.new }
{
    let Done(c1, w1, _) = eat(src, c, w, Kind::ASSIGN)?;
    let Done(c2, w2, _) = expr(src, out, c1, w1, left, set, 0)?;
    let w3 = writers::put_bind(out, w2, function, n);
    Ok(Done(c2, w3, 1))
}

// field_name: field up to its name.
#[cycle(phrase)]
fn name(src: &[u8], out: &mut [u8], c: Cursor, w: usize, left: usize, set: u64) -> WithComputed
    requires { Ready src.now c w }
    ensures { Tells set src.now left (state (goto field_phrase) 0 c w out.old) (titled c.start) 1 result out.new }
{
    if c.kind != Kind::L_BRACK {
        return leaves::fixed_name(src, out, c, w);
    }
    let Done(c1, w1, _) = expr(src, out, eat_any(src, c), w, left, set, 0)?;
    let Done(c2, w2, _) = eat(src, c1, w1, Kind::R_BRACK)?;
    Ok(Done(c2, w2, 1))
}

// field: field, field-named.
#[cycle(phrase)]
fn field(src: &[u8], out: &mut [u8], c: Cursor, w: usize, left: usize, set: u64) -> Answer
    requires { Ready src.now c w }
    ensures { Takes set src.now (sub field_phrase) 1 0 left c w out.old result out.new }
{
    let Done(c1, w1, computed) = name(src, out, c, w, left, set)?;
    let start = c.start;
    let end = c1.at;
    if c1.kind == Kind::L_PAREN {
        let Done(c2, w2, n) = params(src, out, eat_any(src, c1), w1, left, set)?;
        let Done(c3, w3, _) = eat(src, c2, w2, Kind::R_PAREN)?;
        let h = Header {
            start,
            end,
            computed,
            plus: 0,
            method: 1,
            params: n,
        };
        return value(src, out, c3, w3, left, set, h);
    }
    if c1.kind == Kind::PLUS {
        let h = Header {
            start,
            end,
            computed,
            plus: 1,
            method: 0,
            params: 0,
        };
        return value(src, out, eat_any(src, c1), w1, left, set, h);
    }
    let h = Header {
        start,
        end,
        computed,
        plus: 0,
        method: 0,
        params: 0,
    };
    value(src, out, c1, w1, left, set, h)
}

// field from its visibility on: field-value.
#[cycle(phrase)]
fn value(
    src: &[u8],
    out: &mut [u8],
    c: Cursor,
    w: usize,
    left: usize,
    set: u64,
    h: Header,
) -> Answer
    requires { Ready src.now c w × (h.start < 65536) × (h.end < 65536) × (h.computed ≤ 4) × (h.params ≤ c.at) }
    ensures { Leads set src.now left (state (goto (field_value h.start h.end h.computed h.plus h.method)) (h.params + 1) c w out.old) 0 end 1 result out.new }
{
    let Done(c1, w1, _) = eat(src, c, w, Kind::COLON)?;
    let v = visibility(src, c1);
    let c2 = v.cursor;
    let Done(c3, w3, _) = expr(src, out, c2, w1, left, set, 0)?;
    let w4 = records::put_field(out, w3, h, v.byte);
    Ok(Done(c3, w4, 1))
}

// member: member.
#[cycle(phrase)]
pub fn member(src: &[u8], out: &mut [u8], c: Cursor, w: usize, left: usize, set: u64) -> Answer
    requires { Ready src.now c w }
    ensures { Takes set src.now (sub member_phrase) 1 0 left c w out.old result out.new }
{
    if c.kind == Kind::LOCAL_KW {
        return bind(src, out, eat_any(src, c), w, left, set);
    }
    if c.kind == Kind::ASSERT_KW {
        return assert(src, out, c, w, left, set);
    }
    field(src, out, c, w, left, set)
}

// for_spec, after its `for`: for-clause.
#[cycle(phrase)]
fn spec(src: &[u8], out: &mut [u8], c: Cursor, w: usize, left: usize, set: u64) -> Answer
    requires { Ready src.now c w }
    ensures { Takes set src.now (sub for_clause) 1 0 left c w out.old result out.new }
{
    if header_at(src, c, set) {
        return each(src, out, c, w, left, set);
    }
    let Done(c1, w1, _) = pat(src, out, c, w, left, set)?;
    let Done(c2, w2, _) = eat(src, c1, w1, Kind::IN_KW)?;
    let Done(c3, w3, _) = expr(src, out, c2, w2, left, set, 0)?;
    let w4 = writers::put_none(out, w3, Tag::FOR);
    Ok(Done(c3, w4, 1))
}

// for_spec, object iteration, at its header: header, iteration, iteration-value.
#[cycle(phrase)]
fn each(src: &[u8], out: &mut [u8], c: Cursor, w: usize, left: usize, set: u64) -> Answer
    requires { Ready src.now c w × HeaderAt set src.now c true }
    ensures { Leads set src.now left (state (goto for_clause) 0 c w out.old) 0 end 1 result out.new }
{
    if left == 0 {
        return error(c, Number::DEPTH, 0);
    }
    let key = eat_any(src, c);
    let bracket = eat_any(src, key);
    let colon = eat_any(src, bracket);
    let v = visibility(src, eat_any(src, colon));
    let c1 = v.cursor;
    let Done(c2, w2, _) = pat(src, out, c1, w, left, set)?;
    let Done(c3, w3, _) = eat(src, c2, w2, Kind::IN_KW)?;
    let Done(c4, w4, _) = expr(src, out, c3, w3, left, set, 0)?;
    let from = key.start;
    let to = key.end;
    let w5 = writers::put_iteration(out, w4, v.byte, &src[from as usize..to as usize]);
    Ok(Done(c4, w5, 1))
}

// compspecs, if_spec_data, at `for`: clauses, more-clauses, if-clause.
#[cycle(phrase)]
fn specs(src: &[u8], out: &mut [u8], c: Cursor, w: usize, left: usize, set: u64) -> WithCount
    requires { Ready src.now c w × (c.kind ≡ FOR_KW) }
    ensures { Counts set src.now clauses 0 left c w out.old result out.new }
{
    let mut cur = c;
    let mut at = w;
    let mut n: usize = 0;
    loop {
        if cur.kind == Kind::FOR_KW {
            let Done(c1, w1, _) = spec(src, out, eat_any(src, cur), at, left, set)?;
            n += 1;
            cur = c1;
            at = w1;
            continue;
        }
        if cur.kind != Kind::IF_KW {
            return Ok(Done(cur, at, n));
        }
        let Done(c2, w2, _) = expr(src, out, eat_any(src, cur), at, left, set, 0)?;
        at = writers::put_mark(out, w2, Tag::IF_CLAUSE, cur.start, cur.end);
        n += 1;
        cur = c2;
    }
}

// objinside: inside, members, next-member.
#[cycle(phrase)]
fn inside(src: &[u8], out: &mut [u8], c: Cursor, w: usize, left: usize, set: u64) -> Answer
    requires { Ready src.now c w }
    ensures { Takes set src.now (sub inside_phrase) 1 7 left c w out.old result out.new }
{
    if c.kind == Kind::R_BRACE {
        return members_close(out, c, w, 0);
    }
    let mut cur = c;
    let mut at = w;
    let mut n: usize = 0;
    let mut fault: usize = 4;
    loop {
        let Done(c1, w1, _) = member(src, out, cur, at, left, set)?;
        n += 1;
        at = w1;
        fault = with_member(fault, cur.kind);
        cur = past_comma(src, c1);
        if cur.kind == Kind::FOR_KW {
            return comp(src, out, cur, at, left, set, n, fault);
        }
        if c1.kind != Kind::COMMA {
            return members_close(out, cur, at, n);
        }
        if cur.kind == Kind::R_BRACE {
            return members_close(out, cur, at, n);
        }
    }
}

// objinside, a comprehension of n members, at its `for`: comprehension, comprehension-end.
#[cycle(phrase)]
fn comp(
    src: &[u8],
    out: &mut [u8],
    c: Cursor,
    w: usize,
    left: usize,
    set: u64,
    n: usize,
    fault: usize,
) -> Answer
    requires { Ready src.now c w × (c.kind ≡ FOR_KW) × (n ≤ c.at) × (fault ≤ 4) }
    ensures { Leads set src.now left (state (goto (comprehension fault)) n c w out.old) 7 end 1 result out.new }
{
    let Done(c1, w1, m) = specs(src, out, c, w, left, set)?;
    if fault != 0 {
        return error(c1, Number::MISPLACED, fault);
    }
    let w2 = writers::put_counts(out, w1, n, m);
    Ok(Done(c1, w2, 1))
}

// expr_basic: basic.
#[cycle(phrase)]
fn basic(src: &[u8], out: &mut [u8], c: Cursor, w: usize, left: usize, set: u64) -> Answer
    requires { Ready src.now c w }
    ensures { Takes set src.now (sub basic_phrase) 1 0 left c w out.old result out.new }
{
    let kind = c.kind;
    match kind {
        Kind::L_PAREN => {
            let Done(c1, w1, _) = expr(src, out, eat_any(src, c), w, left, set, 0)?;
            eat(src, c1, w1, Kind::R_PAREN)
        }
        Kind::L_BRACK => array(src, out, eat_any(src, c), w, left, set),
        Kind::L_BRACE => {
            let Done(c2, w2, _) = inside(src, out, eat_any(src, c), w, left, set)?;
            eat(src, c2, w2, Kind::R_BRACE)
        }
        Kind::LOCAL_KW => local(src, out, eat_any(src, c), w, left, set),
        Kind::IF_KW => cond(src, out, c, w, left, set),
        Kind::FUNCTION_KW => func(src, out, c, w, left, set),
        Kind::ASSERT_KW => claim(src, out, c, w, left, set),
        Kind::ERROR_KW => {
            let Done(c3, w3, _) = expr(src, out, eat_any(src, c), w, left, set, 0)?;
            let w2 = writers::put_mark(out, w3, Tag::ERROR, c.start, c.end);
            Ok(Done(c3, w2, 1))
        }
        Kind::IMPORTSTR_KW => load(src, out, c, w, left, set, 1),
        Kind::IMPORTBIN_KW => load(src, out, c, w, left, set, 2),
        Kind::IMPORT_KW => load(src, out, c, w, left, set, 0),
        _ => leaves::atom(src, out, c, w),
    }
}

// expr_basic's arrays, after `[`: array, array-first, array-comp, array-comp-end, elements, next-element.
#[cycle(phrase)]
fn array(src: &[u8], out: &mut [u8], c: Cursor, w: usize, left: usize, set: u64) -> Answer
    requires { Ready src.now c w }
    ensures { Leads set src.now left (state (goto array_phrase) 0 c w out.old) 0 end 1 result out.new }
{
    if c.kind == Kind::R_BRACK {
        return array_close(src, out, c, w, Tag::ARRAY, 0);
    }
    let Done(c1, w1, _) = expr(src, out, c, w, left, set, 0)?;
    let mut next = past_comma(src, c1);
    if next.kind == Kind::FOR_KW {
        let Done(c2, w2, m) = specs(src, out, next, w1, left, set)?;
        return array_close(src, out, c2, w2, Tag::ARRAY_COMP, m);
    }
    let mut cur = c1;
    let mut at = w1;
    let mut n: usize = 1;
    loop {
        if cur.kind != Kind::COMMA {
            return array_close(src, out, cur, at, Tag::ARRAY, n);
        }
        if next.kind == Kind::R_BRACK {
            return array_close(src, out, next, at, Tag::ARRAY, n);
        }
        let Done(c3, w3, _) = expr(src, out, next, at, left, set, 0)?;
        n += 1;
        cur = c3;
        at = w3;
        next = past_comma(src, c3);
    }
}

// expr_basic's local, after `local`: binds, binds-end.
#[cycle(phrase)]
fn local(src: &[u8], out: &mut [u8], c: Cursor, w: usize, left: usize, set: u64) -> Answer
    requires { Ready src.now c w }
    ensures { Leads set src.now left (state (goto binds) 0 c w out.old) 0 end 1 result out.new }
{
    let mut cur = c;
    let mut at = w;
    let mut n: usize = 0;
    loop {
        if cur.kind == Kind::SEMI {
            return body(src, out, cur, at, left, set, n);
        }
        let Done(c1, w1, _) = bind(src, out, cur, at, left, set)?;
        n += 1;
        at = w1;
        if c1.kind != Kind::COMMA {
            return body(src, out, c1, at, left, set, n);
        }
        cur = eat_any(src, c1);
    }
}

// expr_basic's local from its `;` on: local-body.
#[cycle(phrase)]
fn body(src: &[u8], out: &mut [u8], c: Cursor, w: usize, left: usize, set: u64, n: usize) -> Answer
    requires { Ready src.now c w × (n ≤ c.at) }
    ensures { Leads set src.now left (state (goto local_body) n c w out.old) 0 end 1 result out.new }
{
    let Done(c1, w1, _) = eat(src, c, w, Kind::SEMI)?;
    let Done(c2, w2, _) = expr(src, out, c1, w1, left, set, 0)?;
    let w3 = writers::put_count(out, w2, Tag::LOCAL, n);
    Ok(Done(c2, w3, 1))
}

// expr_basic's function: basic at `function`, function-body.
#[cycle(phrase)]
fn func(src: &[u8], out: &mut [u8], c: Cursor, w: usize, left: usize, set: u64) -> Answer
    requires { Ready src.now c w × (c.kind ≡ FUNCTION_KW) }
    ensures { Leads set src.now left (state (goto basic_phrase) 0 c w out.old) 0 end 1 result out.new }
{
    let Done(c1, w1, _) = eat(src, eat_any(src, c), w, Kind::L_PAREN)?;
    let Done(c2, w2, n) = params(src, out, c1, w1, left, set)?;
    let Done(c3, w3, _) = eat(src, c2, w2, Kind::R_PAREN)?;
    let Done(c4, w4, _) = expr(src, out, c3, w3, left, set, 0)?;
    let w5 = writers::put_function(out, w4, c.start, c.end, n);
    Ok(Done(c4, w5, 1))
}

// expr_basic's assert: basic at `assert`.
#[cycle(phrase)]
fn claim(src: &[u8], out: &mut [u8], c: Cursor, w: usize, left: usize, set: u64) -> Answer
    requires { Ready src.now c w × (c.kind ≡ ASSERT_KW) }
    ensures { Leads set src.now left (state (goto basic_phrase) 0 c w out.old) 0 end 1 result out.new }
{
    let Done(c1, w1, _) = assert(src, out, c, w, left, set)?;
    let Done(c2, w2, _) = eat(src, c1, w1, Kind::SEMI)?;
    let Done(c3, w3, _) = expr(src, out, c2, w2, left, set, 0)?;
    let w4 = writers::put_none(out, w3, Tag::ASSERT_EXPR);
    Ok(Done(c3, w4, 1))
}

// expr_basic's imports, whose kind is which: basic at `import`, `importstr`, `importbin`.
#[cycle(phrase)]
fn load(src: &[u8], out: &mut [u8], c: Cursor, w: usize, left: usize, set: u64, which: u8) -> Answer
    requires { Ready src.now c w × Imports c.kind which }
    ensures { Leads set src.now left (state (goto basic_phrase) 0 c w out.old) 0 end 1 result out.new }
{
    let Done(c1, w1, _) = expr(src, out, eat_any(src, c), w, left, set, 0)?;
    let w2 = writers::put_kind(out, w1, Tag::IMPORT, which, c.start, c.end);
    Ok(Done(c1, w2, 1))
}

// expr_suffix: suffixed, and the loop over its suffixes.
#[cycle(phrase)]
fn chain(src: &[u8], out: &mut [u8], c: Cursor, w: usize, left: usize, set: u64) -> Answer
    requires { Ready src.now c w }
    ensures { Takes set src.now (sub suffixed) 1 0 left c w out.old result out.new }
{
    let Done(c1, w1, _) = basic(src, out, c, w, left, set)?;
    let mut cur = c1;
    let mut at = w1;
    let mut first: usize = 1;
    loop {
        if !suffix_at(cur.kind, set) {
            return Ok(Done(cur, at, 1));
        }
        let Done(c2, w2, f) = link(src, out, cur, at, left, set, first)?;
        cur = c2;
        at = w2;
        first = f;
    }
}

// expr_suffix, one suffix: suffix.
#[cycle(phrase)]
fn link(
    src: &[u8],
    out: &mut [u8],
    c: Cursor,
    w: usize,
    left: usize,
    set: u64,
    first: usize,
) -> WithFirst
    requires { Ready src.now c w × Suffixed set c.kind true × (first ≤ 4) }
    ensures { TellsSome set src.now left (state (goto (suffix_phrase first)) 1 c w out.old) suffixes 1 result out.new }
{
    let kind = c.kind;
    let c1 = eat_any(src, c);
    match kind {
        Kind::QUESTION_MARK => safe(src, out, c1, w, left, set, first),
        Kind::DOT => member_name(src, out, c1, w, first, 0),
        Kind::L_BRACK => index(src, out, c1, w, left, set, first),
        Kind::L_PAREN => args(src, out, c1, w, left, set, c.start),
        _ => {
            let Done(c2, w2, _) = inside(src, out, c1, w, left, set)?;
            let Done(c3, w3, _) = eat(src, c2, w2, Kind::R_BRACE)?;
            let w4 = writers::put_none(out, w3, Tag::EXTENSION);
            Ok(Done(c3, w4, 1))
        }
    }
}

// expr_suffix, after `?`: null-safe, null-safe-index, null-safe-end.
#[cycle(phrase)]
fn safe(
    src: &[u8],
    out: &mut [u8],
    c: Cursor,
    w: usize,
    left: usize,
    set: u64,
    first: usize,
) -> WithFirst
    requires { Ready src.now c w × (first ≤ 4) }
    ensures { Tells set src.now left (state (safely first) 1 c w out.old) suffixes 1 result out.new }
{
    let Done(c1, w1, _) = eat(src, c, w, Kind::DOT)?;
    if c1.kind != Kind::L_BRACK {
        return member_name(src, out, c1, w1, first, 1);
    }
    let c2 = eat_any(src, c1);
    let Done(c3, w3, _) = expr(src, out, c2, w1, left, set, 0)?;
    let Done(c4, w4, _) = eat(src, c3, w3, Kind::R_BRACK)?;
    let w5 = records::put_index(out, w4, c2.start, c3.at, first, 1);
    Ok(Done(c4, w5, 0))
}

// expr_suffix, after `[`: bracket, index-or-slice.
#[cycle(phrase)]
fn index(
    src: &[u8],
    out: &mut [u8],
    c: Cursor,
    w: usize,
    left: usize,
    set: u64,
    first: usize,
) -> WithFirst
    requires { Ready src.now c w × (first ≤ 4) }
    ensures { Tells set src.now left (state (goto (bracket first)) 1 c w out.old) suffixes 1 result out.new }
{
    if c.kind == Kind::COLON {
        return slice(
            src,
            out,
            eat_any(src, c),
            w,
            left,
            set,
            0,
            Span { start: 0, end: 0 },
        );
    }
    let Done(c1, w1, _) = expr(src, out, c, w, left, set, 0)?;
    if c1.kind == Kind::COLON {
        let x = Span {
            start: c.start,
            end: c1.at,
        };
        return slice(src, out, eat_any(src, c1), w1, left, set, 1, x);
    }
    let Done(c2, w2, _) = eat(src, c1, w1, Kind::R_BRACK)?;
    let w3 = records::put_index(out, w2, c.start, c1.at, first, 0);
    Ok(Done(c2, w3, 0))
}

// expr_bp up to its loop: expr.
#[cycle(phrase)]
fn sign(src: &[u8], out: &mut [u8], c: Cursor, w: usize, left: usize, set: u64, least: u8) -> Answer
    requires { Ready src.now c w }
    ensures { Leads set src.now left (state (goto (expr_phrase least)) 0 c w out.old) 0 (goto (infix_tail least)) 1 result out.new }
{
    let Some(o) = unary_op(c.kind) else {
        return chain(src, out, c, w, left, set);
    };
    let Done(c1, w1, _) = expr(src, out, eat_any(src, c), w, left, set, prefix_power(set))?;
    let w2 = writers::put_flag(out, w1, Tag::PREFIX, o);
    Ok(Done(c1, w2, 1))
}

// expr_bp: expr, one level deeper, infix-tail.
#[cycle(phrase)]
pub fn expr(
    src: &[u8],
    out: &mut [u8],
    c: Cursor,
    w: usize,
    left: usize,
    set: u64,
    least: u8,
) -> Answer
    requires { Ready src.now c w }
    ensures { Takes set src.now (deep (expr_phrase least)) 1 0 left c w out.old result out.new }
{
    if left == 0 {
        return error(c, Number::DEPTH, 0);
    }
    let Done(c1, w1, _) = sign(src, out, c, w, left - 1, set, least)?;
    let mut cur = c1;
    let mut at = w1;
    loop {
        let Some(op) = operators::infix(set, cur.kind) else {
            return Ok(Done(cur, at, 1));
        };
        if op.left < least {
            return Ok(Done(cur, at, 1));
        }
        let Done(c2, w2, _) = expr(src, out, eat_any(src, cur), at, left - 1, set, op.right)?;
        at = writers::put_kind(out, w2, Tag::INFIX, op.byte, cur.start, cur.end);
        cur = c2;
    }
}
