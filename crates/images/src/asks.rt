// What a record asks beyond the length and the range of its bytes: how its fields go together, its text, and its children by their sorts.
ghost use Rattle.std.specs.Prelude.{◌≡◌, true, ◌-◌};
ghost use Rattle.images.specs.Inner.{unless as unless-set, method_fine, slice_fine, rest_kind as kind-of-rest, question, asks as asked_by, Asks, coded, sort_code, text_code, forward as all-forward};

use crate::parts::{BACKWARD, bits};
use crate::sorts::Sort;
use grammar::tags::Tag;

// What is asked of a text.
#[derive(Clone, Copy, Debug, PartialEq, Eq)]
pub enum Text {
    Free,
    Number,
    Utf8,
    Name,
    Empty,
}

// So many children of a sort.
#[derive(Clone, Copy)]
pub struct Group {
    pub count: usize,
    pub sort: Sort,
}

// Three groups of children in their order; the kind and the length of the text at the payload's end.
#[derive(Clone, Copy)]
pub struct Question {
    pub first: Group,
    pub second: Group,
    pub third: Group,
    pub text: Text,
    pub size: usize,
}

// A number that is 0 unless a flag is set.
#[tactic(auto, unfolding(crate::specs::Inner::unless))]
fn unless(flag: usize, n: usize) -> bool
    ensures { result ≡ unless-set flag n }
{
    flag != 0 || n == 0
}

// A field that is no method has no parameters, and a method no plus.
#[tactic(auto, unfolding(crate::specs::Inner::method_fine))]
fn method_fine(plus: usize, method: usize, n: usize) -> bool
    ensures { result ≡ method_fine plus method n }
{
    if method == 0 { n == 0 } else { plus == 0 }
}

// Of a slice's three parts, the spans of those that are absent are 0.
fn slice_fine(b: usize, x: usize, y: usize, z: usize) -> bool
    ensures { result ≡ slice_fine b x y z }
{
    unless(b % 2, x) && unless(b / 2 % 2, y) && unless(b / 4 % 2, z)
}

// A pattern's rest has a name only where it is kept.
fn rest_kind(rest: usize) -> Text
    ensures { text_code result ≡ kind-of-rest rest }
{
    if rest == 2 { Text::Name } else { Text::Empty }
}

// Three groups of children, and no text.
fn three(n1: usize, s1: Sort, n2: usize, s2: Sort, n3: usize, s3: Sort) -> Question
    ensures { coded result ≡ question true n1 (sort_code s1) n2 (sort_code s2) n3 (sort_code s3) 0 0 }
{
    Question {
        first: Group {
            count: n1,
            sort: s1,
        },
        second: Group {
            count: n2,
            sort: s2,
        },
        third: Group {
            count: n3,
            sort: s3,
        },
        text: Text::Free,
        size: 0,
    }
}

fn two(n1: usize, s1: Sort, n2: usize, s2: Sort) -> Question
    ensures { coded result ≡ question true n1 (sort_code s1) n2 (sort_code s2) 0 0 0 0 }
{
    three(n1, s1, n2, s2, 0, Sort::Expression)
}

fn one(n: usize, sort: Sort) -> Question
    ensures { coded result ≡ question true n (sort_code sort) 0 0 0 0 0 0 }
{
    two(n, sort, 0, Sort::Expression)
}

// No children; a text.
fn leaf(text: Text, size: usize) -> Question
    ensures { coded result ≡ question true 0 0 0 0 0 0 (text_code text) size }
{
    one(0, Sort::Expression).with(text, size)
}

impl Question {
    // With a text.
    fn with(self, text: Text, size: usize) -> Question
        ensures { coded result ≡ record (coded self) { text = text_code text; size = size } }
    {
        Question { text, size, ..self }
    }
}

// By a record's tag and the values of its parts; nothing where the fields do not go together.
#[tactic(auto, unfolding(crate::specs::Inner::asks))]
pub(crate) fn asks(tag: u8, v: [usize; 6]) -> Option<Question>
    ensures { Asks (asked_by tag v) result }
{
    let [a, b, c, d, e, _] = v;
    match tag {
        Tag::IDENTITY => Some(leaf(Text::Free, 0)),
        Tag::NULL => Some(leaf(Text::Free, 0)),
        Tag::BOOL => Some(leaf(Text::Free, 0)),
        Tag::NUMBER => Some(leaf(Text::Number, a)),
        Tag::STRING => Some(leaf(Text::Utf8, a)),
        Tag::VARIABLE => Some(leaf(Text::Name, b)),
        Tag::ARRAY => Some(one(a, Sort::Expression)),
        Tag::ARRAY_COMP => (1 <= a).then_some(three(
            1,
            Sort::Expression,
            1,
            Sort::Iteration,
            a.saturating_sub(1),
            Sort::Clause,
        )),
        Tag::MEMBERS => Some(one(a, Sort::Member)),
        Tag::OBJECT_COMP => (1 <= b).then_some(three(
            a,
            Sort::CompMember,
            1,
            Sort::Iteration,
            b.saturating_sub(1),
            Sort::Clause,
        )),
        Tag::EXTENSION => Some(two(1, Sort::Expression, 1, Sort::Object)),
        Tag::PREFIX => Some(one(1, Sort::Expression)),
        Tag::INFIX => Some(one(2, Sort::Expression)),
        Tag::ASSERT_EXPR => Some(two(1, Sort::Assertion, 1, Sort::Expression)),
        Tag::LOCAL => Some(two(a, Sort::Bind, 1, Sort::Expression)),
        Tag::IMPORT => Some(one(1, Sort::Expression)),
        Tag::ERROR => Some(one(1, Sort::Expression)),
        Tag::CALL => Some(three(1, Sort::Expression, c, Sort::Expression, d, Sort::Named)),
        Tag::NAMED_ARGUMENT => Some(one(1, Sort::Expression).with(Text::Name, a)),
        Tag::INDEX_PART => {
            let indexed = if b == 0 { Sort::Run } else { Sort::Expression };
            Some(two(1, indexed, 1, Sort::Expression))
        }
        Tag::FUNCTION => Some(two(b, Sort::Param, 1, Sort::Expression)),
        Tag::IF => Some(two(2, Sort::Expression, b, Sort::Expression)),
        Tag::SLICE => {
            slice_fine(a, b, c, d).then_some(two(1, Sort::Expression, bits(a), Sort::Expression))
        }
        Tag::BIND => {
            let bound = if a == 0 {
                Sort::Pattern
            } else {
                Sort::NamePattern
            };
            unless(a, b).then_some(three(1, bound, b, Sort::Param, 1, Sort::Expression))
        }
        Tag::NAME_PATTERN => Some(leaf(Text::Name, b)),
        Tag::SKIP => Some(leaf(Text::Free, 0)),
        Tag::ARRAY_PATTERN => {
            let asked = two(a, Sort::Pattern, c, Sort::Pattern).with(rest_kind(b), d);
            unless(b, c).then_some(asked)
        }
        Tag::OBJECT_PATTERN => Some(one(a, Sort::PatternField).with(rest_kind(b), c)),
        Tag::PATTERN_FIELD => {
            let asked = two(a, Sort::Pattern, b, Sort::Expression).with(Text::Name, d);
            unless(b, c).then_some(asked)
        }
        Tag::PARAMETER => Some(two(1, Sort::Pattern, a, Sort::Expression)),
        Tag::FIELD => {
            let name = if b == 0 {
                Sort::String
            } else {
                Sort::Expression
            };
            method_fine(c, d, e).then_some(three(1, name, e, Sort::Param, 1, Sort::Expression))
        }
        Tag::ASSERT => Some(two(1, Sort::Expression, b, Sort::Expression)),
        Tag::FOR => Some(two(1, Sort::Pattern, 1, Sort::Expression)),
        Tag::IF_CLAUSE => Some(one(1, Sort::Expression)),
        Tag::OBJECT_ITERATION => {
            Some(two(1, Sort::Pattern, 1, Sort::Expression).with(Text::Name, b))
        }
        _ => None,
    }
}

// No span runs backward.
pub(crate) fn forward(v: [usize; 6]) -> bool
    ensures { result ≡ all-forward v }
{
    v.iter().all(|value| *value != BACKWARD)
}
