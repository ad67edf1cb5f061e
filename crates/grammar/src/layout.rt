// How records are laid out: one row for each tag, for whoever reads an image.
ghost use Rattle.std.specs.Prelude.{◌≡◌, map};
ghost use Rattle.grammar.specs.Laid.{laid_out, part_of};
ghost use Rattle.grammar.specs.Layout.{layout_of};
ghost use Rattle.grammar.specs.Layout as specified;

use crate::tags::Tag;
use Part::{Below, Bits, Count, Has, Span, Text};

// A part of a payload, and the children that it tells of.
#[derive(Clone, Copy, Debug, PartialEq, Eq)]
pub enum Part {
    Span,
    Text, // to the payload's end
    Count, // a number: so many children
    Has, // a flag: a child if it is set
    Bits, // a byte below 8: a child for each of 1, 2 and 4
    Below(u8), // a byte below this: a flag, or a place in an enum
}

// How many children every record of a tag has, then the parts of its payload, at most six.
#[derive(Clone, Copy)]
pub struct Row {
    pub children: usize,
    pub parts: &'static [Part],
}

fn of(children: usize, parts: &'static [Part]) -> Option<Row>
    ensures { laid_out result ≡ specified.layout children (map part_of parts.now) }
{
    Some(Row { children, parts })
}

// The row of a tag, if records have it.
#[tactic(auto, unfolding(crate::specs::Layout::layout_of))]
pub fn layout(tag: u8) -> Option<Row>
    ensures { laid_out result ≡ layout_of tag }
{
    match tag {
        Tag::IDENTITY => of(0, &[Below(3), Span]),
        Tag::NULL => of(0, &[]),
        Tag::BOOL => of(0, &[Below(2)]),
        Tag::NUMBER => of(0, &[Text]),
        Tag::STRING => of(0, &[Text]),
        Tag::VARIABLE => of(0, &[Span, Text]),
        Tag::ARRAY => of(0, &[Count]),
        Tag::ARRAY_COMP => of(1, &[Count]),
        Tag::MEMBERS => of(0, &[Count]),
        Tag::OBJECT_COMP => of(0, &[Count, Count]),
        Tag::EXTENSION => of(2, &[]),
        Tag::PREFIX => of(1, &[Below(4)]),
        Tag::INFIX => of(2, &[Below(20), Span]),
        Tag::ASSERT_EXPR => of(2, &[]),
        Tag::LOCAL => of(1, &[Count]),
        Tag::IMPORT => of(1, &[Below(3), Span]),
        Tag::ERROR => of(1, &[Span]),
        Tag::CALL => of(1, &[Span, Below(2), Count, Count]),
        Tag::NAMED_ARGUMENT => of(1, &[Text]),
        Tag::INDEX_PART => of(2, &[Span, Below(2), Below(2)]),
        Tag::FUNCTION => of(1, &[Span, Count]),
        Tag::IF => of(2, &[Span, Has]),
        Tag::SLICE => of(1, &[Bits, Span, Span, Span]),
        Tag::BIND => of(2, &[Below(2), Count]),
        Tag::NAME_PATTERN => of(0, &[Span, Text]),
        Tag::SKIP => of(0, &[]),
        Tag::ARRAY_PATTERN => of(0, &[Count, Below(3), Count, Text]),
        Tag::OBJECT_PATTERN => of(0, &[Count, Below(3), Text]),
        Tag::PATTERN_FIELD => of(0, &[Has, Has, Span, Text]),
        Tag::PARAMETER => of(1, &[Has]),
        Tag::FIELD => of(2, &[Span, Below(2), Below(2), Below(2), Count, Below(3)]),
        Tag::ASSERT => of(1, &[Span, Has]),
        Tag::FOR => of(2, &[]),
        Tag::IF_CLAUSE => of(1, &[Span]),
        Tag::OBJECT_ITERATION => of(2, &[Below(3), Text]),
        _ => None,
    }
}
