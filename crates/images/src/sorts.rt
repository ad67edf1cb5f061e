// What a record is, by its tag, and what it counts as.
ghost use Rattle.std.specs.Prelude.{◌≡◌};
ghost use Rattle.images.specs.Inner.{code, sort_code, wide_code, sort_of as sort_by, is_a};

use grammar::tags::Tag;

// The sorts of records.
#[derive(Clone, Copy, Debug, PartialEq, Eq)]
pub enum Sort {
    Expression,
    String,
    Run, // an index part, on which a later one of its run may stand
    Object,
    Named,
    Param,
    Bind,
    Field,
    Assertion,
    Member,
    Iteration,
    IfClause,
    Clause,
    Pattern,
    NamePattern,
    PatternField,
    CompMember, // of an object comprehension: binds, and one field
}

impl Sort {
    // What a record of a tag is.
    #[tactic(auto, unfolding(crate::specs::Inner::code, crate::specs::Inner::sort_of))]
    fn of(tag: u8) -> Sort
        ensures { sort_code result ≡ code (sort_by tag) }
    {
        match tag {
            Tag::STRING => Sort::String,
            Tag::MEMBERS | Tag::OBJECT_COMP => Sort::Object,
            Tag::NAMED_ARGUMENT => Sort::Named,
            Tag::INDEX_PART => Sort::Run,
            Tag::BIND => Sort::Bind,
            Tag::NAME_PATTERN => Sort::NamePattern,
            Tag::SKIP | Tag::ARRAY_PATTERN | Tag::OBJECT_PATTERN => Sort::Pattern,
            Tag::PATTERN_FIELD => Sort::PatternField,
            Tag::PARAMETER => Sort::Param,
            Tag::FIELD => Sort::Field,
            Tag::ASSERT => Sort::Assertion,
            Tag::FOR | Tag::OBJECT_ITERATION => Sort::Iteration,
            Tag::IF_CLAUSE => Sort::IfClause,
            _ => Sort::Expression,
        }
    }

    // What else a record of a sort is.
    #[tactic(auto, unfolding(crate::specs::Inner::wide_code))]
    fn wider(self) -> Sort
        ensures { sort_code result ≡ wide_code (sort_code self) }
    {
        match self {
            Sort::String | Sort::Run | Sort::Object => Sort::Expression,
            Sort::Bind | Sort::Field | Sort::Assertion => Sort::Member,
            Sort::Iteration | Sort::IfClause => Sort::Clause,
            Sort::NamePattern => Sort::Pattern,
            Sort::Expression
            | Sort::Named
            | Sort::Param
            | Sort::Member
            | Sort::Clause
            | Sort::Pattern
            | Sort::PatternField
            | Sort::CompMember => self,
        }
    }
}

// Whether a record of this tag is of a sort.
pub(crate) fn is(tag: u8, wanted: Sort) -> bool
    ensures { result ≡ is_a tag (sort_code wanted) }
{
    let own = Sort::of(tag);
    own == wanted || own.wider() == wanted
}
