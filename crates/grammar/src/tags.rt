// The tags of records: 01's numbers of "The image", by name. Writers, phrases and whoever reads images cite this one list.
#[derive(Drop)]
pub struct Tag {
    pub code: u8,
}

impl Tag {
    pub const IDENTITY: u8 = 1;

    pub const NULL: u8 = 2;

    pub const BOOL: u8 = 3;

    pub const NUMBER: u8 = 4;

    pub const STRING: u8 = 5;

    pub const VARIABLE: u8 = 6;

    pub const ARRAY: u8 = 7;

    pub const ARRAY_COMP: u8 = 8;

    pub const MEMBERS: u8 = 9;

    pub const OBJECT_COMP: u8 = 10;

    pub const EXTENSION: u8 = 11;

    pub const PREFIX: u8 = 12;

    pub const INFIX: u8 = 13;

    pub const ASSERT_EXPR: u8 = 14;

    pub const LOCAL: u8 = 15;

    pub const IMPORT: u8 = 16;

    pub const ERROR: u8 = 17;

    pub const CALL: u8 = 18;

    pub const NAMED_ARGUMENT: u8 = 19;

    pub const INDEX_PART: u8 = 20;

    pub const FUNCTION: u8 = 21;

    pub const IF: u8 = 22;

    pub const SLICE: u8 = 23;

    pub const BIND: u8 = 24;

    pub const NAME_PATTERN: u8 = 25;

    pub const SKIP: u8 = 26;

    pub const ARRAY_PATTERN: u8 = 27;

    pub const OBJECT_PATTERN: u8 = 28;

    pub const PATTERN_FIELD: u8 = 29;

    pub const PARAMETER: u8 = 30;

    pub const FIELD: u8 = 31;

    pub const ASSERT: u8 = 32;

    pub const FOR: u8 = 33;

    pub const IF_CLAUSE: u8 = 34;

    pub const OBJECT_ITERATION: u8 = 35;
}
