// The numbers handed back: 01's table of that name, by name. Phrases, reader and whoever answers cite this one list.
#[derive(Drop)]
pub struct Number {
    pub code: u8,
}

impl Number {
    pub const TREE: u8 = 0;

    pub const SETTING: u8 = 1;

    pub const LONG: u8 = 2;

    pub const ENCODING: u8 = 3;

    pub const LEXEME: u8 = 4;

    pub const WANTED: u8 = 5;

    pub const ABSENT: u8 = 6;

    pub const EXPRESSION: u8 = 7;

    pub const MISPLACED: u8 = 8;

    pub const ESCAPE: u8 = 9;

    // 10 is retired, and not used again.

    pub const DEPTH: u8 = 11;

    pub const ROOM: u8 = 12;

    pub const LARGE: u8 = 17;
}
