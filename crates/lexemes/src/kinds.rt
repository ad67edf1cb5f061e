// The kinds of lexemes: positions in `SyntaxKind`, under its names. Lexer, parser and answers cite this one list.
#[derive(Drop)]
pub struct Kind {
    pub code: u8,
}

impl Kind {
    pub const TOMBSTONE: u8 = 0;

    pub const EOF: u8 = 1;

    pub const OR: u8 = 2;

    pub const NULL_COAELSE: u8 = 3;

    pub const AND: u8 = 4;

    pub const BIT_OR: u8 = 5;

    pub const BIT_XOR: u8 = 6;

    pub const BIT_AND: u8 = 7;

    pub const EQ: u8 = 8;

    pub const NE: u8 = 9;

    pub const LT: u8 = 10;

    pub const GT: u8 = 11;

    pub const LE: u8 = 12;

    pub const GE: u8 = 13;

    pub const LHS: u8 = 14;

    pub const RHS: u8 = 15;

    pub const PLUS: u8 = 16;

    pub const MINUS: u8 = 17;

    pub const MUL: u8 = 18;

    pub const DIV: u8 = 19;

    pub const MODULO: u8 = 20;

    pub const NOT: u8 = 21;

    pub const BIT_NOT: u8 = 22;

    pub const L_BRACK: u8 = 23;

    pub const R_BRACK: u8 = 24;

    pub const L_PAREN: u8 = 25;

    pub const R_PAREN: u8 = 26;

    pub const L_BRACE: u8 = 27;

    pub const R_BRACE: u8 = 28;

    pub const COLON: u8 = 29;

    pub const SEMI: u8 = 30;

    pub const DOT: u8 = 31;

    pub const DOTDOTDOT: u8 = 32;

    pub const COMMA: u8 = 33;

    pub const DOLLAR: u8 = 34;

    pub const ASSIGN: u8 = 35;

    pub const QUESTION_MARK: u8 = 36;

    pub const FLOAT: u8 = 37;

    pub const ERROR_FLOAT_JUNK_AFTER_POINT: u8 = 38;

    pub const ERROR_FLOAT_JUNK_AFTER_EXPONENT: u8 = 39;

    pub const ERROR_FLOAT_JUNK_AFTER_EXPONENT_SIGN: u8 = 40;

    pub const STRING_DOUBLE: u8 = 41;

    pub const ERROR_STRING_DOUBLE_UNTERMINATED: u8 = 42;

    pub const STRING_SINGLE: u8 = 43;

    pub const ERROR_STRING_SINGLE_UNTERMINATED: u8 = 44;

    pub const STRING_DOUBLE_VERBATIM: u8 = 45;

    pub const ERROR_STRING_DOUBLE_VERBATIM_UNTERMINATED: u8 = 46;

    pub const STRING_SINGLE_VERBATIM: u8 = 47;

    pub const ERROR_STRING_SINGLE_VERBATIM_UNTERMINATED: u8 = 48;

    pub const ERROR_STRING_VERBATIM_MISSING_QUOTES: u8 = 49;

    pub const STRING_BLOCK: u8 = 50;

    pub const ERROR_STRING_BLOCK_UNEXPECTED_END: u8 = 51;

    pub const ERROR_STRING_BLOCK_MISSING_NEW_LINE: u8 = 52;

    pub const ERROR_STRING_BLOCK_MISSING_TERMINATION: u8 = 53;

    pub const ERROR_STRING_BLOCK_MISSING_INDENT: u8 = 54;

    pub const IDENT: u8 = 55;

    pub const WHITESPACE: u8 = 56;

    pub const SINGLE_LINE_SLASH_COMMENT: u8 = 57;

    pub const SINGLE_LINE_HASH_COMMENT: u8 = 58;

    pub const MULTI_LINE_COMMENT: u8 = 59;

    pub const ERROR_COMMENT_TOO_SHORT: u8 = 60;

    pub const ERROR_COMMENT_UNTERMINATED: u8 = 61;

    pub const ERROR_NO_OPERATOR: u8 = 62;

    pub const ERROR_MISSING_TOKEN: u8 = 63;

    pub const ERROR_UNEXPECTED_TOKEN: u8 = 64;

    pub const ERROR_CUSTOM: u8 = 65;

    pub const TAILSTRICT_KW: u8 = 66;

    pub const LOCAL_KW: u8 = 67;

    pub const IMPORTSTR_KW: u8 = 68;

    pub const IMPORTBIN_KW: u8 = 69;

    pub const IMPORT_KW: u8 = 70;

    pub const IF_KW: u8 = 71;

    pub const THEN_KW: u8 = 72;

    pub const ELSE_KW: u8 = 73;

    pub const FUNCTION_KW: u8 = 74;

    pub const ERROR_KW: u8 = 75;

    pub const IN_KW: u8 = 76;

    pub const META_OBJECT_APPLY: u8 = 77;

    pub const NULL_KW: u8 = 78;

    pub const TRUE_KW: u8 = 79;

    pub const FALSE_KW: u8 = 80;

    pub const SELF_KW: u8 = 81;

    pub const SUPER_KW: u8 = 82;

    pub const FOR_KW: u8 = 83;

    pub const ASSERT_KW: u8 = 84;

    pub const LEXING_ERROR: u8 = 85;
}
