// Operators by the kinds of their lexemes: unary_op, binary_op, infix_binding_power. Whether a setting has `??` is the caller's question.
ghost use Rattle.std.specs.Prelude.{◌≡◌};
ghost use Rattle.grammar.specs.Answer.{prefix_power};
ghost use Rattle.grammar.specs.Operators.{binary, prefix_of, infix_of};

use crate::settings::has_published;
use lexemes::kinds::Kind;

// A binary operator: its byte in the image, its left power and its right power.
#[derive(Clone, Copy)]
pub struct Operator {
    pub byte: u8,
    pub left: u8,
    pub right: u8,
}

// A prefix operator's byte in the image.
#[tactic(auto, unfolding(crate::specs::Operators::prefix_of, crate::specs::Operators::sign_in, crate::specs::Productions::signs))]
pub fn unary_op(kind: u8) -> Option<u8>
    ensures { result ≡ prefix_of kind }
{
    match kind {
        Kind::PLUS => Some(0),
        Kind::MINUS => Some(1),
        Kind::BIT_NOT => Some(2),
        Kind::NOT => Some(3),
        _ => None,
    }
}

// prefix_binding_power
pub fn prefix_power(setting: u64) -> u8
    ensures { result ≡ prefix_power setting }
{
    if has_published(setting) {
        return 22;
    }
    20
}

fn row(byte: u8, left: u8, right: u8) -> Option<Operator>
    ensures { result ≡ binary byte left right }
{
    Some(Operator { byte, left, right })
}

#[tactic(auto, unfolding(crate::specs::Operators::infix_of, crate::specs::Operators::operator_in, crate::specs::Productions::operators))]
pub fn binary_op(kind: u8) -> Option<Operator>
    ensures { result ≡ infix_of kind }
{
    match kind {
        Kind::OR => row(17, 2, 3),
        Kind::NULL_COAELSE => row(18, 2, 3),
        Kind::AND => row(16, 4, 5),
        Kind::BIT_OR => row(12, 6, 7),
        Kind::BIT_XOR => row(13, 8, 9),
        Kind::BIT_AND => row(11, 10, 11),
        Kind::EQ => row(14, 12, 13),
        Kind::NE => row(15, 12, 13),
        Kind::LT => row(7, 14, 15),
        Kind::GT => row(8, 14, 15),
        Kind::LE => row(9, 14, 15),
        Kind::GE => row(10, 14, 15),
        Kind::IN_KW => row(19, 14, 15),
        Kind::LHS => row(5, 16, 17),
        Kind::RHS => row(6, 16, 17),
        Kind::PLUS => row(3, 18, 19),
        Kind::MINUS => row(4, 18, 19),
        Kind::MUL => row(0, 20, 21),
        Kind::DIV => row(1, 20, 21),
        Kind::MODULO => row(2, 20, 21),
        _ => None,
    }
}
