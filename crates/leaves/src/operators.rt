// Binary operators under a setting: `??` has its switch.
ghost use Rattle.std.specs.Prelude.{◌≡◌};
ghost use Rattle.leaves.specs.Operators.{infix_under};

use grammar::operators::{Operator, binary_op};
use grammar::settings;
use lexemes::kinds::Kind;

pub fn infix(set: u64, kind: u8) -> Option<Operator>
    ensures { result ≡ infix_under set kind }
{
    if kind != Kind::NULL_COAELSE {
        return binary_op(kind);
    }
    if settings::has_null_coaelse(set) {
        return Some(Operator {
            byte: 18,
            left: 2,
            right: 3,
        });
    }
    None
}
