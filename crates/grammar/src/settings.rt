// What a setting is and switches on, each test once. The switches are named as the Rust's cargo features.
// Kept as four functions: a test is one line, and one function over the switch's number would only move the numbers to its callers.
ghost use Rattle.std.specs.Prelude.{◌≡◌};
ghost use Rattle.grammar.specs.Productions.{exp_destruct, exp_object_iteration, exp_null_coaelse};
ghost use Rattle.grammar.specs.Reading.{has, published};
ghost use Rattle.grammar.specs.Answer.{valid_setting};

// "number 1 moves to above 15".
pub fn valid(setting: u64) -> bool
    ensures { result ≡ valid_setting setting }
{
    setting <= 15
}

pub fn has_destruct(setting: u64) -> bool
    ensures { result ≡ has setting exp_destruct }
{
    setting % 2 == 1
}

pub fn has_object_iteration(setting: u64) -> bool
    ensures { result ≡ has setting exp_object_iteration }
{
    setting / 2 % 2 == 1
}

pub fn has_null_coaelse(setting: u64) -> bool
    ensures { result ≡ has setting exp_null_coaelse }
{
    setting / 4 % 2 == 1
}

// 8: the published binding of signs. It is no feature of the Rust.
pub fn has_published(setting: u64) -> bool
    ensures { result ≡ published setting }
{
    setting / 8 % 2 == 1
}
