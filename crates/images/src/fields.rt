// An answer in 02's numbers.
ghost use Rattle.std.specs.Prelude.{◌≡◌};
ghost use Rattle.images.specs.Numbers.{numbers as numbers02, refusal as refusal02, answered};

use crate::{Answer, Fault};

// What a case does not use is 0.
#[derive(Drop)]
pub struct Fields {
    pub number: u64,
    pub offset: u64,
    pub count: u64, // of records; for 24, of the numbers that are needed
}

fn refusal(number: u64, at: usize) -> Fields
    ensures { answered result ≡ refusal02 number at }
{
    Fields {
        number,
        offset: at as u64,
        count: 0,
    }
}

#[tactic(auto, unfolding(crate::specs::Numbers::numbers))]
pub fn numbers(a: Answer) -> Fields
    ensures { answered result ≡ numbers02 a }
{
    match a {
        Ok(n) => Fields {
            number: 0,
            offset: 0,
            count: n as u64,
        },
        Err(Fault::Unknown(at)) => refusal(13, at),
        Err(Fault::Malformed(at)) => refusal(14, at),
        Err(Fault::Children(at)) => refusal(15, at),
        Err(Fault::Underived(at)) => refusal(16, at),
        Err(Fault::Short(n)) => Fields {
            number: 24,
            offset: 0,
            count: n as u64,
        },
    }
}
