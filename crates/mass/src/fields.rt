// An answer in 02's numbers.
ghost use Rattle.std.specs.Prelude.{◌≡◌};
ghost use Rattle.images.specs.Numbers.{answered};
ghost use Rattle.mass.specs.Numbers.{numbers as numbers02};

use crate::{Answer, Fault};
use images::Fields;

// The count is of listings; for 24, of the numbers that the array needs.
#[tactic(auto, using(crate::proofs::AnswerLaws::image_numbers), unfolding(crate::specs::Numbers::numbers))]
pub fn numbers(a: Answer) -> Fields
    ensures { answered result ≡ numbers02 a }
{
    match a {
        Ok(n) => Fields {
            number: 0,
            offset: 0,
            count: n as u64,
        },
        Err(Fault::Image(fault)) => images::numbers(Err(fault)),
        Err(Fault::ListShort(n)) => Fields {
            number: 21,
            offset: 0,
            count: n as u64,
        },
    }
}
