// The number of a refusal, which is its row in the table.
// Paper: "Where calls are turned down".
// For callers that cannot take the enum.
ghost use Rattle.std.specs.Prelude.{◌≡◌};
ghost use Rattle.trm_call_refusals.specs.Numbers.{number_of};

use crate::refusal::Refusal;

impl From<Refusal> for u32 {
    ghost from_gives = { λ r n. n ≡ number_of r };

    fn from(refused: Refusal) -> u32 {
        match refused {
            Refusal::Program => 3,
            Refusal::Store => 4,
            Refusal::Record => 5,
            Refusal::LineBytes => 6,
            Refusal::Buffers => 7,
            Refusal::Clocks => 8,
            Refusal::Place => 9,
        }
    }
}
