// How a frame ended: on time, or not. The discriminant is the outcome's bit in a history.
#[derive(Clone, Copy, Debug, PartialEq, Eq)]
pub enum Outcome {
    Met = 1,
    Missed = 0,
}

// 1 for met and 0 for missed.
impl From<Outcome> for u32 {
    ghost use Rattle.std.specs.Prelude.{◌≡◌};
    ghost use Rattle.firm.specs.Outcomes.{bit};

    ghost from_gives = { λ outcome n. n ≡ bit outcome };

    fn from(outcome: Outcome) -> u32 {
        outcome as u32
    }
}
