ghost use Rattle.std.specs.Prelude.{◌≡◌};
ghost use Rattle.mn_memdisk.specs.Crash.{outcome_of};

/// What a crash leaves of a change that no sync has made stable.
#[derive(Clone, Copy, Debug, PartialEq, Eq)]
pub enum Outcome {
    Nothing,
    Whole,
    Front,
    Back,
}

/// The outcome that a choice gives to the change of this number, counted from 0: two bits for each,
/// again from the lowest after 32.
pub fn pick(choice: u64, number: usize) -> Outcome
    ensures { result ≡ outcome_of choice number }
{
    match (choice >> (2 * (number % 32))) % 4 {
        0 => Outcome::Nothing,
        1 => Outcome::Whole,
        2 => Outcome::Front,
        _ => Outcome::Back,
    }
}
