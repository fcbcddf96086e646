// What every crate stands on: the refusals of a run by name; what is among a list, in specs/; laws of tests and of impossible equations, in proofs/.
#![tactic(auto)]

ghost use Rattle.std.specs.Prelude.{◌≡◌};
ghost use Rattle.prelude.specs.Refusals.{number_of};

// Why a sheet has no value under the choices that are made. Each is told by its number.
#[derive(Clone, Copy, Debug, PartialEq, Eq)]
pub enum Refusal {
    WrongKind = 20,
    OutOfRange = 21,
    ByZero = 22,
    NoMatch = 23,
    NoBinding = 24,
    NotUnique = 25,
    NotThere = 26,
    Clash = 27,
    TooLarge = 28,
    TooLargeToSplit = 29,
    TooManyBindings = 30,
    TooManyChoices = 31,
    ListTooShort = 32,
    EntryTooHigh = 33,
    EntriesLeft = 34,
}

impl Refusal {
    // The number of a refusal.
    pub fn number(self) -> usize
        ensures { result ≡ number_of self }
    {
        self as usize
    }
}
