// The refusals by what each is given for. The first has 01's number 1, and each of the others one more.
ghost use Rattle.std.specs.Prelude.{◌≡◌};
ghost use Rattle.rules.specs.Refusals.{number_of};

#[derive(Clone, Copy, Debug, PartialEq, Eq)]
pub enum Refusal {
    CountOutside = 1,
    RightAbove,
    NoSuchDesk,
    NoSuchClass,
    NoSuchOperation,
    NoSuchProcess,
    NoSuchFile,
    ExtraGiven,
    CopyOntoItself,
    WrongLength,
    TooLittleRoom,
    NoSuchRouteDesk,
    SameDesk,
    BreaksRules,
    NotAccepted,
    DoesNotFit,
}

impl Refusal {
    pub fn number(self) -> u32
        ensures { result ≡ number_of self }
    {
        self as u32
    }
}
