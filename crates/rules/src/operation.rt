// The operations of the calls. The first has 01's code 1, and each of the others one more.
ghost use Rattle.std.specs.Prelude.{◌≡◌};
ghost use Rattle.rules.specs.Operations.{code_of, IsOperationOf};

use crate::Refusal;

#[derive(Clone, Copy, Debug, PartialEq, Eq)]
pub enum Operation {
    Read = 1,
    Write,
    Lock,
    Unlock,
    Open,
    Close,
    Testlock,
    Copy,
}

impl Operation {
    pub fn code(self) -> u32
        ensures { result ≡ code_of self }
    {
        self as u32
    }
}

impl TryFrom<u32> for Operation {
    type Error = Refusal;

    ghost try_from_gives = { IsOperationOf };

    fn try_from(code: u32) -> Result<Operation, Refusal> {
        match code {
            1 => Ok(Operation::Read),
            2 => Ok(Operation::Write),
            3 => Ok(Operation::Lock),
            4 => Ok(Operation::Unlock),
            5 => Ok(Operation::Open),
            6 => Ok(Operation::Close),
            7 => Ok(Operation::Testlock),
            8 => Ok(Operation::Copy),
            _ => Err(Refusal::NoSuchOperation),
        }
    }
}
