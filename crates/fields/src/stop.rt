// The bytes that end a field.
ghost use Rattle.std.specs.Prelude.{◌≡◌};
ghost use Rattle.fields.specs.Stops.{stop_byte};

#[derive(Clone, Copy, PartialEq, Eq)]
pub enum Stop {
    Tab = b'\t' as isize,
    LineFeed = b'\n' as isize,
}

impl Stop {
    pub fn byte(self) -> u8
        ensures { result ≡ stop_byte self }
    {
        self as u8
    }
}
