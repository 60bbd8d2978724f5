// How a run ends.
ghost use Rattle.std.specs.Prelude.{◌≡◌};
ghost use Rattle.program.specs.Statuses.{number_of};

/// How a run ends, as the number that the program ends with.
#[derive(Clone, Copy, Debug, PartialEq, Eq)]
pub enum Status {
    /// The whole text was written, and no fault was counted.
    Done = 0,
    /// Memory wasn't found, and nothing was written.
    NoMemory = 1,
    /// The words are no command.
    Usage = 2,
    /// A file wasn't there or couldn't be read.
    ReadFault = 3,
    /// The text couldn't be written to its end.
    WriteFault = 4,
    /// A file that was read is no key file, or no file of points.
    BadKeys = 5,
    /// The script that was read isn't in the grammar, or is too long.
    BadScript = 6,
    /// The updates of a script have more entries than the map can accept.
    Full = 7,
    /// A file that was read is no saved index, or isn't that of the keys.
    BadIndex = 8,
}

impl Status {
    /// The number of the status.
    pub fn code(self) -> u8
        ensures { result ≡ number_of self }
    {
        self as u8
    }
}
