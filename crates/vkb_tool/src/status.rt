ghost use Rattle.std.specs.Prelude.{◌≡◌};
ghost use Rattle.vkb_tool.specs.Status.{number_of};

/// How a run ended.
#[derive(Clone, Copy, Debug, PartialEq, Eq)]
pub enum Status {
    /// The command was carried out, or `check` says yes.
    Done,
    /// `check` says no.
    Broken,
    /// The words are no request.
    Usage,
    /// A named fault stands in what is asked.
    Refused,
    /// The shelf failed to read a file.
    ReadFault,
    /// The sink failed to write, or the shelf to put a file.
    WriteFault,
    Memory,
}

impl Status {
    /// The exit status of the program, from 0 to 6 in the order above.
    pub fn number(self) -> u8
        ensures { result ≡ number_of self }
    {
        self as u8
    }
}
