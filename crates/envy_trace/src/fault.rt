ghost use Rattle.std.specs.Prelude.{◌≡◌};

/// Why a line of a trace is refused. The first that applies, in the order `Long`, `Word`, `Count`,
/// `Number`.
#[derive(Clone, Copy, Debug, PartialEq, Eq)]
pub enum LineFault {
    /// The first field is no command word.
    Word,
    /// A field is no number, or one out of its range.
    Number,
    /// The command has fewer fields, or more.
    Count,
    /// The line has more than 120 bytes.
    Long,
}

impl LineFault {
    ghost use Rattle.envy_trace.specs.Faults.{fault_number};

    /// The number by which a program tells the fault: 1 for `Word`, 2 for `Number`, 3 for `Count`, 4 for
    /// `Long`.
    pub fn number(&self) -> u8
        ensures { result ≡ fault_number self.now }
    {
        match self {
            LineFault::Word => 1,
            LineFault::Number => 2,
            LineFault::Count => 3,
            LineFault::Long => 4,
        }
    }
}
