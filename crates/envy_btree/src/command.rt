ghost use Rattle.std.specs.Prelude.{◌≡◌};

/// The commands of a trace of the index.
#[derive(Clone, Copy)]
pub(crate) enum Command {
    Get,
    Insert,
    Remove,
    Power,
    Cut,
    Bad,
}

impl Command {
    ghost use Rattle.std.specs.Prelude.{find};
    ghost use Rattle.std.specs.Str.{bytes_eq};
    ghost use Rattle.envy_btree.specs.Commands.{name_of, all};

    const ALL: [Command; 6] = [
        Command::Get,
        Command::Insert,
        Command::Remove,
        Command::Power,
        Command::Cut,
        Command::Bad,
    ];

    /// The word that a line of it begins with.
    pub(crate) fn name(self) -> &'static [u8]
        ensures { result.now ≡ name_of self }
    {
        match self {
            Command::Get => b"get",
            Command::Insert => b"insert",
            Command::Remove => b"remove",
            Command::Power => b"power",
            Command::Cut => b"cut",
            Command::Bad => b"bad",
        }
    }

    /// The command of this word.
    pub(crate) fn named(name: &[u8]) -> Option<Command>
        ensures { result ≡ find (λ command. bytes_eq (name_of command) name.now) all }
    {
        Command::ALL
            .iter()
            .find(|command| command.name() == name)
            .copied()
    }
}
