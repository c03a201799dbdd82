ghost use Rattle.std.specs.Prelude.{◌≡◌};

/// The commands of a trace.
#[derive(Clone, Copy)]
pub(crate) enum Command {
    Load,
    Look,
    Store,
    Begin,
    Put,
    Commit,
    Abort,
    Tick,
    Power,
    Cut,
    Bad,
    Stat,
}

impl Command {
    ghost use Rattle.std.specs.Prelude.{find};
    ghost use Rattle.std.specs.Str.{bytes_eq};
    ghost use Rattle.envy_trace.specs.Commands.{name_of, all};

    /// The word that a line of it begins with.
    #[inline(always)]
    pub(crate) fn name(self) -> &'static [u8]
        ensures { result.now ≡ name_of self }
    {
        match self {
            Command::Load => b"load",
            Command::Look => b"look",
            Command::Store => b"store",
            Command::Begin => b"begin",
            Command::Put => b"put",
            Command::Commit => b"commit",
            Command::Abort => b"abort",
            Command::Tick => b"tick",
            Command::Power => b"power",
            Command::Cut => b"cut",
            Command::Bad => b"bad",
            Command::Stat => b"stat",
        }
    }

    // Whether this is its word. For a command that is known, as each below, this is a comparison or two.
    #[inline(always)]
    fn is(self, name: &[u8]) -> bool
        ensures { result ≡ bytes_eq (name_of self) name.now }
    {
        let word = self.name();
        word.len() == name.len() && name.starts_with(word)
    }

    /// The command of this word.
    pub(crate) fn named(name: &[u8]) -> Option<Command>
        ensures { result ≡ find (λ command. bytes_eq (name_of command) name.now) all }
    {
        if Command::Load.is(name) {
            Some(Command::Load)
        } else if Command::Look.is(name) {
            Some(Command::Look)
        } else if Command::Store.is(name) {
            Some(Command::Store)
        } else if Command::Begin.is(name) {
            Some(Command::Begin)
        } else if Command::Put.is(name) {
            Some(Command::Put)
        } else if Command::Commit.is(name) {
            Some(Command::Commit)
        } else if Command::Abort.is(name) {
            Some(Command::Abort)
        } else if Command::Tick.is(name) {
            Some(Command::Tick)
        } else if Command::Power.is(name) {
            Some(Command::Power)
        } else if Command::Cut.is(name) {
            Some(Command::Cut)
        } else if Command::Bad.is(name) {
            Some(Command::Bad)
        } else if Command::Stat.is(name) {
            Some(Command::Stat)
        } else {
            None
        }
    }
}
