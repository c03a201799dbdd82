ghost use Rattle.std.specs.Prelude.{◌≡◌};

/// The command words.
#[derive(Clone, Copy)]
pub(crate) enum Word {
    Run,
    Plain,
    Tpca,
    Gen,
    Save,
    Resume,
    Audit,
    Map,
    Index,
    Mirror,
}

/// The options of the load. The first thirteen are those of a run, the first twelve those of a tree, the second to the eleventh
/// those of the plain machine. Those of a resumed run are the eighth to the thirteenth, and
/// that of an audit is the thirteenth.
const OPTIONS: [&str; 18] = [
    "reserves",
    "segments",
    "rows",
    "pages",
    "shadows",
    "frames",
    "entries",
    "part",
    "policy",
    "limit",
    "mark",
    "lives",
    "large",
    "start",
    "branches",
    "accounts",
    "transfers",
    "every",
];

impl Word {
    ghost use Rattle.std.specs.Prelude.{find, map};
    ghost use Rattle.std.specs.Str.{bytes_eq};
    ghost use Rattle.envy_args.specs.Reading.{word_of, options_of, all};

    const ALL: [Word; 10] = [
        Word::Run,
        Word::Plain,
        Word::Tpca,
        Word::Gen,
        Word::Save,
        Word::Resume,
        Word::Audit,
        Word::Map,
        Word::Index,
        Word::Mirror,
    ];

    pub(crate) fn text(self) -> &'static [u8]
        ensures { result.now ≡ word_of self }
    {
        match self {
            Word::Run => b"run",
            Word::Plain => b"plain",
            Word::Tpca => b"tpca",
            Word::Gen => b"gen",
            Word::Save => b"save",
            Word::Resume => b"resume",
            Word::Audit => b"audit",
            Word::Map => b"map",
            Word::Index => b"index",
            Word::Mirror => b"mirror",
        }
    }

    /// The command of this word.
    pub(crate) fn of(text: &[u8]) -> Option<Word>
        ensures { result ≡ find (λ word. bytes_eq (word_of word) text.now) all }
    {
        Word::ALL.iter().find(|word| word.text() == text).copied()
    }

    /// The names of its options.
    pub(crate) fn options(self) -> &'static [&'static str]
        ensures { map (λ name. name.now) result.now ≡ options_of self }
    {
        match self {
            Word::Run | Word::Save | Word::Mirror => &OPTIONS[..13],
            Word::Index => &OPTIONS[..12],
            Word::Plain => &OPTIONS[1..11],
            Word::Tpca => &OPTIONS,
            Word::Gen => &["start", "lines", "pages", "hot", "share", "stores"],
            Word::Resume => &OPTIONS[7..13],
            Word::Audit | Word::Map => &OPTIONS[12..13],
        }
    }
}
