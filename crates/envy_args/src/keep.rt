//! The words behind `keep`: a memory in a file.

ghost use Rattle.std.specs.Prelude.{◌≡◌, ◌⊎◌, map, Ok, Err, IfOk, IfErr};
ghost use Rattle.std.specs.String.{string_bytes};
ghost use Rattle.envy_args.specs.Keep.{beside_file, keep_of, keep_options_of, new_shape, setup_over, shape_named, sizes_of};
ghost use Rattle.envy_args.specs.Reading.{GivesIf, are_readable, shape_options};

use crate::command::WordsFault;
use crate::options::Options;
use crate::read::USUAL;
use envy_base::Shape;
use envy_policy::{Policy, Setup};
use std::alloc::Global;

/// The sizes of a board that the words name.
#[derive(Clone, Copy, Debug, PartialEq, Eq)]
pub struct Sizes {
    pub segments: Option<u32>,
    pub rows: Option<u32>,
    pub pages: Option<u32>,
    pub shadows: Option<u32>,
    pub frames: Option<u32>,
    pub entries: Option<u32>,
}

/// What the words say of a memory in a file. A file that is there has its own sizes.
#[derive(Clone, Copy, Debug, PartialEq, Eq)]
pub struct KeepOptions {
    pub sizes: Sizes,
    pub policy: Policy,
    pub limit: u64,
    /// Of None the number of frames stands.
    pub mark: Option<u32>,
    /// Whether a journal that is there is compacted before it is served.
    pub compact: bool,
}

/// The words behind `keep`.
#[derive(Clone, Copy, Debug, PartialEq, Eq)]
pub struct KeepWords<'a> {
    /// The path of the file.
    pub file: &'a str,
    /// Whether the file is trusted to be written byte by byte.
    pub bytewise: bool,
    pub options: KeepOptions,
}

/// The options of `keep`.
const NAMES: [&str; 13] = [
    "file", "bytewise", "compact", "segments", "rows", "pages", "shadows", "frames", "entries",
    "part", "policy", "limit", "mark",
];

impl Sizes {
    /// The sizes that are named, and of the others those of a shape.
    pub fn over(&self, shape: &Shape) -> Shape
        ensures { result ≡ shape_named self.now shape.now }
    {
        Shape {
            segments: self.segments.unwrap_or(shape.segments),
            rows: self.rows.unwrap_or(shape.rows),
            pages: self.pages.unwrap_or(shape.pages),
            shadows: self.shadows.unwrap_or(shape.shadows),
            frames: self.frames.unwrap_or(shape.frames),
            entries: self.entries.unwrap_or(shape.entries),
            reserves: shape.reserves,
            sums: shape.sums,
        }
    }
}

impl KeepOptions {
    /// The sizes of a file that is new.
    pub fn new_shape(&self) -> Shape
        ensures { result ≡ new_shape self.now }
    {
        self.sizes.over(&USUAL)
    }

    /// The setup of a memory of these sizes.
    pub fn setup(&self, shape: &Shape) -> Setup
        ensures { result ≡ setup_over self.now shape.now }
    {
        Setup {
            shape: *shape,
            policy: self.policy,
            limit: self.limit,
            mark: self.mark.unwrap_or(shape.frames),
        }
    }
}

/// Reads the words behind `keep`. `--file` is needed, with a path that doesn't begin with `-`; beside it stand `--bytewise`
/// and `--compact`, of 0 or 1, and the options of `plain`, each at most once. `Form` where the words are others. No rule is
/// asked: that waits for the file.
pub fn read_keep(alloc: Global, words: &[String]) -> Result<KeepWords<'_>, WordsFault>
    ensures said { IfOk result (λ said. keep_of (map string_bytes words.now)
        ≡ Ok (said.file.now, said.bytewise, said.options)) }
    ensures refused { IfErr result (λ fault. (fault ≡ WordsFault.Memory)
        ⊎ (keep_of (map string_bytes words.now) ≡ Err fault)) }
{
    let given = Options::read(alloc, &NAMES, words)?;
    let file = given.path()?;
    let bytewise = given.flag("bytewise")?;
    let options = keep_options(&given)?;
    Ok(KeepWords {
        file,
        bytewise,
        options,
    })
}

fn keep_options(options: &Options) -> Result<KeepOptions, WordsFault>
    ensures { GivesIf (are_readable beside_file options.now) (keep_options_of options.now) result }
{
    let compact = options.flag("compact")?;
    let sizes = named_sizes(options)?;
    let policy = options.policy()?;
    let limit = options.wide_number("limit", 100)?;
    let mark = options.given_number("mark")?;
    Ok(KeepOptions {
        sizes,
        policy,
        limit,
        mark,
        compact,
    })
}

fn named_sizes(options: &Options) -> Result<Sizes, WordsFault>
    ensures { GivesIf (are_readable shape_options options.now) (sizes_of options.now) result }
{
    Ok(Sizes {
        segments: options.given_number("segments")?,
        rows: options.given_number("rows")?,
        pages: options.given_number("pages")?,
        shadows: options.given_number("shadows")?,
        frames: options.given_number("frames")?,
        entries: options.given_number("entries")?,
    })
}
