ghost use Rattle.std.specs.Prelude.{◌≡◌, ◌⊎◌, ◌≤◌, map, codes, Err};
ghost use Rattle.std.specs.String.{string_bytes};
ghost use Rattle.envy_args.specs.Words.{command_of, run_of, plain_of, tpca_of, gen_of, mix_of, skew_of, is_per_cent, save_of, resume_of, audit_of, segments_of, index_of, mirror_of, lives_of, reserved, setup_of, shape_of, area_of, run_options, index_options, plain_options, tpca_options, gen_options, resume_options, audit_options, most_rows, rule_within, rules_within};
ghost use Rattle.envy_args.specs.Reading.{GivesIf, has_number, are_readable, shape_options, area_options, made, make_of, options_of};

use crate::command::{Command, WordsFault};
use crate::options::Options;
use crate::word::Word;
use envy_array::Area;
use envy_base::{MOST_ROWS, Shape};
use envy_gen::{Mix, Skew};
use envy_policy::{Setup, SetupFault};
use std::alloc::Global;

impl From<SetupFault> for WordsFault {
    ghost use Rattle.std.specs.Prelude.{◌≡◌};
    ghost use Rattle.envy_policy.specs.Setup.{rule_of};
    ghost use Rattle.envy_args.specs.declared.command.WordsFault.TheVariants.{Setup as Rule};

    ghost from_gives = { λ fault e. e ≡ Rule (rule_of fault) };

    fn from(fault: SetupFault) -> Self {
        WordsFault::Setup(fault.rule())
    }
}

/// The board of a run, where the words don't say otherwise.
pub(crate) const USUAL: Shape = Shape {
    segments: 8,
    rows: 16,
    pages: 64,
    shadows: 16,
    frames: 8,
    entries: 4,
    reserves: 0,
    sums: 0,
};

/// The board of a load.
const USUAL_OF_LOAD: Shape = Shape {
    segments: 16,
    rows: 32,
    pages: 384,
    shadows: 16,
    frames: 16,
    entries: 16,
    reserves: 0,
    sums: 0,
};

/// The board of an index.
const USUAL_OF_INDEX: Shape = Shape {
    segments: 16,
    rows: 32,
    pages: 384,
    shadows: 32,
    frames: 16,
    entries: 16,
    reserves: 0,
    sums: 0,
};

/// How often power returns, where the words don't say otherwise.
const MOST_LIVES: u32 = u32::MAX;

/// The most rows of a board, unless the words ask for a large one, and the most pages of a generated trace.
pub const USUAL_ROWS: u32 = 1_048_576;

/// The number of the rule that a board has too many rows, and its number for boards that may be large.
const TOO_MANY_ROWS: u8 = 7;

const TOO_MANY_OF_LARGE: u8 = 17;

/// The fewest shadows of a load.
const LOAD_SHADOWS: u32 = 5;

/// The fewest shadows and pages of an index.
const INDEX_SHADOWS: u32 = 32;

const INDEX_PAGES: u32 = 20;

/// Reads the words behind the program's name.
///
/// The first is a command: `run`, `plain`, `tpca`, `gen`, `save`, `resume`, `audit`, `map`, `index` or `mirror`. Its options follow in any order, each at most
/// once, as `--name value` or `--name=value`, and behind them may stand one `--`. `Form` where the words
/// are others, and `Setup` with the number of the first rule that the command breaks.
pub fn read_words(alloc: Global, words: &[String]) -> Result<Command, WordsFault>
    ensures { (result ≡ Err WordsFault.Memory) ⊎ (result ≡ command_of (map string_bytes words.now)) }
{
    let Some((first, others)) = words.split_first() else {
        return Err(WordsFault::Form);
    };
    let Some(word) = Word::of(first.as_bytes()) else {
        return Err(WordsFault::Form);
    };
    let options = Options::read(alloc, word.options(), others)?;
    make(word, &options)
}

/// The command of this word and its options. The fault is `Form` or `Setup`.
fn make(word: Word, options: &Options) -> Result<Command, WordsFault>
    ensures { result ≡ made (options_of word) (make_of word) options.now }
{
    match word {
        Word::Run => run(options),
        Word::Plain => plain(options),
        Word::Tpca => tpca(options),
        Word::Gen => generate(options),
        Word::Save => save(options),
        Word::Resume => resume(options),
        Word::Audit => audit(options),
        Word::Map => segments(options),
        Word::Index => index(options),
        Word::Mirror => mirror(options),
    }
}

fn run(options: &Options) -> Result<Command, WordsFault>
    ensures { result ≡ made run_options run_of options.now }
{
    let ((setup, lives), most) = maybe_large(options, &USUAL)?;
    check(&setup, most)?;
    Ok(Command::Run { setup, lives })
}

fn save(options: &Options) -> Result<Command, WordsFault>
    ensures { result ≡ made run_options save_of options.now }
{
    let ((setup, lives), most) = maybe_large(options, &USUAL)?;
    check(&setup, most)?;
    Ok(Command::Save { setup, lives })
}

fn mirror(options: &Options) -> Result<Command, WordsFault>
    ensures { result ≡ made run_options mirror_of options.now }
{
    let ((setup, lives), most) = maybe_large(options, &USUAL)?;
    check(&setup, most)?;
    Ok(Command::Mirror { setup, lives })
}

fn index(options: &Options) -> Result<Command, WordsFault>
    ensures { result ≡ made index_options index_of options.now }
{
    let (setup, lives) = powered(options, &USUAL_OF_INDEX)?;
    check(&setup, USUAL_ROWS)?;
    if setup.shape.shadows < INDEX_SHADOWS {
        return Err(WordsFault::Setup(13));
    }
    if setup.shape.pages < INDEX_PAGES {
        return Err(WordsFault::Setup(14));
    }
    Ok(Command::Index { setup, lives })
}

fn resume(options: &Options) -> Result<Command, WordsFault>
    ensures { result ≡ made resume_options resume_of options.now }
{
    let policy = options.policy()?;
    let limit = options.wide_number("limit", 100)?;
    let mark = options.given_number("mark")?;
    let lives = options.number("lives", MOST_LIVES)?;
    let most = most_rows(options)?;
    Ok(Command::Resume {
        policy,
        limit,
        mark,
        lives,
        most,
    })
}

fn audit(options: &Options) -> Result<Command, WordsFault>
    ensures { result ≡ made audit_options audit_of options.now }
{
    let most = most_rows(options)?;
    Ok(Command::Audit { most })
}

fn segments(options: &Options) -> Result<Command, WordsFault>
    ensures { result ≡ made audit_options segments_of options.now }
{
    let most = most_rows(options)?;
    Ok(Command::Map { most })
}

fn plain(options: &Options) -> Result<Command, WordsFault>
    ensures { result ≡ made plain_options plain_of options.now }
{
    let setup = setup(options, &USUAL)?;
    check(&setup, USUAL_ROWS)?;
    Ok(Command::Plain { setup })
}

fn tpca(options: &Options) -> Result<Command, WordsFault>
    ensures { result ≡ made tpca_options tpca_of options.now }
{
    let ((setup, lives), most) = maybe_large(options, &USUAL_OF_LOAD)?;
    let start = options.wide_number("start", 1)?;
    let area = area(options)?;
    let every = options.number("every", 0)?;
    check(&setup, most)?;
    if !area.fits(setup.shape.pages) {
        return Err(WordsFault::Setup(11));
    }
    if setup.shape.shadows < LOAD_SHADOWS {
        return Err(WordsFault::Setup(12));
    }
    Ok(Command::Tpca {
        setup,
        lives,
        start,
        area,
        every,
    })
}

fn generate(options: &Options) -> Result<Command, WordsFault>
    ensures { result ≡ made gen_options gen_of options.now }
{
    let start = options.wide_number("start", 1)?;
    let lines = options.number("lines", 1000)?;
    let pages = options.number("pages", 64)?;
    let hot = options.given_number("hot")?;
    let share = options.given_number("share")?;
    let stores = options.given_number("stores")?;
    let mix = mix(pages, hot, share, stores)?;
    Ok(Command::Gen { start, lines, mix })
}

/// What lines are drawn. The fault is `Setup`.
fn mix(
    pages: u32,
    hot: Option<u32>,
    share: Option<u32>,
    stores: Option<u32>,
) -> Result<Mix, WordsFault>
    ensures { result ≡ mix_of pages hot share stores }
{
    if pages == 0 {
        return Err(WordsFault::Setup(3));
    }
    if pages > USUAL_ROWS {
        return Err(WordsFault::Setup(7));
    }
    if !(is_per_cent(hot) && is_per_cent(share) && is_per_cent(stores)) {
        return Err(WordsFault::Setup(15));
    }
    let skew = skew(hot, share)?;
    Ok(Mix {
        pages,
        skew,
        stores,
    })
}

/// Whether a number that is given is one of per cent, 1 to 99.
fn is_per_cent(number: Option<u32>) -> bool
    ensures { result ≡ is_per_cent number }
{
    match number {
        Some(number) => number > 0 && number < 100,
        None => true,
    }
}

/// The skew of hot pages and their share, which are given together.
fn skew(hot: Option<u32>, share: Option<u32>) -> Result<Option<Skew>, WordsFault>
    ensures { result ≡ skew_of hot share }
{
    match (hot, share) {
        (None, None) => Ok(None),
        (Some(hot), Some(share)) => Ok(Some(Skew { hot, share })),
        _ => Err(WordsFault::Setup(16)),
    }
}

/// A setup over a board whose power can fail, with how often it returns.
fn powered(options: &Options, default: &Shape) -> Result<(Setup, u32), WordsFault>
    ensures { GivesIf (are_readable index_options options.now)
        (setup_of (reserved default.now options.now) options.now, lives_of options.now) result }
{
    let reserves = options.number("reserves", 0)?;
    let setup = setup(
        options,
        &Shape {
            reserves,
            ..*default
        },
    )?;
    let lives = options.number("lives", MOST_LIVES)?;
    Ok((setup, lives))
}

/// The same, over a board that may be large, with the most rows that it may have.
fn maybe_large(options: &Options, default: &Shape) -> Result<((Setup, u32), u32), WordsFault>
    ensures { GivesIf (are_readable run_options options.now)
        ((setup_of (reserved default.now options.now) options.now, lives_of options.now), most_rows options.now) result }
{
    let powered = powered(options, default)?;
    let most = most_rows(options)?;
    Ok((powered, most))
}

/// The most rows of a board.
fn most_rows(options: &Options) -> Result<u32, WordsFault>
    ensures { GivesIf (has_number 1 options.now (codes "large")) (most_rows options.now) result }
{
    if options.flag("large")? {
        Ok(MOST_ROWS)
    } else {
        Ok(USUAL_ROWS)
    }
}

/// The first rule that a setup breaks, over a board of at most so many rows.
fn check(setup: &Setup, most: u32) -> Result<(), WordsFault>
    requires most { most ≤ MOST_ROWS }
    ensures { result ≡ rules_within most setup.now }
{
    let Err(fault) = setup.check_within(most) else {
        return Ok(());
    };
    Err(WordsFault::Setup(rule_within(most, &fault)))
}

/// The number of the rule that a setup breaks, where a board has so many rows at most: `SetupFault::rule`, but of too
/// many rows it says how many there may be.
pub fn rule_within(most: u32, fault: &SetupFault) -> u8
    ensures { result ≡ rule_within most fault.now }
{
    match fault.rule() {
        TOO_MANY_ROWS if most == MOST_ROWS => TOO_MANY_OF_LARGE,
        rule => rule,
    }
}

fn setup(options: &Options, default: &Shape) -> Result<Setup, WordsFault>
    ensures { GivesIf (are_readable plain_options options.now) (setup_of default.now options.now) result }
{
    let shape = shape(options, default)?;
    let policy = options.policy()?;
    let limit = options.wide_number("limit", 100)?;
    let mark = options.number("mark", shape.frames)?;
    Ok(Setup {
        shape,
        policy,
        limit,
        mark,
    })
}

fn shape(options: &Options, default: &Shape) -> Result<Shape, WordsFault>
    ensures { GivesIf (are_readable shape_options options.now) (shape_of default.now options.now) result }
{
    Ok(Shape {
        segments: options.number("segments", default.segments)?,
        rows: options.number("rows", default.rows)?,
        pages: options.number("pages", default.pages)?,
        shadows: options.number("shadows", default.shadows)?,
        frames: options.number("frames", default.frames)?,
        entries: options.number("entries", default.entries)?,
        reserves: default.reserves,
        sums: default.sums,
    })
}

fn area(options: &Options) -> Result<Area, WordsFault>
    ensures { GivesIf (are_readable area_options options.now) (area_of options.now) result }
{
    Ok(Area {
        branches: options.number("branches", 1)?,
        accounts: options.number("accounts", 8000)?,
        transfers: options.number("transfers", 1000)?,
    })
}
