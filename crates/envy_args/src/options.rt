ghost use Rattle.std.specs.Prelude.{◌≡◌, ◌⊎◌, ◌==◌, codes, map, None, Some, true, false, IfOk, IfErr, MatchResult};
ghost use Rattle.std.specs.Option.{option_map, option_map_or};
ghost use Rattle.std.specs.String.{string_bytes};
ghost use Rattle.clap.specs.Words.{app_of};
ghost use Rattle.envy_args.specs.Parser.{app_of_names};
ghost use Rattle.envy_args.specs.Words.{options_in, are_known, accepted, value_of, number_of, given_number, is_path, policy_of};
ghost use Rattle.envy_args.specs.Reading.{GivesIf, has_number, are_readable, policy_options};

use crate::command::WordsFault;
use crate::values::{is_path, number, policy};
use clap::error::ErrorKind;
use clap::{Arg, ArgMatches, Command, Error};
use envy_policy::Policy;
use std::alloc::{AllocError, Global};
use std::marker::Model;

impl From<AllocError> for WordsFault {
    ghost use Rattle.std.specs.Prelude.{◌≡◌};
    ghost use Rattle.envy_args.specs.declared.command.WordsFault.TheVariants.{Memory};

    ghost from_gives = { λ error fault. fault ≡ Memory };

    fn from(_error: AllocError) -> Self {
        WordsFault::Memory
    }
}

impl From<Error> for WordsFault {
    ghost use Rattle.std.specs.Prelude.{◌≡◌};
    ghost use Rattle.clap.specs.Words.{kind_of};
    ghost use Rattle.envy_args.specs.Parser.{fault_of_kind};

    ghost from_gives = { λ error fault. fault ≡ fault_of_kind (kind_of error) };

    fn from(error: Error) -> Self {
        match error.kind() {
            ErrorKind::OutOfMemory => WordsFault::Memory,
            _ => WordsFault::Form,
        }
    }
}

/// The options that words give, with their values as text.
#[derive(Drop)]
pub(crate) struct Options<'a> {
    matches: ArgMatches<'a>,
}

impl<'a> Model for Options<'a> {
    ghost use Rattle.std.specs.Prelude.{◌≡◌, map};
    ghost use Rattle.clap.specs.Words.{found_of, rows_of};
    ghost use Rattle.envy_args.specs.Parser.{option_of, row_of};
    ghost use Rattle.envy_args.specs.Words.{Options as Given};

    ghost Value = { Given };

    ghost view = { λ options. map option_of (rows_of (found_of options.matches)) };

    ghost invariant = { λ options. rows_of (found_of options.matches) ≡ map row_of (map option_of (rows_of (found_of options.matches))) };
}

impl<'a> Options<'a> {
    /// Reads the words behind a command word whose options have these names. The fault is `Form` or
    /// `Memory`.
    pub(crate) fn read(
        alloc: Global,
        names: &'static [&'static str],
        words: &'a [String],
    ) -> Result<Options<'a>, WordsFault>
        ensures { MatchResult result
            (λ options. (options_in (map string_bytes words.now) None ≡ Some options)
            × (are_known (map (λ name. name.now) names.now) options ≡ true))
            (λ fault. (fault ≡ WordsFault.Memory) ⊎ (fault ≡ WordsFault.Form)
            × (accepted (map (λ name. name.now) names.now) (map string_bytes words.now) ≡ None)) }
    {
        let matches = parser(alloc, names)?.try_get_matches_from(words)?;
        Ok(Options { matches })
    }

    fn value(&self, name: &str) -> Option<&'a str>
        ensures { option_map (λ text. text.now) result ≡ value_of self.now name.now }
    {
        self.matches.get_str(name)
    }

    /// The number within 64 bits that an option is given, or else its default. The fault is `Form`.
    pub(crate) fn wide_number(&self, name: &str, default: u64) -> Result<u64, WordsFault>
        ensures { GivesIf (has_number 64 self.now name.now) (number_of self.now name.now default) result }
    {
        match self.value(name) {
            Some(text) => number(text).ok_or(WordsFault::Form),
            None => Ok(default),
        }
    }

    /// The number within 32 bits that an option is given, or else its default. The fault is `Form`.
    pub(crate) fn number(&self, name: &str, default: u32) -> Result<u32, WordsFault>
        ensures { GivesIf (has_number 32 self.now name.now) (number_of self.now name.now default) result }
    {
        let number = self.wide_number(name, u64::from(default))?;
        u32::try_from(number).map_err(|_| WordsFault::Form)
    }

    /// The number within 32 bits that an option is given, or none. The fault is `Form`.
    pub(crate) fn given_number(&self, name: &str) -> Result<Option<u32>, WordsFault>
        ensures { GivesIf (has_number 32 self.now name.now) (given_number self.now name.now) result }
    {
        match self.value(name) {
            Some(_) => Ok(Some(self.number(name, 0)?)),
            None => Ok(None),
        }
    }

    /// Whether an option is given 1, and not 0 or nothing. The fault is `Form`.
    pub(crate) fn flag(&self, name: &str) -> Result<bool, WordsFault>
        ensures { GivesIf (has_number 1 self.now name.now) (number_of self.now name.now 0 == 1) result }
    {
        let number = self.wide_number(name, 0)?;
        if number > 1 {
            return Err(WordsFault::Form);
        }
        Ok(number == 1)
    }

    /// The path that the option `file` is given. The fault is `Form`.
    pub(crate) fn path(&self) -> Result<&'a str, WordsFault>
        ensures given { IfOk result (λ path. value_of self.now (codes "file") ≡ Some path.now) }
        ensures path { IfOk result (λ path. is_path path.now ≡ true) }
        ensures form { IfErr result (λ fault. fault ≡ WordsFault.Form) }
        ensures none { IfErr result (λ _. option_map_or is_path (value_of self.now (codes "file")) false ≡ false) }
    {
        match self.value("file") {
            Some(path) if is_path(path) => Ok(path),
            _ => Err(WordsFault::Form),
        }
    }

    /// The policy that the options give, or else greedy. The fault is `Form`.
    pub(crate) fn policy(&self) -> Result<Policy, WordsFault>
        ensures { GivesIf (are_readable policy_options self.now) (policy_of self.now) result }
    {
        let part = self.number("part", 2)?;
        match self.value("policy") {
            Some(text) => policy(text, part).ok_or(WordsFault::Form),
            None => Ok(Policy::Greedy),
        }
    }
}

/// What reads options of these names.
fn parser<'a>(alloc: Global, names: &[&'a str]) -> Result<Command<'a>, AllocError>
    ensures { IfOk result (λ command. app_of command ≡ app_of_names (map (λ name. name.now) names.now)) }
{
    let mut parser = Command::new(alloc, "envy")
        .no_binary_name(true)
        .disable_help_flag(true);
    for name in names {
        parser = parser.arg(Arg::new(alloc, name).long(name))?;
    }
    Ok(parser)
}
