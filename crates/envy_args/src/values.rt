ghost use Rattle.std.specs.Prelude.{◌≡◌, ◌+◌, IsTrue};
ghost use Rattle.std.specs.Option.{SomeIff};
ghost use Rattle.std.specs.Str.Parse.{digits_value};
ghost use Rattle.envy_args.specs.Words.{is_number, is_path, policy_named};

use envy_policy::Policy;

/// Reads one decimal digit or more, of a value within 64 bits. Leading zeros make no difference, and a
/// sign is none of the digits.
pub(crate) fn number(text: &str) -> Option<u64>
    ensures { SomeIff result (IsTrue (is_number 64 text.now)) (digits_value 10 text.now) }
{
    let has_digits_only = text.as_bytes().iter().all(|byte| byte.is_ascii_digit());
    if has_digits_only {
        text.parse().ok()
    } else {
        None
    }
}

/// The policy of this name. Hybrid has partitions of `part` positions.
pub(crate) fn policy(name: &str, part: u32) -> Option<Policy>
    ensures { result ≡ policy_named part name.now }
{
    match name {
        "greedy" => Some(Policy::Greedy),
        "fifo" => Some(Policy::Fifo),
        "locality" => Some(Policy::Locality),
        "hybrid" => Some(Policy::Hybrid(part)),
        "lifetime" => Some(Policy::Lifetime),
        _ => None,
    }
}

/// Whether the text is a path: it isn't empty, and doesn't begin with `-`.
pub(crate) fn is_path(text: &str) -> bool
    ensures { result ≡ is_path text.now }
{
    let bytes = text.as_bytes();
    !bytes.is_empty() && bytes[0] != b'-'
}
