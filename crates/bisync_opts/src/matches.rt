//! What clap's matches hold.

ghost use Rattle.std.specs.Prelude.{◌≡◌, option_map};
ghost use Rattle.clap.specs.Walk.{first_of};
ghost use Rattle.bisync_opts.specs.Reading.{IsReadAs, is_set, rows_in, text_of, value};

use crate::{OptFault, OptName, UsageKind};
use clap::ArgMatches;

/// The text that was given under a name.
pub fn given<'a>(matches: &ArgMatches<'a>, name: &str) -> Option<&'a str>
    ensures { option_map (λ t. t.now) result ≡ first_of name.now (rows_in matches.now) }
{
    matches.get_str(name)
}

/// The text that was given under a name, or its default.
pub fn text_of<'a>(matches: &ArgMatches<'a>, name: &str, default: &'a str) -> &'a str
    ensures { result.now ≡ text_of (rows_in matches.now) name.now default.now }
{
    given(matches, name).unwrap_or(default)
}

/// Whether a flag was given. clap keeps `true` or `false` for it.
pub fn is_set(matches: &ArgMatches<'_>, name: &str) -> bool
    ensures { result ≡ is_set (rows_in matches.now) name.now }
{
    text_of(matches, name, "false") == "true"
}

/// The value of an option's text, or the refusal of the option.
pub fn value<T>(name: OptName, read: Option<T>) -> Result<T, OptFault>
    ensures { IsReadAs (value name read) result }
{
    match read {
        Some(x) => Ok(x),
        None => Err(OptFault::Usage(UsageKind::Value(name))),
    }
}
