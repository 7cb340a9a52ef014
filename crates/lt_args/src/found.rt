//! What clap found in the words.

ghost use Rattle.std.specs.Prelude.{◌≡◌, codes, option_map};
ghost use Rattle.clap.specs.Words.{first_of, found_of, rows_of};
ghost use Rattle.lt_args.specs.Settings.{most_decimals, most_seed};
ghost use Rattle.lt_args.specs.Words.{flag_at, number_at, word_at};
ghost use Rattle.lt_args.specs.inner.Fitting.{Fits};

use clap::ArgMatches;

// The word of an argument that has to be there.
pub(crate) fn word_in<'a>(found: &ArgMatches<'a>, name: &str) -> &'a str
    ensures { result.now ≡ word_at name.now (rows_of (found_of found.now)) }
{
    option_in(found, name).unwrap_or("")
}

// The word of an option, where it was given.
pub(crate) fn option_in<'a>(found: &ArgMatches<'a>, name: &str) -> Option<&'a str>
    ensures { option_map (λ s. s.now) result ≡ first_of name.now (rows_of (found_of found.now)) }
{
    found.get_str(name)
}

// The number of an option, where it was given.
pub(crate) fn number_in(found: &ArgMatches<'_>, name: &str) -> Option<u64>
    requires { Fits name.now 0 most_seed (rows_of (found_of found.now)) }
    ensures { result ≡ number_at name.now (rows_of (found_of found.now)) }
{
    found.get_one::<u64>(name)
}

// The number of decimals, where it was given.
pub(crate) fn decimals_in(found: &ArgMatches<'_>) -> Option<u32>
    requires { Fits (codes "precision") 0 most_decimals (rows_of (found_of found.now)) }
    ensures { result ≡ number_at (codes "precision") (rows_of (found_of found.now)) }
{
    u32::try_from(number_in(found, "precision")?).ok()
}

// Whether a flag was given.
pub(crate) fn is_given(found: &ArgMatches<'_>, name: &str) -> bool
    ensures { result ≡ flag_at name.now (rows_of (found_of found.now)) }
{
    found.get_one::<bool>(name).unwrap_or(false)
}
