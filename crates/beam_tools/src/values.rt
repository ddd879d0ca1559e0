//! The values of arguments.
ghost use Rattle.std.specs.Prelude.{◌≡◌, map, option_and_then, option_map};
ghost use Rattle.clap.specs.Words.{all_of, found_of, one_of, rows_of};
ghost use Rattle.beam_tools.specs.Options.{count_of, number_of, port_of};

use clap::ArgMatches;

/// All values of an argument. `None` where it has none.
pub fn texts_of<'b, 'a>(matches: &'b ArgMatches<'a>, id: &str) -> Option<&'b [&'a str]>
    ensures { option_map (λ s. map (λ v. v.now) s.now) result ≡ all_of id.now (rows_of (found_of matches.now)) }
{
    matches.get_strs(id)
}

/// The first value of an argument, as a number. `None` where it has none, or one that writes no number of 32 bits.
pub fn number_of(matches: &ArgMatches<'_>, id: &str) -> Option<u32>
    ensures { result ≡ option_and_then number_of (one_of id.now (rows_of (found_of matches.now))) }
{
    matches.get_one::<u32>(id)
}

/// The first value of an argument, as a port. `None` where it has none, or one that writes no number of 16 bits.
pub fn port_of(matches: &ArgMatches<'_>, id: &str) -> Option<u16>
    ensures { result ≡ option_and_then port_of (one_of id.now (rows_of (found_of matches.now))) }
{
    matches.get_one::<u16>(id)
}

/// The first value of an argument, as a count. `None` where it has none, or one that writes no number of 8 bits.
pub fn count_of(matches: &ArgMatches<'_>, id: &str) -> Option<u8>
    ensures { result ≡ option_and_then count_of (one_of id.now (rows_of (found_of matches.now))) }
{
    matches.get_one::<u8>(id)
}
