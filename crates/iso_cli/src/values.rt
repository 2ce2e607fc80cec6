// What the options of the command line give.
ghost use Rattle.std.specs.Prelude.{◌≡◌, ◌<◌, ◌^◌, false, true, IfSome, MatchOption, is_some};
ghost use Rattle.std.specs.List.{list_all};
ghost use Rattle.iso_text.specs.Digits.{decimal};
ghost use Rattle.iso_cli.specs.Options.{is_among, is_number, option_row, options, suits};
ghost use Rattle.iso_cli.specs.Options.{name as name_kind, number as number_kind, nothing as no_kind};
ghost use Rattle.iso_cli.specs.Commands.{number_of};
ghost use Rattle.iso_cli.specs.Values.{IsValues, text_in};
ghost use Rattle.iso_cli.specs.CommandLine.{texts_in};
ghost use Rattle.iso_cli.specs.JobOf.{texts_of};

use clap::ArgMatches;
use clap::parser::ValueSource;
use iso_text::Name;

// The most digits of a number.
const MAX_DIGITS: usize = 9;

// The number that one to nine digits write.
fn number(text: &str) -> Option<u64>
    ensures value { MatchOption result (is_number text.now ≡ false) (λ n. (n ≡ decimal text.now) × (is_number text.now ≡ true)) }
    ensures small { IfSome result (λ n. n < 10 ^ 9) }
{
    let digits = text.as_bytes();
    if digits.is_empty() || digits.len() > MAX_DIGITS {
        return None;
    }
    let mut number = 0;
    for byte in digits {
        if !byte.is_ascii_digit() {
            return None;
        }
        number = number * 10 + u64::from(*byte - b'0');
    }
    Some(number)
}

/// The text that the words gave, and no default.
pub(crate) fn text<'a>(found: &ArgMatches<'a>, name: &str) -> Option<&'a str>
    ensures { text_in result ≡ texts_in found.now name.now }
{
    match found.value_source(name) {
        Some(ValueSource::CommandLine) => found.get_str(name),
        Some(ValueSource::DefaultValue) => None,
        None => None,
    }
}

fn is_among(command: &str, commands: &[&str]) -> bool
    ensures { result ≡ is_among command.now (texts_of commands.now) }
{
    commands.contains(&command)
}

// The name that an option was given, if any; none of it where the option doesn't suit the command.
fn name_given(
    found: &ArgMatches<'_>,
    command: &str,
    option: &str,
    commands: &[&str],
) -> Option<Option<Name>>
    ensures { MatchOption result
        (suits command.now (texts_in found.now) (option_row name_kind option.now (texts_of commands.now)) ≡ false)
        (λ name. (name ≡ texts_in found.now option.now)
        × (suits command.now (texts_in found.now) (option_row name_kind option.now (texts_of commands.now)) ≡ true)) }
{
    match text(found, option) {
        None => Some(None),
        Some(text) if is_among(command, commands) => match Name::parse(text.as_bytes()) {
            Some(name) => Some(Some(name)),
            None => None,
        },
        Some(_) => None,
    }
}

// The number that an option was given, if any; none of it where the option doesn't suit the
// command.
fn number_given(
    found: &ArgMatches<'_>,
    command: &str,
    option: &str,
    commands: &[&str],
) -> Option<Option<u64>>
    ensures { MatchOption result
        (suits command.now (texts_in found.now) (option_row number_kind option.now (texts_of commands.now)) ≡ false)
        (λ n. (n ≡ number_of (texts_in found.now) option.now)
        × (suits command.now (texts_in found.now) (option_row number_kind option.now (texts_of commands.now)) ≡ true)) }
{
    match text(found, option) {
        None => Some(None),
        Some(text) if is_among(command, commands) => match number(text) {
            Some(n) => Some(Some(n)),
            None => None,
        },
        Some(_) => None,
    }
}

// Whether an option that stands alone was given; none of it where it doesn't suit the command.
fn flag_given(
    found: &ArgMatches<'_>,
    command: &str,
    option: &str,
    commands: &[&str],
) -> Option<bool>
    ensures { MatchOption result
        (suits command.now (texts_in found.now) (option_row no_kind option.now (texts_of commands.now)) ≡ false)
        (λ yes. (yes ≡ is_some (texts_in found.now option.now))
        × (suits command.now (texts_in found.now) (option_row no_kind option.now (texts_of commands.now)) ≡ true)) }
{
    match text(found, option) {
        None => Some(false),
        Some(_) if is_among(command, commands) => Some(true),
        Some(_) => None,
    }
}

/// What the options give.
#[derive(Clone, Copy)]
pub(crate) struct Values {
    pub(crate) irrep: Option<Name>,
    pub(crate) direction: Option<u64>,
    pub(crate) after: Option<u64>,
    pub(crate) count: Option<u64>,
    pub(crate) number: Option<u64>,
    pub(crate) tally: bool,
    pub(crate) other: Option<Name>,
}

/// What the options give to a command; none where one of them doesn't suit it.
pub(crate) fn read_values(found: &ArgMatches<'_>, command: &str) -> Option<Values>
    ensures { MatchOption result (list_all (suits command.now (texts_in found.now)) options ≡ false)
        (λ values. IsValues (texts_in found.now) values
        × (list_all (suits command.now (texts_in found.now)) options ≡ true)) }
{
    Some(Values {
        irrep: name_given(
            found,
            command,
            "irrep",
            &["list", "modes", "couple", "link"],
        )?,
        direction: number_given(found, command, "direction", &["modes"])?,
        after: number_given(found, command, "after", &["list", "couple"])?,
        count: number_given(found, command, "count", &["list", "couple"])?,
        number: number_given(found, command, "number", &["demo"])?,
        tally: flag_given(found, command, "tally", &["list"])?,
        other: name_given(found, command, "with", &["couple", "link"])?,
    })
}
