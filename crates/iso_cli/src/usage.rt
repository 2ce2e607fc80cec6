// The line that says how the program is used.
ghost use Rattle.std.specs.Prelude.{◌≡◌};
ghost use Rattle.iso_cli.specs.UsageLine.{usage_line};

const USAGE: &str =
    "isodist: usage: isodist check|list|modes|amps|demo|couple|link|occ|axial|occ-amps|axial-amps|apart [--irrep NAME] [--direction N] [--after N] [--count N] [--tally] [--number N] [--with NAME]\n";

/// The usage line, with its line feed.
pub(crate) fn usage_line() -> &'static str
    ensures { result.now ≡ usage_line }
{
    USAGE
}
