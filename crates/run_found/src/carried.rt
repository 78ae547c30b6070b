//! What of a request is not carried.
//! Called by `unsupported_in` of `run_command` and of `run_check`; a `matches!` may replace the `match`.
ghost use Rattle.std.specs.Prelude.{◌≡◌};
ghost use Rattle.run_found.specs.Carried as spec;

use diag_print::Format;

/// Whether findings are asked for in SARIF, which nothing prints.
pub fn is_sarif(format: Format) -> bool
    ensures { result ≡ spec.is_sarif format }
{
    match format {
        Format::Sarif => true,
        Format::Human | Format::Json => false,
    }
}
