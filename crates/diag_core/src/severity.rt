//! Levels: of findings and of what is printed.
ghost use Rattle.std.specs.Prelude.{◌≡◌};
ghost use Rattle.diag_core.specs.Severity.{severity_of_filter};
ghost use Rattle.diag_core.specs.Orders.{SeveritiesRise};

/// How grave a finding is, the mildest first.
#[derive(Clone, Copy, Debug, PartialEq, Eq, PartialOrd, Ord)]
pub enum Severity {
    Help,
    Note,
    Warning,
    Error,
    Bug,
}

/// How much is printed.
#[derive(Clone, Copy, Debug, PartialEq, Eq)]
pub enum LevelFilter {
    Off,
    Error,
    Warn,
    Info,
    Debug,
    Trace,
}

/// The least severity that is printed at this level; none where nothing is.
pub fn log_level_to_severity(level: LevelFilter) -> Option<Severity>
    ensures { result ≡ severity_of_filter level }
{
    match level {
        LevelFilter::Off => None,
        LevelFilter::Error => Some(Severity::Error),
        LevelFilter::Warn => Some(Severity::Warning),
        LevelFilter::Info => Some(Severity::Note),
        LevelFilter::Debug | LevelFilter::Trace => Some(Severity::Help),
    }
}

/// The levels are ordered from the mildest to the gravest.
pub fn severities_rise()
    ensures { SeveritiesRise }
{}
