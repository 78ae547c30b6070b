//! How many findings there are of each level.
ghost use Rattle.std.specs.Prelude.{◌≡◌, ◌≤◌, if◌then◌else◌};
ghost use Rattle.diag_stats.specs.Counts.{count_at, count_in};
ghost use Rattle.diag_stats.specs.ExitCode.{exit_code_of, has_failed};

use diag_core::{Pack, Severity};

/// How many findings there are of each severity; by default none.
#[derive(Clone, Copy, Debug, Default, PartialEq, Eq)]
pub struct Stats {
    pub errors: u64,
    pub warnings: u64,
    pub notes: u64,
    pub helps: u64,
}

/// The statistics of each check that ran; by default none did.
#[derive(Clone, Copy, Debug, Default, PartialEq, Eq)]
pub struct AllStats {
    pub advisories: Option<Stats>,
    pub bans: Option<Stats>,
    pub licenses: Option<Stats>,
    pub sources: Option<Stats>,
}

/// How many findings of a pack are of this severity.
fn count_in(pack: &Pack, severity: Severity) -> u64
    ensures { result ≡ count_in severity pack.now }
{
    let count = pack
        .iter()
        .filter(|finding| finding.diag.severity == severity)
        .count();
    count as u64
}

/// How many findings of packs are of this severity, or as many as can be reported.
fn count_at(packs: &[Pack], severity: Severity) -> u64
    ensures { result ≡ count_at packs.now severity }
{
    let mut count: u64 = 0;
    'packs: for pack in packs {
        count = count.saturating_add(count_in(pack, severity));
    }
    count
}

impl AllStats {
    ghost use Rattle.diag_stats.specs.Counts.{counts_of};
    ghost use Rattle.diag_stats.specs.ExitCode.{has_errors};

    /// Counts the findings of the check of licences.
    pub fn of_findings(packs: &[Pack]) -> AllStats
        ensures { result ≡ counts_of packs.now }
    {
        AllStats {
            advisories: None,
            bans: None,
            licenses: Some(Stats {
                errors: count_at(packs, Severity::Error),
                warnings: count_at(packs, Severity::Warning),
                notes: count_at(packs, Severity::Note),
                helps: count_at(packs, Severity::Help),
            }),
            sources: None,
        }
    }

    /// Whether the check of licences has errors.
    pub fn has_errors(&self) -> bool
        ensures { result ≡ has_errors self.now }
    {
        match &self.licenses {
            Some(stats) => stats.errors > 0,
            None => false,
        }
    }
}

/// The number where a check ran and has errors, else 0.
fn bit_of(stats: Option<Stats>, bit: u8) -> u8
    ensures value { result ≡ (if has_failed stats then bit else 0) }
    ensures most { result ≤ bit }
{
    match stats {
        Some(stats) if stats.errors > 0 => bit,
        _ => 0,
    }
}

/// The exit code: bits 0 to 3 for errors of advisories, bans, licenses and sources; none where no check has
/// errors.
pub fn stats_to_exit_code(stats: &AllStats) -> Option<i32>
    ensures { result ≡ exit_code_of stats.now }
{
    let bits = bit_of(stats.advisories, 1)
        + bit_of(stats.bans, 2)
        + bit_of(stats.licenses, 4)
        + bit_of(stats.sources, 8);
    if bits == 0 {
        None
    } else {
        Some(i32::from(bits))
    }
}
