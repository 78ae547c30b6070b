//! The overrides that words ask for.
//! Called by `crates_found` of `run_command`; `overrides_of` leaves the order of level pairs free.
ghost use Rattle.std.specs.Prelude.{◌≡◌, ◌++◌, [], ◌∷◌, None, IfErr, IfOk, OnOk};
ghost use Rattle.std.specs.FinMap.{get, insert};
ghost use Rattle.diag_core.specs.Code.{code_name};
ghost use Rattle.run_request.specs.Names.{severity_of_level};
ghost use Rattle.run_overrides.specs.Levels.{PutAtLevels};
ghost use Rattle.run_overrides.specs.Overrides.{AreAsked, IsFirstTold, StandOnce};
ghost use Rattle.run_overrides.specs.Put.{AreSet, IsAgain, IsTold, output_of, pair_of, set_before, with_item};
ghost use Rattle.run_overrides.specs.Twice.{first_twice, level_name, name_of, twice_behind};

use crate::error::OverrideError;
use crate::items::{LevelItem, items_of};
use deny_text::Text;
use diag_core::{CodeMap, DiagnosticCode, DiagnosticOverrides, LevelPair, LevelPairs, Severity};
use run_request::{CodeOrLevel, Level, LintLevels};
use std::alloc::{AllocError, Global};

/// The name of a level, as words have it.
fn level_name(level: Level) -> &'static str
    ensures { result.now ≡ level_name level }
{
    match level {
        Level::Allowed => "allowed",
        Level::Warnings => "warnings",
        Level::Denied => "denied",
    }
}

/// The refusal of what is there twice.
fn said_twice(alloc: Global, name: &str, first: Severity, second: Severity) -> OverrideError
    ensures { IsAgain first name.now second result }
{
    match Text::copy(alloc, name) {
        Ok(name) => OverrideError::OverrideTwice {
            name,
            first,
            second,
        },
        Err(AllocError) => OverrideError::Memory,
    }
}

/// Sets the severity of a code. It is refused where that was set before.
fn put_code(
    alloc: Global,
    codes: &mut CodeMap,
    code: DiagnosticCode,
    severity: Severity,
) -> Result<(), OverrideError>
    ensures first { OnOk result (get codes.old (code_name code) ≡ None) }
    ensures ok { OnOk result (codes.new ≡ insert codes.old (code_name code) severity) }
    ensures err { IfErr result (IsTold (get codes.old (code_name code)) (code_name code) severity) }
{
    match codes.get(code.as_str()).copied() {
        Some(first) => Err(said_twice(alloc, code.as_str(), first, severity)),
        None => {
            let name = Text::copy(alloc, code.as_str())?;
            codes.insert(name, severity)?;
            Ok(())
        }
    }
}

/// The output of the first pair with that input.
fn output_of(pairs: &[LevelPair], input: Severity) -> Option<Severity>
    ensures { result ≡ output_of pairs.now input }
{
    'pairs: for pair in pairs {
        if pair.input == input {
            return Some(pair.output);
        }
    }
    None
}

/// Sets the severity of the findings of a level. It is refused where that was set before.
fn put_level(
    alloc: Global,
    pairs: &mut LevelPairs,
    level: Level,
    output: Severity,
) -> Result<(), OverrideError>
    ensures first { OnOk result (output_of pairs.old (severity_of_level level) ≡ None) }
    ensures ok { OnOk result (pairs.new ≡ pairs.old ++ pair_of level output ∷ []) }
    ensures err { IfErr result (IsTold (output_of pairs.old (severity_of_level level)) (level_name level) output) }
{
    let input = Severity::from(level);
    match output_of(pairs.items(), input) {
        Some(first) => Err(said_twice(alloc, level_name(level), first, output)),
        None => {
            pairs.push(LevelPair { input, output })?;
            Ok(())
        }
    }
}

/// Sets the severity of a code or a level. It is refused where that was set before.
fn put(
    alloc: Global,
    overrides: &mut DiagnosticOverrides,
    item: LevelItem,
) -> Result<(), OverrideError>
    ensures first { OnOk result (set_before overrides.old item.subject ≡ None) }
    ensures ok { OnOk result (overrides.new ≡ with_item overrides.old item) }
    ensures err { IfErr result
        (IsTold (set_before overrides.old item.subject) (name_of item.subject) item.severity) }
{
    match item.subject {
        CodeOrLevel::Code(code) => {
            put_code(alloc, &mut overrides.code_overrides, code, item.severity)
        }
        CodeOrLevel::Level(level) => {
            put_level(alloc, &mut overrides.level_overrides, level, item.severity)
        }
    }
}

/// The overrides that some codes and levels are set to, of which none may be twice.
fn overrides_by(alloc: Global, items: &[LevelItem]) -> Result<DiagnosticOverrides, OverrideError>
    ensures ok { IfOk result (AreSet items.now) }
    ensures once { OnOk result (twice_behind [] items.now ≡ None) }
    ensures err { IfErr result (IsFirstTold (twice_behind [] items.now)) }
{
    let mut overrides = DiagnosticOverrides {
        code_overrides: CodeMap::new(alloc),
        level_overrides: LevelPairs::new(alloc),
    };
    'items: for item in items {
        put(alloc, &mut overrides, *item)?;
    }
    Ok(overrides)
}

/// The overrides that words ask for. A finding with a code comes out at what its code is set to, or else at
/// its own level, and then, once, at what that level is set to.
///
/// It is refused where a code or a level is there twice, also where both set it to the same, and for want of
/// memory.
pub fn overrides_of(
    alloc: Global,
    levels: &LintLevels,
) -> Result<DiagnosticOverrides, OverrideError>
    ensures level { IfOk result (AreAsked levels.now) }
    ensures packs { IfOk result (PutAtLevels levels.now) }
    ensures once { IfOk result StandOnce }
    // The refusal comes exactly where a code or a level is there twice, and tells the first that does.
    ensures taken { OnOk result (first_twice levels.now ≡ None) }
    ensures twice { IfErr result (IsFirstTold (first_twice levels.now)) }
{
    let items = items_of(alloc, levels)?;
    overrides_by(alloc, items.items())
}
