//! What words say of codes and levels, one after another.
//! Called by `overrides_of`; room may be taken first, but allowed, warned of, denied is in a clause.
ghost use Rattle.std.specs.Prelude.{◌≡◌, ◌++◌, map, IfOk, OnOk};
ghost use Rattle.run_overrides.specs.Items.{items_of, set_to};

use deny_text::ListOf;
use diag_core::Severity;
use run_request::{CodeOrLevel, LintLevels};
use std::alloc::{AllocError, Global};

/// A code or a level, and the severity that its findings are set to.
#[derive(Clone, Copy, Debug, PartialEq, Eq)]
pub struct LevelItem {
    pub subject: CodeOrLevel,
    pub severity: Severity,
}

/// Codes and levels with their severities, in order.
pub type LevelItems = ListOf<LevelItem>;

/// Appends codes and levels, all set to one severity.
fn push_all(
    items: &mut LevelItems,
    subjects: &[CodeOrLevel],
    severity: Severity,
) -> Result<(), AllocError>
    ensures { OnOk result (items.new ≡ items.old ++ map (set_to severity) subjects.now) }
{
    'subjects: for subject in subjects {
        items.push(LevelItem {
            subject: *subject,
            severity,
        })?;
    }
    Ok(())
}

/// What words say of codes and levels: first what is allowed, then what is warned of, then what is denied.
pub fn items_of(alloc: Global, levels: &LintLevels) -> Result<LevelItems, AllocError>
    ensures { IfOk result (λ items. items ≡ items_of levels.now) }
{
    let mut items = LevelItems::new(alloc);
    push_all(&mut items, levels.allow.items(), Severity::Note)?;
    push_all(&mut items, levels.warn.items(), Severity::Warning)?;
    push_all(&mut items, levels.deny.items(), Severity::Error)?;
    Ok(items)
}
