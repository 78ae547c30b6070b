//! What an expression was retrieved via, in words.
//! Called by `whole_label` of `label`; room for the paths may be taken first, the words are in a clause.
ghost use Rattle.std.specs.Prelude.{◌≡◌, ◌++◌, IfOk, OnOk, string_bytes, codes};
ghost use Rattle.check_core.specs.findings.Sources as spec;
ghost use Rattle.check_core.specs.findings.Sources.{with_commas};

use deny_text::Text;
use gather_core::findings::LicenseExprSource;
use std::alloc::{AllocError, Global};

/// Appends texts with a comma and a blank between.
pub fn push_with_commas(out: &mut String, texts: &[Text]) -> Result<(), AllocError>
    ensures { OnOk result (string_bytes out.new ≡ string_bytes out.old ++ with_commas texts.now) }
{
    let Some((first, rest)) = texts.split_first() else {
        return Ok(());
    };
    out.push_str(first.as_str())?;
    'rest: for text in rest {
        out.push_str(", ")?;
        out.push_str(text.as_str())?;
    }
    Ok(())
}

fn files_text(alloc: Global, paths: &[Text]) -> Result<Text, AllocError>
    ensures { IfOk result (λ text. text ≡ codes "license files: " ++ with_commas paths.now) }
{
    let mut text = String::from_str(alloc, "license files: ")?;
    push_with_commas(&mut text, paths)?;
    Ok(Text::from(text))
}

/// What an expression was retrieved via: the manifest's field, the policy, its exceptions file, or the licence
/// files by their paths.
pub fn source_text(alloc: Global, source: &LicenseExprSource) -> Result<Text, AllocError>
    ensures { IfOk result (λ text. text ≡ spec.source_text source.now) }
{
    match source {
        LicenseExprSource::Metadata(_) => Text::copy(alloc, "Cargo.toml `license`"),
        LicenseExprSource::UserOverride => Text::copy(alloc, "user override"),
        LicenseExprSource::OverlayOverride => Text::copy(alloc, "overlay override"),
        LicenseExprSource::LicenseFiles(paths) => files_text(alloc, paths.items()),
    }
}
