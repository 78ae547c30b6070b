//! The pack of a crate.
//! Called by `skip` and `tell` of `crate_check`; gathered findings may be moved at once, their order stays.
ghost use Rattle.std.specs.Prelude.{◌≡◌, ◌++◌, ◌∷◌, [], IfOk, OnOk, map};
ghost use Rattle.graph_core.specs.Krate.{record_of};
ghost use Rattle.diag_core.specs.Pack.{with_crate};
ghost use Rattle.check_core.specs.findings.Findings as spec;

use deny_text::Text;
use diag_core::{Check, Diag, Pack};
use gather_core::findings::Diags;
use graph_core::Krate;
use std::alloc::{AllocError, Global};

/// Moves findings behind those of a pack.
fn push_all(pack: &mut Pack, findings: Diags) -> Result<(), AllocError>
    ensures { OnOk result (pack.new ≡ record pack.old {
      findings = pack.old.findings ++ map (with_crate pack.old.kid) findings;
    }) }
{
    'findings: for finding in findings.into_vec() {
        pack.push(finding)?;
    }
    Ok(())
}

/// The findings of a crate: what was gathered, and then the verdict.
pub fn pack_of(
    alloc: Global,
    krate: &Krate,
    gathered: Diags,
    verdict: Diag,
) -> Result<Pack, AllocError>
    ensures { IfOk result (λ pack.
        pack ≡ spec.pack_of (record_of krate.now) (gathered ++ verdict ∷ [])) }
{
    let kid = Text::copy(alloc, krate.id.as_str())?;
    let mut pack = Pack::with_kid(alloc, Check::Licenses, kid);
    push_all(&mut pack, gathered)?;
    pack.push(verdict)?;
    Ok(pack)
}
