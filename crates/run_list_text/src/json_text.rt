//! A listing for a program.
//! Called by `write_json` of `listing`; how its tokens are made may change, clauses have values.
ghost use Rattle.std.specs.Prelude.{◌≡◌, All, IfOk, OnOk, map};
ghost use Rattle.serde_json.specs.Data.{array};
ghost use Rattle.serde_json.specs.View.{items_of};
ghost use Rattle.diag_print.specs.JsonTokens.{Adds, data_tokens};
ghost use Rattle.graph_core.specs.Metadata.{AreRising};
ghost use Rattle.run_list_text.specs.Grouped.{entry_data, entry_of};
ghost use Rattle.run_list_text.specs.Listing.{crate_data, data_by_crate, data_by_license, data_of, json_text};
ghost use Rattle.run_list_text.specs.Listing.{texts_data};

use crate::grouped::{LicenseNames, names_by_license};
use crate::listed::{ListedCrate, names_without};
use deny_text::Text;
use json::Writer;
use run_request::Layout;
use std::alloc::{AllocError, Global};

/// The texts in order.
fn write_texts(out: &mut Writer, texts: &[Text]) -> Result<(), AllocError>
    ensures { OnOk result (Adds out.old out.new (data_tokens (texts_data texts.now))) }
{
    out.begin_array()?;
    'texts: for text in texts {
        out.string(text.as_str())?;
    }
    out.end_array()
}

/// A crate and its licences.
fn write_crate(out: &mut Writer, listed: &ListedCrate) -> Result<(), AllocError>
    ensures { OnOk result (Adds out.old out.new (data_tokens (crate_data listed.now))) }
{
    out.begin_object()?;
    out.key("crate")?;
    out.string(listed.name.as_str())?;
    out.key("licenses")?;
    write_texts(out, listed.licenses.items())?;
    out.end_object()
}

/// All crates and their licences.
fn write_by_crate(out: &mut Writer, crates: &[ListedCrate]) -> Result<(), AllocError>
    ensures { OnOk result (Adds out.old out.new (data_tokens (data_by_crate crates.now))) }
{
    out.begin_array()?;
    'crates: for listed in crates {
        write_crate(out, listed)?;
    }
    out.end_array()
}

/// A licence and the crates that have it.
fn write_license(out: &mut Writer, group: &LicenseNames) -> Result<(), AllocError>
    ensures { OnOk result (Adds out.old out.new (data_tokens (entry_data (entry_of group.now)))) }
{
    out.begin_array()?;
    out.string(group.license.as_str())?;
    write_texts(out, group.names.items())?;
    out.end_array()
}

/// Licences and the crates that have them.
fn write_licenses(out: &mut Writer, groups: &[LicenseNames]) -> Result<(), AllocError>
    ensures { let licenses = items_of (map (λ group. entry_data (entry_of group)) groups.now) in
        OnOk result (Adds out.old out.new (data_tokens (array licenses))) }
{
    out.begin_array()?;
    'groups: for group in groups {
        write_license(out, group)?;
    }
    out.end_array()
}

/// All licences and the crates that have them, and the crates without one.
fn write_by_license(
    alloc: Global,
    out: &mut Writer,
    crates: &[ListedCrate],
) -> Result<(), AllocError>
    requires { All (λ listed. AreRising listed.licenses) crates.now }
    ensures { OnOk result (Adds out.old out.new (data_tokens (data_by_license crates.now))) }
{
    let groups = names_by_license(alloc, crates)?;
    let names = names_without(alloc, crates)?;
    out.begin_object()?;
    out.key("licenses")?;
    write_licenses(out, groups.items())?;
    out.key("unlicensed")?;
    write_texts(out, names.items())?;
    out.end_object()
}

/// The whole value in a layout.
fn write_value(
    alloc: Global,
    out: &mut Writer,
    crates: &[ListedCrate],
    layout: Layout,
) -> Result<(), AllocError>
    requires { All (λ listed. AreRising listed.licenses) crates.now }
    ensures { OnOk result (Adds out.old out.new (data_tokens (data_of layout crates.now))) }
{
    match layout {
        Layout::Crate => write_by_crate(out, crates),
        Layout::License => write_by_license(alloc, out, crates),
    }
}

/// The text of the value, and a line feed.
pub(crate) fn json_text(
    alloc: Global,
    crates: &[ListedCrate],
    layout: Layout,
) -> Result<Vec<u8>, AllocError>
    requires { All (λ listed. AreRising listed.licenses) crates.now }
    ensures { IfOk result (λ text. text.items ≡ json_text (data_of layout crates.now)) }
{
    let mut writer = Writer::new(Vec::new(alloc));
    write_value(alloc, &mut writer, crates, layout)?;
    let mut text = writer.into_inner();
    text.push(b'\n')?;
    Ok(text)
}
