//! The metadata of the sample.
//! Called by `put_texts` of `tree`; each byte is in a clause.
ghost use Rattle.std.specs.Prelude.{◌≡◌, ◌≤◌, ◌<◌, ◌+◌, ◌*◌, ◌++◌, string_bytes, IfOk, OnOk};
ghost use Rattle.std.specs.List.{flat_map};
ghost use Rattle.run_sample.specs.Metadata.{comma_before, edge_text, license_text, node_text, numbers};
ghost use Rattle.run_sample.specs.Metadata.{package_head, package_tail, package_text, sample_metadata};

use std::alloc::{AllocError, Global};
use std::fmt::Write;

/// The field `license` of a crate, as JSON.
fn license_text(remainder: u32) -> &'static str
    ensures { result.now ≡ license_text remainder }
{
    match remainder {
        0 => "\"MIT\"",
        1 => "\"MIT OR Apache-2.0\"",
        2 => "\"GPL-3.0-only\"",
        _ => "null",
    }
}

/// A comma, but in front of the first.
fn comma_before(crate_number: u32) -> &'static str
    ensures { result.now ≡ comma_before crate_number }
{
    if crate_number == 0 { "" } else { "," }
}

/// Appends the name, the version and the id of a crate.
fn push_head(out: &mut String, i: u32) -> Result<(), AllocError>
    ensures { OnOk result (string_bytes out.new ≡ string_bytes out.old ++ package_head i) }
{
    let comma = comma_before(i);
    write!(
        out,
        "{comma}{{\"name\":\"c{i}\",\"version\":\"1.0.{i}\",\"id\":\"c{i}\","
    )
}

/// Appends the manifest and the field of a crate.
fn push_tail(out: &mut String, i: u32, license: &str) -> Result<(), AllocError>
    ensures { OnOk result (string_bytes out.new ≡ string_bytes out.old ++ package_tail i license.now) }
{
    write!(
        out,
        "\"manifest_path\":\"/s/c{i}/Cargo.toml\",\"license\":{license}}}"
    )
}

/// Appends a crate.
fn push_package(out: &mut String, i: u32) -> Result<(), AllocError>
    ensures { OnOk result (string_bytes out.new ≡ string_bytes out.old ++ package_text i) }
{
    push_head(out, i)?;
    push_tail(out, i, license_text(i % 4))
}

/// Appends an edge to a crate, behind a text, where there is such a crate.
fn push_edge(out: &mut String, count: u32, before: &str, to: u64) -> Result<(), AllocError>
    ensures { OnOk result (string_bytes out.new ≡ string_bytes out.old ++ edge_text count before.now to) }
{
    if count as u64 <= to {
        return Ok(());
    }
    write!(out, "{before}{{\"pkg\":\"c{to}\"}}")
}

/// Appends the edges of a crate.
fn push_node(out: &mut String, count: u32, i: u32) -> Result<(), AllocError>
    ensures { OnOk result (string_bytes out.new ≡ string_bytes out.old ++ node_text count i) }
{
    let comma = comma_before(i);
    write!(out, "{comma}{{\"id\":\"c{i}\",\"deps\":[")?;
    let twice = 2 * (i as u64);
    push_edge(out, count, "", twice + 1)?;
    push_edge(out, count, ",", twice + 2)?;
    out.push_str("]}")
}

/// Appends all crates.
fn push_packages(out: &mut String, count: u32) -> Result<(), AllocError>
    ensures { OnOk result
        (string_bytes out.new ≡ string_bytes out.old ++ flat_map package_text (numbers count)) }
{
    'crates: for i in 0..count {
        push_package(out, i)?;
    }
    Ok(())
}

/// Appends the edges of all crates.
fn push_nodes(out: &mut String, count: u32) -> Result<(), AllocError>
    ensures { OnOk result
        (string_bytes out.new ≡ string_bytes out.old ++ flat_map (node_text count) (numbers count)) }
{
    'crates: for i in 0..count {
        push_node(out, count, i)?;
    }
    Ok(())
}

/// The metadata of so many crates.
pub(crate) fn sample_metadata(alloc: Global, count: u32) -> Result<String, AllocError>
    ensures { IfOk result (λ text. string_bytes text ≡ sample_metadata count) }
{
    let mut out = String::new(alloc);
    out.push_str("{\"packages\":[")?;
    push_packages(&mut out, count)?;
    out.push_str(
        "],\"workspace_members\":[\"c0\"],\"workspace_root\":\"/s\",\"resolve\":{\"root\":\"c0\",\"nodes\":[",
    )?;
    push_nodes(&mut out, count)?;
    out.push_str("]}}")?;
    Ok(out)
}
