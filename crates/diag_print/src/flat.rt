//! Texts on one line.
ghost use Rattle.std.specs.Prelude.{◌≡◌, ◌++◌, OnOk, string_bytes};
ghost use Rattle.std.specs.List.{list_any};
ghost use Rattle.diag_core.specs.Position.{is_line_feed};
ghost use Rattle.diag_print.specs.Human.{flat_text};

use std::alloc::AllocError;

/// Whether a text has a line feed.
fn has_feed(text: &str) -> bool
    ensures { result ≡ list_any is_line_feed text.now }
{
    text.as_bytes().contains(&b'\n')
}

/// Appends a text that has line feeds, with a space in place of each.
fn push_feeds(out: &mut String, text: &str) -> Result<(), AllocError>
    ensures { OnOk result (string_bytes out.new ≡ string_bytes out.old ++ flat_text text.now) }
{
    let mut rest = text;
    'lines: while let Some((line, after)) = rest.split_once('\n') {
        out.push_str(line)?;
        out.push(' ')?;
        rest = after;
    }
    out.push_str(rest)
}

/// Appends a text with a space in place of each line feed.
pub fn push_flat(out: &mut String, text: &str) -> Result<(), AllocError>
    ensures { OnOk result (string_bytes out.new ≡ string_bytes out.old ++ flat_text text.now) }
{
    if has_feed(text) {
        return push_feeds(out, text);
    }
    out.push_str(text)
}
