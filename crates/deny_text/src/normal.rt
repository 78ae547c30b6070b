//! Texts with one LF at the end of each line.
ghost use Rattle.std.specs.Prelude.{◌≡◌, ◌<◌, ◌∷◌, ◌++◌, length, IfOk};
ghost use Rattle.deny_text.specs.Normal.{line_body, line_feed, normal_of, NormalIsNormal};
ghost use Rattle.deny_text.specs.Normal.{NormalIgnoresReturns};

use crate::text::Text;
use std::alloc::{AllocError, Global};

/// The line without the CR and LF at its end.
fn without_end(line: &str) -> &str
    ensures { result.now ≡ line_body line.now }
{
    let mut body = line;
    'ends: loop {
        if let Some(front) = body.strip_suffix('\r') {
            body = front;
        } else if let Some(front) = body.strip_suffix('\n') {
            body = front;
        } else {
            return body;
        }
    }
}

/// The first line without its LF, and what follows.
fn first_line(text: &str) -> (&str, &str)
    requires { 0 < length text.now }
    ensures lines { normal_of text.now ≡ line_body result.0.now ++ line_feed ∷ normal_of result.1.now }
    ensures shorter { length result.1.now < length text.now }
{
    match text.split_once('\n') {
        Some((line, rest)) => (line, rest),
        None => (text, ""),
    }
}

/// The text with the CR and LF at the end of each line replaced by one LF, the last line too. An empty text
/// stays empty.
pub fn normalize(alloc: Global, text: &str) -> Result<Text, AllocError>
    ensures { IfOk result (λ normal. normal ≡ normal_of text.now) }
{
    let mut normal = String::with_capacity(alloc, text.len() + 1)?;
    let mut rest = text;
    'lines: while !rest.is_empty() {
        let (line, after) = first_line(rest);
        normal.push_str(without_end(line))?;
        normal.push('\n')?;
        rest = after;
    }
    Ok(Text::from(normal))
}

/// The normal form of a normal form is itself.
pub fn normal_is_normal()
    ensures { NormalIsNormal }
{}

/// Turning each LF of a text into CR LF leaves its normal form as it was.
pub fn normal_ignores_returns()
    ensures { NormalIgnoresReturns }
{}
