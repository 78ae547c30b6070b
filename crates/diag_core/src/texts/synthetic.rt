//! A text that is written in place of a manifest, with the places of what a finding points at.
ghost use Rattle.std.specs.Prelude.{◌≡◌, All, IfOk, OnOk, OnErr};
ghost use Rattle.diag_core.specs.texts.Pieces.{bit_of};
ghost use Rattle.deny_text.specs.Spans.{LiesBetween};
ghost use Rattle.deny_text.specs.Fronts.{StandsInFront};
ghost use Rattle.diag_core.specs.texts.Synthetic.{PlacesAlwaysCutOut, nothing_kept, with_piece};

use deny_text::{Span, Text};
use std::alloc::{AllocError, Global};
use std::marker::Model;

/// A piece of a text: written as it is, or with its place kept.
#[derive(Clone, Copy)]
pub enum TextPiece<'a> {
    Plain(&'a str),
    Marked(&'a str),
}

/// A text that only grows, with the places of the pieces that were marked, in order.
#[derive(Drop)]
pub struct Synthetic {
    text: String,
    spans: Vec<Span>,
}

impl Model for Synthetic {
    ghost use Rattle.std.specs.Prelude.{All, string_bytes};
    ghost use Rattle.deny_text.specs.Spans.{LiesBetween};
    ghost use Rattle.diag_core.specs.texts.Synthetic.{PlacedText};

    ghost Value = { PlacedText };

    ghost view = { λ s. record { text = string_bytes s.text; spans = s.spans.items } };

    ghost invariant = { λ s. All (LiesBetween (string_bytes s.text)) s.spans.items };
}

impl Synthetic {
    /// The empty text. It takes no memory.
    pub fn new(alloc: Global) -> Synthetic
        ensures { result ≡ nothing_kept }
    {
        Synthetic {
            text: String::new(alloc),
            spans: Vec::new(alloc),
        }
    }

    /// The empty text, with room for so many bytes.
    pub fn with_room(alloc: Global, room: usize) -> Result<Synthetic, AllocError>
        ensures { IfOk result (λ synthetic. synthetic ≡ nothing_kept) }
    {
        Ok(Synthetic {
            text: String::with_capacity(alloc, room)?,
            spans: Vec::new(alloc),
        })
    }

    /// Appends a piece. Where memory is wanted nothing is appended.
    pub fn write(&mut self, piece: TextPiece<'_>) -> Result<(), AllocError>
        ensures ok { OnOk result (self.new ≡ with_piece self.old (bit_of piece.entry)) }
        ensures err { OnErr result (self.new ≡ self.old) }
        ensures text { StandsInFront self.old.text self.new.text }
        ensures places { StandsInFront self.old.spans self.new.spans }
    {
        match piece {
            TextPiece::Plain(text) => {
                self.text.push_str(text)?;
                Ok(())
            }
            TextPiece::Marked(text) => {
                let start = self.text.len();
                self.spans.try_reserve(1)?;
                self.text.push_str(text)?;
                let end = self.text.len();
                self.spans.push(Span { start, end })?;
                Ok(())
            }
        }
    }

    pub fn text(&self) -> &str
        ensures { result.now ≡ self.now.text }
    {
        self.text.as_str()
    }

    /// The places of the marked pieces so far, each between characters of the text.
    pub fn spans(&self) -> &[Span]
        ensures spans { result.now ≡ self.now.spans }
        ensures between { All (LiesBetween self.now.text) self.now.spans }
    {
        &self.spans
    }

    pub fn into_text(self) -> Text
        ensures { result ≡ self.text }
    {
        Text::from(self.text)
    }
}

/// The kept places of any pieces cut out exactly those that are marked, in order; they lie in the text, and
/// between characters where each piece is text.
pub fn places_cut_out_what_was_marked()
    ensures { PlacesAlwaysCutOut }
{}
