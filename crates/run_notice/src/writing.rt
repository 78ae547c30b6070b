//! A notice on its sink.
//! Called by `notice_since` of noticing; a text may be written in pieces, nothing is written before all is made.
ghost use Rattle.std.specs.Prelude.{◌≡◌, ◌≤◌, ◌++◌, IfOk, OnErr, OnOk};
ghost use Rattle.std.specs.List.{flat_map};
ghost use Rattle.tree_core.specs.Faults.{Gained, GainedPrefix, IsCounted};
ghost use Rattle.check_notice.specs.Written.{notice_text, texts_from};
ghost use Rattle.run_found.specs.Written.{sink_between};
ghost use Rattle.run_notice.specs.Pieces.{WritesNotice, piece_text};

use check_notice::{Notice, notice_head, text_head};
use deny_text::{ListOf, Text};
use run_found::Error;
use std::alloc::{AllocError, Global};
use tree_core::{Sink, SinkFailed, write_all};

/// A text of a notice, with what is before it.
#[derive(Drop)]
pub(crate) struct TextPiece<'t> {
    pub(crate) head: Text,
    pub(crate) text: &'t Text,
}

/// Texts of a notice, in the order of their numbers.
type TextPieces<'t> = ListOf<TextPiece<'t>>;

/// Texts, each with what is before it.
fn pieces_of(alloc: Global, texts: &[Text]) -> Result<TextPieces<'_>, AllocError>
    ensures { IfOk result (λ pieces. flat_map piece_text pieces ≡ texts_from 1 texts.now) }
{
    let mut pieces = TextPieces::new(alloc);
    'texts: for (place, text) in texts.iter().enumerate() {
        let head = text_head(alloc, place + 1)?;
        let head = Text::from(head);
        pieces.push(TextPiece { head, text })?;
    }
    Ok(pieces)
}

/// Writes a text behind what is before it.
#[tactic(auto, using(crate::proofs::WritingLemmas::gained_more))]
fn write_piece<O: Sink>(out: &mut O, piece: &TextPiece<'_>) -> Result<(), SinkFailed>
    ensures ok { OnOk result (Gained (O.written out.old) (O.written out.new) (piece_text piece.now)) }
    ensures err { OnErr result
        (GainedPrefix (O.written out.old) (O.written out.new) (piece_text piece.now)) }
    ensures cause { IsCounted (O.fault_count out.old) (O.fault_count out.new) result }
{
    write_all(out, piece.head.as_str().as_bytes())?;
    write_all(out, piece.text.as_str().as_bytes())?;
    Ok(())
}

/// Writes texts, each behind what is before it.
fn write_pieces<O: Sink>(out: &mut O, pieces: &[TextPiece<'_>]) -> Result<(), SinkFailed>
    ensures ok { OnOk result
        (Gained (O.written out.old) (O.written out.new) (flat_map piece_text pieces.now)) }
    ensures err { OnErr result
        (GainedPrefix (O.written out.old) (O.written out.new) (flat_map piece_text pieces.now)) }
    ensures cause { IsCounted (O.fault_count out.old) (O.fault_count out.new) result }
{
    'pieces: for piece in pieces {
        write_piece(out, piece)?;
    }
    Ok(())
}

/// Writes the lines of crates, and then texts.
#[tactic(auto, using(crate::proofs::WritingLemmas::gained_more))]
fn write_parts<O: Sink>(
    out: &mut O,
    lines: &str,
    pieces: &[TextPiece<'_>],
) -> Result<(), SinkFailed>
    ensures ok { OnOk result
        (Gained (O.written out.old) (O.written out.new) (lines.now ++ flat_map piece_text pieces.now)) }
    ensures err { OnErr result
        (GainedPrefix (O.written out.old) (O.written out.new) (lines.now ++ flat_map piece_text pieces.now)) }
    ensures cause { IsCounted (O.fault_count out.old) (O.fault_count out.new) result }
{
    write_all(out, lines.as_bytes())?;
    write_pieces(out, pieces)?;
    Ok(())
}

/// Writes a notice, text by text, once nothing can be refused any more but that. The counts of a refused write are those
/// of this call.
pub(crate) fn write_notice<O: Sink>(
    alloc: Global,
    out: &mut O,
    notice: &Notice,
) -> Result<(), Error>
    ensures writes { WritesNotice (notice_text notice.now)
        (sink_between O.written O.fault_count out.old out.new) result }
    ensures later { O.fault_count out.old ≤ O.fault_count out.new }
{
    let lines = notice_head(alloc, notice)?;
    let pieces = pieces_of(alloc, notice.texts.items())?;
    let before = out.faults();
    match write_parts(out, lines.as_str(), pieces.items()) {
        Ok(()) => Ok(()),
        Err(SinkFailed) => Err(Error::WriteFault {
            before,
            after: out.faults(),
        }),
    }
}
