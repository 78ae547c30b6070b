//! The manifest that is written in place of a crate's own, and the list of its licence files.
ghost use Rattle.std.specs.Prelude.{◌≡◌, OnOk, IfOk, string_bytes};
ghost use Rattle.diag_core.specs.texts.Manifest.{closing_pieces, expression_pieces, field_pieces, hash_pieces, line_pieces};
ghost use Rattle.diag_core.specs.texts.Manifest.{listing_pieces, manifest_pieces, opening_pieces, score_text};
ghost use Rattle.diag_core.specs.texts.Manifest.{named_pieces, told_pieces};
ghost use Rattle.diag_core.specs.texts.Pieces.{bit_of};
ghost use Rattle.diag_core.specs.declared.texts.manifest.FileNote.TheVariants.{Unknown, Low, Unnamed, Bad};
ghost use Rattle.deny_text.specs.Fronts.{StandsInFront};
ghost use Rattle.diag_core.specs.texts.Synthetic.{written_all};

use crate::texts::synthetic::{Synthetic, TextPiece};
use std::alloc::{AllocError, Global};

/// What a line of the list tells of a file: its hash, and its score in hundredths with the name that was
/// found. Marked is why it gives no name.
#[derive(Clone, Copy)]
pub enum FileNote<'a> {
    /// Its name was joined.
    Joined {
        hash: u32,
    },
    /// Its name is unknown to the catalogue.
    Unknown {
        hash: u32,
        score: u32,
        name: &'a str,
    },
    /// Its score is below the threshold.
    Low {
        hash: u32,
        score: u32,
        name: &'a str,
    },
    /// It has no name.
    Unnamed {
        hash: u32,
        score: u32,
    },
    /// It was not read.
    Bad {
        words: &'a str,
    },
}

impl Synthetic {
    /// The head of a manifest, with the name and the licence field marked. Nothing is escaped.
    pub fn write_manifest(
        &mut self,
        name: &str,
        version: &str,
        field: &str,
    ) -> Result<(), AllocError>
        ensures ok { OnOk result (self.new
            ≡ written_all self.old (manifest_pieces name.now version.now field.now)) }
        ensures text { StandsInFront self.old.text self.new.text }
        ensures places { StandsInFront self.old.spans self.new.spans }
    {
        self.write(TextPiece::Plain("[package]\nname = \""))?;
        self.write(TextPiece::Marked(name))?;
        self.write(TextPiece::Plain("\"\nversion = \""))?;
        self.write(TextPiece::Plain(version))?;
        self.write_field(field)
    }

    /// The expression of the joined names, marked.
    pub fn write_expression(&mut self, expression: &str) -> Result<(), AllocError>
        ensures ok { OnOk result (self.new ≡ written_all self.old (expression_pieces expression.now)) }
        ensures text { StandsInFront self.old.text self.new.text }
        ensures places { StandsInFront self.old.spans self.new.spans }
    {
        self.write(TextPiece::Plain("files-expr = \""))?;
        self.write(TextPiece::Marked(expression))?;
        self.write(TextPiece::Plain("\"\n"))
    }

    /// The words of a listing that did not come, marked.
    pub fn write_listing(&mut self, words: &str) -> Result<(), AllocError>
        ensures ok { OnOk result (self.new ≡ written_all self.old (listing_pieces words.now)) }
        ensures text { StandsInFront self.old.text self.new.text }
        ensures places { StandsInFront self.old.spans self.new.spans }
    {
        self.write(TextPiece::Plain("license-files = \""))?;
        self.write(TextPiece::Marked(words))?;
        self.write(TextPiece::Plain("\"\n"))
    }

    /// What is before the lines of the list.
    pub fn open_list(&mut self) -> Result<(), AllocError>
        ensures ok { OnOk result (self.new ≡ written_all self.old opening_pieces) }
        ensures text { StandsInFront self.old.text self.new.text }
        ensures places { StandsInFront self.old.spans self.new.spans }
    {
        self.write(TextPiece::Plain("license-files = [\n"))
    }

    /// What is behind the lines of the list.
    pub fn close_list(&mut self) -> Result<(), AllocError>
        ensures ok { OnOk result (self.new ≡ written_all self.old closing_pieces) }
        ensures text { StandsInFront self.old.text self.new.text }
        ensures places { StandsInFront self.old.spans self.new.spans }
    {
        self.write(TextPiece::Plain("]\n"))
    }

    /// The line of a file.
    pub fn write_line(
        &mut self,
        alloc: Global,
        path: &str,
        told: FileNote<'_>,
    ) -> Result<(), AllocError>
        ensures ok { OnOk result (self.new ≡ written_all self.old (line_pieces path.now told.entry)) }
        ensures text { StandsInFront self.old.text self.new.text }
        ensures places { StandsInFront self.old.spans self.new.spans }
    {
        self.write(TextPiece::Plain("    { path = \""))?;
        self.write(TextPiece::Plain(path))?;
        self.write(TextPiece::Plain("\", "))?;
        self.write_told(alloc, told)?;
        self.write(TextPiece::Plain(" },\n"))
    }
}

impl Synthetic {
    /// The licence field, marked.
    fn write_field(&mut self, field: &str) -> Result<(), AllocError>
        ensures ok { OnOk result (self.new ≡ written_all self.old (field_pieces field.now)) }
        ensures text { StandsInFront self.old.text self.new.text }
        ensures places { StandsInFront self.old.spans self.new.spans }
    {
        self.write(TextPiece::Plain("\"\nlicense = \""))?;
        self.write(TextPiece::Marked(field))?;
        self.write(TextPiece::Plain("\"\n"))
    }

    fn write_told(&mut self, alloc: Global, told: FileNote<'_>) -> Result<(), AllocError>
        ensures ok { OnOk result (self.new ≡ written_all self.old (told_pieces told.entry)) }
        ensures text { StandsInFront self.old.text self.new.text }
        ensures places { StandsInFront self.old.spans self.new.spans }
    {
        match told {
            FileNote::Joined { hash } => { self.write_hash(alloc, hash) }
            FileNote::Unknown { hash, score, name } => self.write_unknown(alloc, hash, score, name),
            FileNote::Low { hash, score, name } => self.write_low(alloc, hash, score, name),
            FileNote::Unnamed { hash, score } => self.write_unnamed(alloc, hash, score),
            FileNote::Bad { words } => self.write_bad(words),
        }
    }

    fn write_unknown(
        &mut self,
        alloc: Global,
        hash: u32,
        score: u32,
        name: &str,
    ) -> Result<(), AllocError>
        ensures ok { OnOk result (self.new ≡ written_all self.old (told_pieces (Unknown hash score name.entry))) }
        ensures text { StandsInFront self.old.text self.new.text }
        ensures places { StandsInFront self.old.spans self.new.spans }
    {
        self.write_hash(alloc, hash)?;
        let score = score_of(alloc, score)?;
        self.write_named(TextPiece::Plain(score.as_str()), TextPiece::Marked(name))
    }

    fn write_low(
        &mut self,
        alloc: Global,
        hash: u32,
        score: u32,
        name: &str,
    ) -> Result<(), AllocError>
        ensures ok { OnOk result (self.new ≡ written_all self.old (told_pieces (Low hash score name.entry))) }
        ensures text { StandsInFront self.old.text self.new.text }
        ensures places { StandsInFront self.old.spans self.new.spans }
    {
        self.write_hash(alloc, hash)?;
        let score = score_of(alloc, score)?;
        self.write_named(TextPiece::Marked(score.as_str()), TextPiece::Plain(name))
    }

    fn write_unnamed(&mut self, alloc: Global, hash: u32, score: u32) -> Result<(), AllocError>
        ensures ok { OnOk result (self.new ≡ written_all self.old (told_pieces (Unnamed hash score))) }
        ensures text { StandsInFront self.old.text self.new.text }
        ensures places { StandsInFront self.old.spans self.new.spans }
    {
        self.write_hash(alloc, hash)?;
        let score = score_of(alloc, score)?;
        self.write(TextPiece::Plain("score = "))?;
        self.write(TextPiece::Marked(score.as_str()))
    }

    fn write_bad(&mut self, words: &str) -> Result<(), AllocError>
        ensures ok { OnOk result (self.new ≡ written_all self.old (told_pieces (Bad words.entry))) }
        ensures text { StandsInFront self.old.text self.new.text }
        ensures places { StandsInFront self.old.spans self.new.spans }
    {
        self.write(TextPiece::Plain("err = \""))?;
        self.write(TextPiece::Marked(words))?;
        self.write(TextPiece::Plain("\""))
    }

    /// The score and the name of a file.
    fn write_named(&mut self, score: TextPiece<'_>, name: TextPiece<'_>) -> Result<(), AllocError>
        ensures ok { OnOk result (self.new ≡ written_all self.old (named_pieces (bit_of score.entry) (bit_of name.entry))) }
        ensures text { StandsInFront self.old.text self.new.text }
        ensures places { StandsInFront self.old.spans self.new.spans }
    {
        self.write(TextPiece::Plain("score = "))?;
        self.write(score)?;
        self.write(TextPiece::Plain(", license = \""))?;
        self.write(name)?;
        self.write(TextPiece::Plain("\""))
    }

    fn write_hash(&mut self, alloc: Global, hash: u32) -> Result<(), AllocError>
        ensures ok { OnOk result (self.new ≡ written_all self.old (hash_pieces hash)) }
        ensures text { StandsInFront self.old.text self.new.text }
        ensures places { StandsInFront self.old.spans self.new.spans }
    {
        let digits = format!(in alloc; "{hash:08x}")?;
        self.write(TextPiece::Plain("hash = 0x"))?;
        self.write(TextPiece::Plain(&digits))?;
        self.write(TextPiece::Plain(", "))
    }
}

/// A score in hundredths, as a digit or more, a point and two digits.
fn score_of(alloc: Global, score: u32) -> Result<String, AllocError>
    ensures { IfOk result (λ text. string_bytes text ≡ score_text score) }
{
    Ok(format!(in alloc; "{}.{:02}", score / 100, score % 100)?)
}
