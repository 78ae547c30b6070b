//! What is said of a crate, in lines for a person.
ghost use Rattle.std.specs.Prelude.{◌≡◌, ◌++◌, IfOk, OnOk, codes, decimal, string_bytes};
ghost use Rattle.std.specs.List.{flat_map};
ghost use Rattle.graph_core.specs.Krate as graph;
ghost use Rattle.diag_print.specs.Human.{note_line};
ghost use Rattle.check_why.specs.Lines as spec;

use crate::answer::{
    Asking, CrateAnswer, CrateTitle, LicenseAnswer, ReadAnswer, ReadSaid, TermAnswer, TermHit,
    Unmatched, UnmetAnswer, VerdictAnswer,
};
use crate::distinct::DistinctTexts;
use check_core::findings::push_with_commas;
use deny_text::{Text, Texts};
use diag_print::push_flat;
use std::alloc::{AllocError, Global};

/// Appends a line, behind two blanks.
fn push_line(out: &mut String, text: &str) -> Result<(), AllocError>
    ensures { OnOk result (string_bytes out.new ≡ string_bytes out.old ++ spec.line text.now) }
{
    out.push_str("  ")?;
    push_flat(out, text)?;
    out.push_str("\n")
}

/// Appends the name and the version of a crate.
fn push_title(out: &mut String, title: &CrateTitle) -> Result<(), AllocError>
    ensures { OnOk result (string_bytes out.new ≡ string_bytes out.old ++ spec.title_text title.now) }
{
    out.push_str(title.name.as_str())?;
    out.push_str(" ")?;
    out.push_str(title.version.as_str())
}

/// The verdict in a word.
pub(crate) fn verdict_word(verdict: &VerdictAnswer) -> &'static str
    ensures { result.now ≡ spec.verdict_word verdict.now }
{
    match verdict {
        VerdictAnswer::Accepted { .. } => "accepted",
        VerdictAnswer::Rejected { .. } => "rejected",
        VerdictAnswer::Unlicensed => "unlicensed",
        VerdictAnswer::PassedOver => "passed over",
    }
}

/// Appends the first three lines of a crate.
fn push_head(
    out: &mut String,
    alloc: Global,
    title: &CrateTitle,
    word: &str,
) -> Result<(), AllocError>
    ensures { OnOk result (string_bytes out.new ≡ string_bytes out.old ++ spec.head_lines title.now word.now) }
{
    let mut first = String::new(alloc);
    push_title(&mut first, title)?;
    push_flat(out, first.as_str())?;
    out.push_str("\n")?;
    let id = format!(in alloc; "id: {}", title.id)?;
    push_line(out, id.as_str())?;
    let verdict = format!(in alloc; "verdict: {word}")?;
    push_line(out, verdict.as_str())
}

/// Appends the line of where an expression comes from.
fn push_from(out: &mut String, alloc: Global, license: &LicenseAnswer) -> Result<(), AllocError>
    ensures { OnOk result (string_bytes out.new ≡ string_bytes out.old
        ++ spec.line (codes "from: " ++ license.now.source ++ codes ", " ++ license.now.place)) }
{
    let from = format!(in alloc; "from: {}, {}", license.source, license.place)?;
    push_line(out, from.as_str())
}

/// Appends the line of an expression.
fn push_expression(out: &mut String, alloc: Global, text: &Text) -> Result<(), AllocError>
    ensures { OnOk result (string_bytes out.new ≡ string_bytes out.old ++ spec.line (codes "license: " ++ text.now)) }
{
    let line = format!(in alloc; "license: {text}")?;
    push_line(out, line.as_str())
}

/// Appends the lines of the expression, where there is one.
fn push_license(
    out: &mut String,
    alloc: Global,
    license: &Option<LicenseAnswer>,
) -> Result<(), AllocError>
    ensures { OnOk result (string_bytes out.new ≡ string_bytes out.old ++ spec.license_lines license.now) }
{
    match license {
        Some(license) => {
            push_expression(out, alloc, &license.text)?;
            push_from(out, alloc, license)
        }
        None => Ok(()),
    }
}

/// What allows a term, with its place.
fn hit_text(alloc: Global, hit: &TermHit) -> Result<String, AllocError>
    ensures { IfOk result (λ text. string_bytes text ≡ spec.hit_text hit.now) }
{
    match hit {
        TermHit::Allowed(place) => format!(in alloc; "allowed, {place}"),
        TermHit::Excepted(place) => format!(in alloc; "allowed by an exception, {place}"),
        TermHit::NotAllowed => String::from_str(alloc, "not allowed"),
    }
}

fn push_term(out: &mut String, alloc: Global, term: &TermAnswer) -> Result<(), AllocError>
    ensures { OnOk result (string_bytes out.new ≡ string_bytes out.old ++ spec.term_line term.now) }
{
    let hit = hit_text(alloc, &term.hit)?;
    let text = format!(in alloc; "{}: {hit}", term.text)?;
    push_line(out, text.as_str())
}

fn push_terms(out: &mut String, alloc: Global, terms: &[TermAnswer]) -> Result<(), AllocError>
    ensures { OnOk result (string_bytes out.new
        ≡ string_bytes out.old ++ flat_map spec.term_line terms.now) }
{
    'terms: for term in terms {
        push_term(out, alloc, term)?;
    }
    Ok(())
}

/// The text of the term at a place; empty behind the end.
fn text_of_term(terms: &[TermAnswer], place: usize) -> &str
    ensures { result.now ≡ spec.text_of_term terms.now place }
{
    match terms.get(place) {
        Some(term) => term.text.as_str(),
        None => "",
    }
}

/// Whether a text is among others.
fn has_text(texts: &Texts, text: &str) -> bool
    ensures { result ≡ graph.has_text texts.now text.now }
{
    texts.items().iter().any(|other| other.as_str() == text)
}

/// Puts a text behind others, where it is not among them.
fn put_text(texts: &mut Texts, alloc: Global, text: &str) -> Result<(), AllocError>
    ensures { OnOk result (texts.new ≡ spec.with_text texts.old text.now) }
{
    if has_text(texts, text) {
        return Ok(());
    }
    let text = Text::copy(alloc, text)?;
    texts.push(text)
}

/// Puts the text of the term at a place behind others, where it is not among them.
fn put_term(
    texts: &mut Texts,
    alloc: Global,
    terms: &[TermAnswer],
    place: usize,
) -> Result<(), AllocError>
    ensures { OnOk result (texts.new ≡ spec.with_term terms.now texts.old place) }
{
    put_text(texts, alloc, text_of_term(terms, place))
}

/// The texts of the terms at a few places, each once: each is compared with those before it.
fn few_texts_at(alloc: Global, terms: &[TermAnswer], places: &[usize]) -> Result<Texts, AllocError>
    ensures { IfOk result (λ texts. texts ≡ spec.texts_at terms.now places.now) }
{
    let mut texts = Texts::new(alloc);
    'places: for place in places {
        put_term(&mut texts, alloc, terms, *place)?;
    }
    Ok(texts)
}

/// The same of many places, by a map.
fn many_texts_at(alloc: Global, terms: &[TermAnswer], places: &[usize]) -> Result<Texts, AllocError>
    ensures { IfOk result (λ texts. texts ≡ spec.texts_at terms.now places.now) }
{
    let mut texts = DistinctTexts::new(alloc);
    'places: for place in places {
        texts = texts.with(alloc, text_of_term(terms, *place))?;
    }
    Ok(texts.into_texts())
}

/// As many texts are compared one by one.
const FEW_TEXTS: usize = 16;

/// The texts of the terms at some places, each once.
fn texts_at(alloc: Global, terms: &[TermAnswer], places: &[usize]) -> Result<Texts, AllocError>
    ensures { IfOk result (λ texts. texts ≡ spec.texts_at terms.now places.now) }
{
    if places.len() <= FEW_TEXTS {
        few_texts_at(alloc, terms, places)
    } else {
        many_texts_at(alloc, terms, places)
    }
}

/// Appends a line with the terms at some places, behind its own words.
fn push_terms_at(
    out: &mut String,
    alloc: Global,
    words: &str,
    terms: &[TermAnswer],
    places: &[usize],
) -> Result<(), AllocError>
    ensures { OnOk result (string_bytes out.new
        ≡ string_bytes out.old ++ spec.line (words.now ++ spec.terms_text terms.now places.now)) }
{
    let texts = texts_at(alloc, terms, places)?;
    let mut text = String::from_str(alloc, words)?;
    push_with_commas(&mut text, texts.items())?;
    push_line(out, text.as_str())
}

/// Appends the lines of what shows a verdict.
fn push_certificate(
    out: &mut String,
    alloc: Global,
    terms: &[TermAnswer],
    verdict: &VerdictAnswer,
) -> Result<(), AllocError>
    ensures { OnOk result (string_bytes out.new
        ≡ string_bytes out.old ++ spec.certificate_lines terms.now verdict.now) }
{
    match verdict {
        VerdictAnswer::Accepted { choice } => {
            push_terms_at(out, alloc, "rests on: ", terms, choice.items())
        }
        VerdictAnswer::Rejected { allow, blocks } => {
            push_terms_at(out, alloc, "to accept it, allow: ", terms, allow.items())?;
            let words = "rejected as long as none is allowed of: ";
            push_terms_at(out, alloc, words, terms, blocks.items())
        }
        VerdictAnswer::Unlicensed | VerdictAnswer::PassedOver => Ok(()),
    }
}

/// Appends the crates of a walk.
fn push_walk(out: &mut String, titles: &[CrateTitle]) -> Result<(), AllocError>
    ensures { OnOk result (string_bytes out.new ≡ string_bytes out.old ++ spec.needed_text titles.now) }
{
    let Some((first, rest)) = titles.split_first() else {
        return out.push_str("a root");
    };
    push_title(out, first)?;
    'rest: for title in rest {
        out.push_str(" > ")?;
        push_title(out, title)?;
    }
    Ok(())
}

/// The bytes that a walk has room for from the start.
const WALK_ROOM: usize = 256;

fn push_needed(out: &mut String, alloc: Global, titles: &[CrateTitle]) -> Result<(), AllocError>
    ensures { OnOk result (string_bytes out.new
        ≡ string_bytes out.old ++ spec.line (codes "needed by: " ++ spec.needed_text titles.now)) }
{
    let mut text = String::with_capacity(alloc, WALK_ROOM)?;
    text.push_str("needed by: ")?;
    push_walk(&mut text, titles)?;
    push_line(out, text.as_str())
}

/// The name that is taken for a text, and its score.
fn known_text(alloc: Global, name: &Text, score: u8) -> Result<String, AllocError>
    ensures { IfOk result (λ text. string_bytes text
        ≡ codes " (" ++ name.now ++ codes ", " ++ decimal score ++ codes ")") }
{
    let text = format!(in alloc; " ({name}, {score})")?;
    Ok(text)
}

/// What came of a read, behind its path.
fn said_text(alloc: Global, said: &ReadSaid) -> Result<String, AllocError>
    ensures { IfOk result (λ text. string_bytes text ≡ spec.said_text said.now) }
{
    match said {
        ReadSaid::Read => Ok(String::new(alloc)),
        ReadSaid::Known { name, score } => known_text(alloc, name, *score),
        ReadSaid::Unknown { score } => format!(in alloc; " (no known text, {score})"),
        ReadSaid::NotThere => String::from_str(alloc, " (not there)"),
        ReadSaid::Folder => String::from_str(alloc, " (a folder)"),
        ReadSaid::NoFolder => String::from_str(alloc, " (no folder)"),
        ReadSaid::NotUtf8 => String::from_str(alloc, " (not UTF-8)"),
        ReadSaid::Failed => String::from_str(alloc, " (could not be read)"),
    }
}

fn push_read(out: &mut String, alloc: Global, read: &ReadAnswer) -> Result<(), AllocError>
    ensures { OnOk result (string_bytes out.new ≡ string_bytes out.old ++ spec.read_line read.now) }
{
    let said = said_text(alloc, &read.said)?;
    let text = format!(in alloc; "read: {}{said}", read.path.as_path())?;
    push_line(out, text.as_str())
}

fn push_reads(out: &mut String, alloc: Global, reads: &[ReadAnswer]) -> Result<(), AllocError>
    ensures { OnOk result (string_bytes out.new
        ≡ string_bytes out.old ++ flat_map spec.read_line reads.now) }
{
    'reads: for read in reads {
        push_read(out, alloc, read)?;
    }
    Ok(())
}

/// What asks that files have hashes, in a word.
pub(crate) fn asking_word(asking: Asking) -> &'static str
    ensures { result.now ≡ spec.asking_word asking }
{
    match asking {
        Asking::Clarification => "clarification",
        Asking::Exception => "exception",
    }
}

/// A hash as it is written in a policy.
fn hash_word(alloc: Global, hash: u32) -> Result<String, AllocError>
    ensures { IfOk result (λ text. string_bytes text ≡ spec.hash_word hash) }
{
    format!(in alloc; "0x{hash:08x}")
}

/// That a file has another hash than the one that is wanted.
fn hashes_text(alloc: Global, found: &str, wanted: &str) -> Result<String, AllocError>
    ensures { IfOk result (λ text. string_bytes text
        ≡ codes " has hash " ++ found.now ++ codes ", and " ++ wanted.now ++ codes " is wanted") }
{
    let mut text = String::from_str(alloc, " has hash ")?;
    text.push_str(found)?;
    text.push_str(", and ")?;
    text.push_str(wanted)?;
    text.push_str(" is wanted")?;
    Ok(text)
}

fn hash_text(alloc: Global, found: u32, wanted: u32) -> Result<String, AllocError>
    ensures { IfOk result (λ text. string_bytes text
        ≡ codes " has hash " ++ spec.hash_word found ++ codes ", and " ++ spec.hash_word wanted ++ codes " is wanted") }
{
    let found = hash_word(alloc, found)?;
    let wanted = hash_word(alloc, wanted)?;
    let text = hashes_text(alloc, found.as_str(), wanted.as_str())?;
    Ok(text)
}

/// Why a file does not match, behind its path.
fn unmatched_text(alloc: Global, by: Unmatched) -> Result<String, AllocError>
    ensures { IfOk result (λ text. string_bytes text ≡ spec.unmatched_text by) }
{
    match by {
        Unmatched::Hash { found, wanted } => hash_text(alloc, found, wanted),
        Unmatched::NotThere => String::from_str(alloc, " is not there"),
        Unmatched::NoText => String::from_str(alloc, " is no text"),
        Unmatched::Failed => String::from_str(alloc, " could not be read"),
    }
}

/// What does not hold, and where it names the crate.
fn unmet_head(alloc: Global, one: &UnmetAnswer) -> Result<String, AllocError>
    ensures { IfOk result (λ text. string_bytes text ≡ spec.unmet_head one.now) }
{
    let word = asking_word(one.asking);
    format!(in alloc; "{word} at {} does not hold: ", one.place)
}

fn push_unmet_one(out: &mut String, alloc: Global, one: &UnmetAnswer) -> Result<(), AllocError>
    ensures { OnOk result (string_bytes out.new ≡ string_bytes out.old ++ spec.unmet_line one.now) }
{
    let head = unmet_head(alloc, one)?;
    let by = unmatched_text(alloc, one.by)?;
    let text = format!(in alloc; "{head}{}{by}", one.path.as_path())?;
    push_line(out, text.as_str())
}

fn push_unmet(out: &mut String, alloc: Global, unmet: &[UnmetAnswer]) -> Result<(), AllocError>
    ensures { OnOk result (string_bytes out.new
        ≡ string_bytes out.old ++ flat_map spec.unmet_line unmet.now) }
{
    'unmet: for one in unmet {
        push_unmet_one(out, alloc, one)?;
    }
    Ok(())
}

fn push_notes(out: &mut String, notes: &[Text]) -> Result<(), AllocError>
    ensures { OnOk result (string_bytes out.new ≡ string_bytes out.old ++ flat_map note_line notes.now) }
{
    'notes: for note in notes {
        out.push_str("  = ")?;
        push_flat(out, note.as_str())?;
        out.push_str("\n")?;
    }
    Ok(())
}

/// Appends the lines of the verdict, and of what it rests on.
fn push_verdict(out: &mut String, alloc: Global, one: &CrateAnswer) -> Result<(), AllocError>
    ensures { OnOk result (string_bytes out.new ≡ string_bytes out.old ++ spec.verdict_lines one.now) }
{
    push_head(out, alloc, &one.title, verdict_word(&one.verdict))?;
    push_license(out, alloc, &one.license)?;
    push_terms(out, alloc, one.terms.items())?;
    push_certificate(out, alloc, one.terms.items(), &one.verdict)
}

/// Appends the lines of the files, and the notes.
fn push_files(out: &mut String, alloc: Global, one: &CrateAnswer) -> Result<(), AllocError>
    ensures { OnOk result (string_bytes out.new ≡ string_bytes out.old ++ spec.file_lines one.now) }
{
    push_reads(out, alloc, one.reads.items())?;
    push_unmet(out, alloc, one.unmet.items())?;
    push_notes(out, one.notes.items())
}

/// Appends the lines behind the verdict.
fn push_rest(out: &mut String, alloc: Global, one: &CrateAnswer) -> Result<(), AllocError>
    ensures { OnOk result (string_bytes out.new ≡ string_bytes out.old ++ spec.rest_lines one.now) }
{
    push_needed(out, alloc, one.needed_by.items())?;
    push_files(out, alloc, one)?;
    Ok(())
}

/// The bytes that the lines of a crate have room for from the start.
const LINES_ROOM: usize = 512;

/// Appends all lines of a crate that is checked.
pub fn push_lines(out: &mut String, alloc: Global, one: &CrateAnswer) -> Result<(), AllocError>
    ensures { OnOk result (string_bytes out.new ≡ string_bytes out.old ++ spec.answer_lines one.now) }
{
    out.reserve(LINES_ROOM)?;
    push_verdict(out, alloc, one)?;
    push_rest(out, alloc, one)
}

/// Appends all lines of a crate that is not checked.
pub fn push_unchecked_lines(
    out: &mut String,
    alloc: Global,
    title: &CrateTitle,
    because: &str,
) -> Result<(), AllocError>
    ensures { OnOk result (string_bytes out.new
        ≡ string_bytes out.old ++ spec.unchecked_lines title.now because.now) }
{
    push_head(out, alloc, title, "not checked")?;
    push_line(out, because)
}
