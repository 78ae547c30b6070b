//! What is said of a crate, as an object for a program.
ghost use Rattle.std.specs.Prelude.{◌≡◌, ◌++◌, ◌∷◌, [], OnErr, OnOk, map, option_copied, option_map};
ghost use Rattle.std.specs.Prelude.{string_bytes};
ghost use Rattle.json.specs.Token.{key, string};
ghost use Rattle.serde_json.specs.Data.{array};
ghost use Rattle.serde_json.specs.View.{items_of};
ghost use Rattle.diag_print.specs.JsonTokens.{Adds, data_tokens};
ghost use Rattle.check_why.specs.Object as spec;

use crate::answer::{
    CrateAnswer, CrateTitle, LicenseAnswer, ReadAnswer, ReadSaid, TermAnswer, TermHit, Unmatched,
    UnmetAnswer, VerdictAnswer,
};
use crate::lines::{asking_word, verdict_word};
use deny_text::Text;
use json::Writer;
use std::alloc::{AllocError, Global};

/// A member that is a text.
fn write_text(out: &mut Writer, name: &str, text: &str) -> Result<(), AllocError>
    ensures { OnOk result (Adds out.old out.new (key name.now ∷ string text.now ∷ [])) }
{
    out.key(name)?;
    out.string(text)
}

/// A text, or null.
fn write_optional(out: &mut Writer, text: Option<&str>) -> Result<(), AllocError>
    ensures { OnOk result (Adds out.old out.new (data_tokens (spec.optional_text (option_copied text.entry)))) }
{
    match text {
        Some(text) => out.string(text),
        None => out.null(),
    }
}

/// Numbers in order.
fn write_numbers(out: &mut Writer, numbers: &[usize]) -> Result<(), AllocError>
    ensures { OnOk result (Adds out.old out.new (data_tokens (spec.numbers_data numbers.now))) }
{
    out.begin_array()?;
    'numbers: for number in numbers {
        out.u64(*number as u64)?;
    }
    out.end_array()
}

/// Texts in order.
fn write_texts(out: &mut Writer, texts: &[Text]) -> Result<(), AllocError>
    ensures { OnOk result (Adds out.old out.new (data_tokens (spec.texts_data texts.now))) }
{
    out.begin_array()?;
    'texts: for text in texts {
        out.string(text.as_str())?;
    }
    out.end_array()
}

fn hit_word(hit: &TermHit) -> &'static str
    ensures { result.now ≡ spec.hit_word hit.now }
{
    match hit {
        TermHit::Allowed(_) => "allowed",
        TermHit::Excepted(_) => "exception",
        TermHit::NotAllowed => "none",
    }
}

fn write_hit_place(out: &mut Writer, hit: &TermHit) -> Result<(), AllocError>
    ensures { OnOk result (Adds out.old out.new (data_tokens (spec.hit_place hit.now))) }
{
    match hit {
        TermHit::Allowed(place) => out.string(place.as_str()),
        TermHit::Excepted(place) => out.string(place.as_str()),
        TermHit::NotAllowed => out.null(),
    }
}

fn write_term(out: &mut Writer, term: &TermAnswer) -> Result<(), AllocError>
    ensures { OnOk result (Adds out.old out.new (data_tokens (spec.term_data term.now))) }
{
    out.begin_object()?;
    write_text(out, "hit", hit_word(&term.hit))?;
    out.key("place")?;
    write_hit_place(out, &term.hit)?;
    write_text(out, "text", term.text.as_str())?;
    out.end_object()
}

fn write_terms(out: &mut Writer, terms: &[TermAnswer]) -> Result<(), AllocError>
    ensures { let terms = items_of (map spec.term_data terms.now) in
        OnOk result (Adds out.old out.new (data_tokens (array terms))) }
{
    out.begin_array()?;
    'terms: for term in terms {
        write_term(out, term)?;
    }
    out.end_array()
}

fn write_allow(out: &mut Writer, verdict: &VerdictAnswer) -> Result<(), AllocError>
    ensures { OnOk result (Adds out.old out.new (data_tokens (spec.allow_data verdict.now))) }
{
    match verdict {
        VerdictAnswer::Rejected { allow, .. } => write_numbers(out, allow.items()),
        _ => out.null(),
    }
}

fn write_blocks(out: &mut Writer, verdict: &VerdictAnswer) -> Result<(), AllocError>
    ensures { OnOk result (Adds out.old out.new (data_tokens (spec.blocks_data verdict.now))) }
{
    match verdict {
        VerdictAnswer::Rejected { blocks, .. } => write_numbers(out, blocks.items()),
        _ => out.null(),
    }
}

fn write_choice(out: &mut Writer, verdict: &VerdictAnswer) -> Result<(), AllocError>
    ensures { OnOk result (Adds out.old out.new (data_tokens (spec.choice_data verdict.now))) }
{
    match verdict {
        VerdictAnswer::Accepted { choice } => write_numbers(out, choice.items()),
        _ => out.null(),
    }
}

fn said_word(said: &ReadSaid) -> &'static str
    ensures { result.now ≡ spec.said_word said.now }
{
    match said {
        ReadSaid::Read | ReadSaid::Known { .. } | ReadSaid::Unknown { .. } => "read",
        ReadSaid::NotThere => "not there",
        ReadSaid::Folder => "a folder",
        ReadSaid::NoFolder => "no folder",
        ReadSaid::NotUtf8 => "not UTF-8",
        ReadSaid::Failed => "could not be read",
    }
}

fn write_name(out: &mut Writer, said: &ReadSaid) -> Result<(), AllocError>
    ensures { OnOk result (Adds out.old out.new (data_tokens (spec.name_data said.now))) }
{
    match said {
        ReadSaid::Known { name, .. } => out.string(name.as_str()),
        _ => out.null(),
    }
}

fn write_score(out: &mut Writer, said: &ReadSaid) -> Result<(), AllocError>
    ensures { OnOk result (Adds out.old out.new (data_tokens (spec.score_data said.now))) }
{
    match said {
        ReadSaid::Known { score, .. } => out.u64(*score as u64),
        ReadSaid::Unknown { score } => out.u64(*score as u64),
        _ => out.null(),
    }
}

fn write_read(out: &mut Writer, read: &ReadAnswer) -> Result<(), AllocError>
    ensures { OnOk result (Adds out.old out.new (data_tokens (spec.read_data read.now))) }
{
    out.begin_object()?;
    write_text(out, "answer", said_word(&read.said))?;
    out.key("name")?;
    write_name(out, &read.said)?;
    write_text(out, "path", read.path.as_path())?;
    out.key("score")?;
    write_score(out, &read.said)?;
    out.end_object()
}

fn write_reads(out: &mut Writer, reads: &[ReadAnswer]) -> Result<(), AllocError>
    ensures { let reads = items_of (map spec.read_data reads.now) in
        OnOk result (Adds out.old out.new (data_tokens (array reads))) }
{
    out.begin_array()?;
    'reads: for read in reads {
        write_read(out, read)?;
    }
    out.end_array()
}

fn reason_word(by: Unmatched) -> &'static str
    ensures { result.now ≡ spec.reason_word by }
{
    match by {
        Unmatched::Hash { .. } => "another hash",
        Unmatched::NotThere => "not there",
        Unmatched::NoText => "no text",
        Unmatched::Failed => "could not be read",
    }
}

fn write_hash(out: &mut Writer, alloc: Global, hash: u32) -> Result<(), AllocError>
    ensures { OnOk result (Adds out.old out.new (data_tokens (spec.hash_data hash))) }
{
    let text = format!(in alloc; "0x{hash:08x}")?;
    out.string(text.as_str())
}

fn write_found(out: &mut Writer, alloc: Global, by: Unmatched) -> Result<(), AllocError>
    ensures { OnOk result (Adds out.old out.new (data_tokens (spec.found_data by))) }
{
    match by {
        Unmatched::Hash { found, .. } => write_hash(out, alloc, found),
        _ => out.null(),
    }
}

fn write_wanted(out: &mut Writer, alloc: Global, by: Unmatched) -> Result<(), AllocError>
    ensures { OnOk result (Adds out.old out.new (data_tokens (spec.wanted_data by))) }
{
    match by {
        Unmatched::Hash { wanted, .. } => write_hash(out, alloc, wanted),
        _ => out.null(),
    }
}

fn write_unmet_one(out: &mut Writer, alloc: Global, one: &UnmetAnswer) -> Result<(), AllocError>
    ensures { OnOk result (Adds out.old out.new (data_tokens (spec.unmet_data one.now))) }
{
    out.begin_object()?;
    out.key("found")?;
    write_found(out, alloc, one.by)?;
    write_text(out, "kind", asking_word(one.asking))?;
    write_text(out, "path", one.path.as_path())?;
    write_text(out, "place", one.place.as_str())?;
    write_text(out, "reason", reason_word(one.by))?;
    out.key("wanted")?;
    write_wanted(out, alloc, one.by)?;
    out.end_object()
}

fn write_unmet(out: &mut Writer, alloc: Global, unmet: &[UnmetAnswer]) -> Result<(), AllocError>
    ensures { let unmet = items_of (map spec.unmet_data unmet.now) in
        OnOk result (Adds out.old out.new (data_tokens (array unmet))) }
{
    out.begin_array()?;
    'unmet: for one in unmet {
        write_unmet_one(out, alloc, one)?;
    }
    out.end_array()
}

/// The ids of crates in order.
fn write_ids(out: &mut Writer, titles: &[CrateTitle]) -> Result<(), AllocError>
    ensures { OnOk result (Adds out.old out.new (data_tokens (spec.ids_data titles.now))) }
{
    out.begin_array()?;
    'titles: for title in titles {
        out.string(title.id.as_str())?;
    }
    out.end_array()
}

/// A part of the expression, or null.
fn license_text(license: &Option<LicenseAnswer>) -> Option<&str>
    ensures { option_copied result ≡ option_map (λ license. license.text) license.now }
{
    match license {
        Some(license) => Some(license.text.as_str()),
        None => None,
    }
}

fn license_place(license: &Option<LicenseAnswer>) -> Option<&str>
    ensures { option_copied result ≡ option_map (λ license. license.place) license.now }
{
    match license {
        Some(license) => Some(license.place.as_str()),
        None => None,
    }
}

fn license_source(license: &Option<LicenseAnswer>) -> Option<&str>
    ensures { option_copied result ≡ option_map (λ license. license.source) license.now }
{
    match license {
        Some(license) => Some(license.source.as_str()),
        None => None,
    }
}

/// The object of a crate that is checked.
fn write_answer(out: &mut Writer, alloc: Global, one: &CrateAnswer) -> Result<(), AllocError>
    ensures { OnOk result (Adds out.old out.new (data_tokens (spec.answer_data one.now))) }
{
    out.begin_object()?;
    out.key("allow")?;
    write_allow(out, &one.verdict)?;
    out.key("because")?;
    out.null()?;
    out.key("blocks")?;
    write_blocks(out, &one.verdict)?;
    out.key("choice")?;
    write_choice(out, &one.verdict)?;
    write_text(out, "id", one.title.id.as_str())?;
    out.key("license")?;
    write_optional(out, license_text(&one.license))?;
    write_text(out, "name", one.title.name.as_str())?;
    out.key("needed_by")?;
    write_ids(out, one.needed_by.items())?;
    out.key("notes")?;
    write_texts(out, one.notes.items())?;
    out.key("place")?;
    write_optional(out, license_place(&one.license))?;
    out.key("reads")?;
    write_reads(out, one.reads.items())?;
    out.key("source")?;
    write_optional(out, license_source(&one.license))?;
    out.key("terms")?;
    write_terms(out, one.terms.items())?;
    out.key("unmet")?;
    write_unmet(out, alloc, one.unmet.items())?;
    write_text(out, "verdict", verdict_word(&one.verdict))?;
    write_text(out, "version", one.title.version.as_str())?;
    out.end_object()
}

/// The object of a crate that is not checked.
fn write_unchecked(out: &mut Writer, title: &CrateTitle, because: &str) -> Result<(), AllocError>
    ensures { OnOk result (Adds out.old out.new (data_tokens (spec.unchecked_data title.now because.now))) }
{
    out.begin_object()?;
    write_text(out, "because", because)?;
    write_text(out, "id", title.id.as_str())?;
    write_text(out, "name", title.name.as_str())?;
    write_text(out, "verdict", "not checked")?;
    write_text(out, "version", title.version.as_str())?;
    out.end_object()
}

/// The bytes that an object has room for from the start.
const OBJECT_ROOM: usize = 1024;

/// Appends the object of a crate that is checked, and a line feed.
pub fn push_object(out: &mut String, alloc: Global, one: &CrateAnswer) -> Result<(), AllocError>
    ensures ok { OnOk result (string_bytes out.new ≡ string_bytes out.old ++ spec.answer_object one.now) }
    ensures err { OnErr result (string_bytes out.new ≡ string_bytes out.old) }
{
    let mut writer = Writer::new(Vec::with_capacity(alloc, OBJECT_ROOM)?);
    write_answer(&mut writer, alloc, one)?;
    let mut line = unsafe { String::from_utf8_unchecked(writer.into_inner()) };
    line.push_str("\n")?;
    out.push_str(line.as_str())
}

/// The same of a crate that is not checked.
pub fn push_unchecked_object(
    out: &mut String,
    alloc: Global,
    title: &CrateTitle,
    because: &str,
) -> Result<(), AllocError>
    ensures ok { OnOk result (string_bytes out.new
        ≡ string_bytes out.old ++ spec.unchecked_object title.now because.now) }
    ensures err { OnErr result (string_bytes out.new ≡ string_bytes out.old) }
{
    let mut writer = Writer::new(Vec::with_capacity(alloc, OBJECT_ROOM)?);
    write_unchecked(&mut writer, title, because)?;
    let mut line = unsafe { String::from_utf8_unchecked(writer.into_inner()) };
    line.push_str("\n")?;
    out.push_str(line.as_str())
}
