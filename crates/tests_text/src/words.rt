//! The words of a command line, what they are answered with, and the names that options list.
use crate::calls::letters_of;
use clap::Command;
use deny_text::{PathBuf, Texts};
use diag_core::LevelFilter;
use diag_print::{Color, Format};
use run_request::options::{OptionRow, OptionValues, check_rows, list_rows, main_rows};
use run_request::read::{CliAnswer, read};
use run_request::{
    ArgsError, CodeOrLevel, CodeOrLevels, FromWord, KrateContext, Layout, OutputFormat, Request,
    Subcommand, WhichCheck, check, list,
};
use std::alloc::{AllocError, Global};
use tests_files::{AnswerText, Asked, Room, Shown, Told};

/// The program's name.
const NAME: &str = "cargo-deny";

/// The words of a text, which are with a blank between, behind the program's name.
fn words_of(alloc: Global, name: &str, text: &str) -> Result<Vec<String>, AllocError> {
    let mut words = Vec::new(alloc);
    for part in [name, text] {
        for word in part.split(' ') {
            if !part.is_empty() {
                words.push(String::from_str(alloc, letters_of(word))?)?;
            }
        }
    }
    Ok(words)
}

/// The answer to the words of a text in the folder `/w`.
fn given(alloc: Global, name: &str, text: &str) -> Result<CliAnswer, AllocError> {
    let words = words_of(alloc, name, text)?;
    read(alloc, &words, "/w")
}

/// Puts what words are answered with.
impl Shown<Words> for CliAnswer {
    fn put(&self, out: &mut AnswerText) {
        match self {
            CliAnswer::Asked(request) => put_request(out, request),
            CliAnswer::Shown(text) if text.as_str() == "cargo-deny 0.20.2\n" => out.put("version"),
            CliAnswer::Shown(_) => out.put("help"),
            CliAnswer::Usage(_) => out.put("usage"),
        }
    }
}

/// Puts the text that words are answered with.
impl Shown<Help> for CliAnswer {
    fn put(&self, out: &mut AnswerText) {
        match self {
            CliAnswer::Asked(_) => out.put("asked"),
            CliAnswer::Shown(text) | CliAnswer::Usage(text) => out.put(text.as_str()),
        }
    }
}

fn put_path(out: &mut AnswerText, name: &str, path: &Option<PathBuf>) {
    if let Some(path) = path {
        write!(out, " {name}({path})");
    }
}

fn put_texts(out: &mut AnswerText, name: &str, texts: &Texts) {
    for text in texts.items() {
        write!(out, " {name}({text})");
    }
}

fn put_codes(out: &mut AnswerText, name: &str, codes: &CodeOrLevels) {
    for code in codes.items() {
        write!(out, " {name}({code:?})");
    }
}

fn put_flag(out: &mut AnswerText, name: &str, is_set: bool) {
    if is_set {
        write!(out, " {name}");
    }
}

fn put_check(out: &mut AnswerText, args: &check::CheckArgs) {
    out.put(" check");
    put_path(out, "graph", &args.graph);
    put_flag(out, "hide", args.hide_inclusion_graph);
    put_flag(out, "audit", args.audit_compatible_output);
    put_flag(out, "stats", args.show_stats);
    put_codes(out, "warn", &args.lint_levels.warn);
    put_codes(out, "allow", &args.lint_levels.allow);
    put_codes(out, "deny", &args.lint_levels.deny);
    if let Some(depth) = args.feature_depth {
        write!(out, " depth({depth})");
    }
    for which in args.which.items() {
        write!(out, " {which:?}");
    }
}

fn put_context(out: &mut AnswerText, context: &KrateContext) {
    put_path(out, "metadata", &context.metadata_path);
    put_path(out, "config", &context.config_path);
    put_texts(out, "exclude", &context.exclude);
    put_texts(out, "target", &context.targets);
    put_texts(out, "feature", &context.features);
    put_flag(out, "workspace", context.workspace);
    put_flag(out, "no-default-features", context.no_default_features);
    put_flag(out, "all-features", context.all_features);
    put_flag(out, "frozen", context.frozen);
    put_flag(out, "locked", context.locked);
    put_flag(out, "offline", context.offline);
    put_flag(out, "exclude-dev", context.exclude_dev);
    put_flag(out, "exclude-unpublished", context.exclude_unpublished);
}

/// Puts level, format, colour and manifest of a request, and then what it has beside the defaults.
fn put_request(out: &mut AnswerText, request: &Request) {
    let (log, context) = (&request.log_ctx, &request.krate_ctx);
    write!(out, "{:?} {:?}", log.log_level, log.format);
    write!(out, " {:?} {}", log.color, context.manifest_path);
    put_path(out, "given", &request.manifest_path);
    put_path(out, "catalog", &request.catalog);
    put_path(out, "store", &request.store);
    put_context(out, context);
    match &request.command {
        Subcommand::Check(args) => put_check(out, args),
        Subcommand::List(args) => {
            out.put(" list ");
            args.put(out);
        }
        Subcommand::Sample(size) => write!(out, " sample {size}"),
        Subcommand::Record => out.put(" record"),
        Subcommand::Verify(path) => write!(out, " verify {path}"),
        Subcommand::Bill(args) => {
            let (name, space) = (&args.name, &args.namespace);
            write!(out, " bill {name} {space} {}", args.created);
            put_path(out, "against", &args.against);
        }
        Subcommand::Notice => out.put(" notice"),
        Subcommand::Why(crates) => {
            out.put(" why");
            put_texts(out, "crates", crates);
        }
    }
}

impl Shown<Words> for list::ListArgs {
    fn put(&self, out: &mut AnswerText) {
        let (format, layout) = (self.format, self.layout);
        write!(out, "{} {format:?} {layout:?}", self.threshold);
    }
}

impl Shown<Words> for ArgsError {
    fn put(&self, out: &mut AnswerText) {
        match self {
            ArgsError::BadValue { option, value } => write!(out, "{option}: {value}"),
            _ => out.put("refused"),
        }
    }
}

fn put_listing<'w>(out: &mut AnswerText, alloc: Global, words: &'w [String], command: Command<'w>) {
    match &command.try_get_matches_from(words) {
        Ok(matches) => out.made::<Words, _, _>(list::ListArgs::parse(alloc, matches)),
        Err(_) => out.put("not taken"),
    }
}

/// Puts what words behind `list` ask for.
fn put_list(out: &mut AnswerText, alloc: Global, text: &str) {
    match (words_of(alloc, NAME, text), list::ListArgs::cmd(alloc)) {
        (Ok(words), Ok(command)) => put_listing(out, alloc, &words, command),
        _ => out.want_memory(),
    }
}

/// Puts how many names an option lists, and how many of them are read as a value.
fn put_names<T: FromWord + Drop>(out: &mut AnswerText, rows: &[OptionRow], option: &str) {
    for row in rows {
        if row.name == option
            && let OptionValues::Names(names) = row.values
        {
            let read = names.iter().filter(|name| T::from_word(**name).is_some());
            write!(out, "{} of {}", read.count(), names.len());
        }
    }
}

fn put_option(out: &mut AnswerText, option: &str) {
    match option {
        "log-level" => put_names::<LevelFilter>(out, main_rows(), option),
        "format" => put_names::<Format>(out, main_rows(), option),
        "color" => put_names::<Color>(out, main_rows(), option),
        "check warn" => put_names::<CodeOrLevel>(out, check_rows(), "warn"),
        "check WHICH" => put_names::<WhichCheck>(out, check_rows(), "WHICH"),
        "list format" => put_names::<OutputFormat>(out, list_rows(), "format"),
        _ => put_names::<Layout>(out, list_rows(), "layout"),
    }
}

/// Rows of words, and of the names of options.
pub struct Words;

impl Room for Words {
    fn answer(&self, asked: &Asked<'_>, out: &mut AnswerText) -> Told {
        let (alloc, text) = (asked.alloc, asked.text);
        match asked.group {
            "words" => out.made::<Words, _, _>(given(alloc, NAME, text)),
            "words without the program's name" => out.made::<Words, _, _>(given(alloc, "", text)),
            "words behind list" => put_list(out, alloc, text),
            "names of an option that are read" => put_option(out, text),
            _ => return Told::NoSuchGroup,
        }
        Told::Answer
    }
}

/// Cases of the texts that words are answered with.
pub struct Help;

impl Room for Help {
    fn answer(&self, asked: &Asked<'_>, out: &mut AnswerText) -> Told {
        let words = asked.case.word("words");
        match asked.group {
            "text" => out.made::<Help, _, _>(given(asked.alloc, NAME, words)),
            "words" => return Told::Given,
            _ => return Told::NoSuchGroup,
        }
        Told::Answer
    }
}
