//! The gate over the words that an environment tells, a tree and two sinks.
//! Called by `cargo_deny` and `tests_start`; words, folder and store may be asked for in any order.
#![tactic(auto)]

ghost use Rattle.std.specs.Prelude.{◌≡◌, ◌≤◌, IfOk, IfErr, OnOk, OnErr};
ghost use Rattle.std.specs.Path.{path_buf_bytes};
ghost use Rattle.std.specs.Process.{exit_status};
ghost use Rattle.spdx_terms.specs.catalog.BuiltIn.{built_in};
ghost use Rattle.tree_core.specs.Script.{LineWritten};
ghost use Rattle.run_request.specs.Given.{texts};
ghost use Rattle.deny_run.specs.Run as run;
ghost use Rattle.deny_gate.specs.Start.{IsGate, IsGateRun, IsKept, RunsAndTells, ending_of, start_line};
ghost use Rattle.run_found.specs.Hearing.{seen_between, HasMade};
ghost use Rattle.run_found.specs.Written.{sink_between};
ghost use Rattle.deny_run.specs.Seen.{run_seen};

mod behind;
mod named;

use behind::{is_whole, tell_behind};
use deny_run::Outcome;
use deny_run::run::run;
pub use named::named_paths;
use spdx_core::{LicenseStore, Table};
use std::alloc::{AllocError, Global};
use std::env::Env;
use std::io::ErrorKind;
use std::process::ExitCode;
use std::{env, io, path};
use tree_core::{NamesPaths, Sink, Tree, write_all};

/// Why the gate could not begin.
#[derive(Clone, Copy, Debug, PartialEq, Eq)]
pub enum StartError {
    Memory,
    /// A word that the process was given is no UTF-8, or the words were not reported.
    Words,
    /// The folder that the process was started in was not reported.
    Folder,
}

impl StartError {
    /// The line that is written, with its line end.
    pub fn line(&self) -> &'static str
        ensures { result.now ≡ start_line self.now }
    {
        match self {
            StartError::Memory => "error: out of memory\n",
            StartError::Words => "error: the words could not be read\n",
            StartError::Folder => "error: the working folder could not be read\n",
        }
    }
}

impl From<AllocError> for StartError {
    ghost use Rattle.deny_gate.specs.declared.StartError.TheVariants.{Memory};

    ghost from_gives = { λ _ error. error ≡ Memory };

    fn from(_: AllocError) -> StartError {
        StartError::Memory
    }
}

/// What a process is started with.
#[derive(Drop)]
struct Start {
    words: Vec<String>,
    folder: path::PathBuf,
    store: LicenseStore,
}

/// What a refusal of the environment is, where it is not want of memory.
fn start_error(error: &io::Error, other: StartError) -> StartError {
    if error.kind() == ErrorKind::OutOfMemory {
        StartError::Memory
    } else {
        other
    }
}

fn words_of<V: Env + AllocGlobal>(env: &V) -> Result<Vec<String>, StartError> {
    let told = match env::args(env) {
        Ok(told) => told,
        Err(error) => return Err(start_error(&error, StartError::Words)),
    };
    let words = told.collect(env.alloc())?;
    Ok(words)
}

fn folder_of<V: Env + AllocGlobal>(env: &V) -> Result<path::PathBuf, StartError> {
    match env::current_dir(env) {
        Ok(folder) => Ok(folder),
        Err(error) => Err(start_error(&error, StartError::Folder)),
    }
}

/// The words, the folder, and the store of the built-in licence texts. The tree gets the paths that the words
/// name, and nothing else of it changes.
fn start_of<V: Env + AllocGlobal, T: NamesPaths>(env: &V, tree: &mut T) -> Result<Start, StartError>
    ensures store { IfOk result (λ start. start.store ≡ built_in) }
    ensures kept { IsKept (seen_between T.content T.fault_count T.trace tree.old tree.new) }
{
    let words = words_of(env)?;
    let folder = folder_of(env)?;
    let store = LicenseStore::from_cache(env.alloc())?;
    let named = named_paths(env.alloc(), &words, folder.as_str())?;
    tree.name_paths(named);
    Ok(Start {
        words,
        folder,
        store,
    })
}

/// Writes the line of a gate that could not begin. A sink that refuses it changes nothing in the answer.
fn write_line<E: Sink>(err: &mut E, error: &StartError)
    ensures later { E.fault_count err.old ≤ E.fault_count err.new }
    ensures written { LineWritten (E.written err.old) (E.written err.new)
        (E.fault_count err.old) (E.fault_count err.new) (start_line error.now) }
{
    let _ = write_all(err, error.line().as_bytes());
}

/// Runs the gate as a process was started.
fn run_started<T: Tree, O: Sink, E: Sink>(
    alloc: Global,
    start: &Start,
    tree: &mut T,
    out: &mut O,
    err: &mut E,
) -> Outcome
    requires { start.now.store ≡ built_in }
    ensures { IsGateRun (texts start.now.words.items) (path_buf_bytes start.now.folder)
        (run_seen (seen_between T.content T.fault_count T.trace tree.old tree.new)
        (sink_between O.written O.fault_count out.old out.new)
        (sink_between E.written E.fault_count err.old err.new)) result }
{
    run(
        alloc,
        &start.words,
        start.folder.as_str(),
        tree,
        out,
        err,
        &Table,
        &start.store,
    )
}

/// Runs the gate as a process was started, and tells the help of a refusal behind it.
fn run_told<T: Tree, O: Sink, E: Sink>(
    alloc: Global,
    start: &Start,
    tree: &mut T,
    out: &mut O,
    err: &mut E,
) -> Outcome
    requires { start.now.store ≡ built_in }
    ensures made { HasMade (seen_between T.content T.fault_count T.trace tree.old tree.new) }
    ensures ran { RunsAndTells (texts start.now.words.items) (path_buf_bytes start.now.folder)
        (run_seen (seen_between T.content T.fault_count T.trace tree.old tree.new)
        (sink_between O.written O.fault_count out.old out.new)
        (sink_between E.written E.fault_count err.old err.new)) result }
    ensures status { result.status ≡ run.exit_status result.ended }
{
    let begun = err.faults();
    let outcome = run_started(alloc, start, tree, out, err);
    let is_whole = is_whole(begun, err.faults());
    tell_behind(alloc, &outcome, is_whole, tree, err);
    outcome
}

/// The start of a process. Where the environment does not tell it, one line on `err` says so.
fn started<V: Env + AllocGlobal, T: NamesPaths, E: Sink>(
    env: &V,
    tree: &mut T,
    err: &mut E,
) -> Result<Start, StartError>
    ensures kept { IsKept (seen_between T.content T.fault_count T.trace tree.old tree.new) }
    ensures store { IfOk result (λ start. start.store ≡ built_in) }
    ensures line { IfErr result (λ error. LineWritten (E.written err.old) (E.written err.new)
        (E.fault_count err.old) (E.fault_count err.new) (start_line error)) }
    ensures silent { OnOk result ((E.written err.new ≡ E.written err.old)
        × (E.fault_count err.new ≡ E.fault_count err.old)) }
{
    match start_of(env, tree) {
        Ok(start) => Ok(start),
        Err(error) => {
            write_line(err, &error);
            Err(error)
        }
    }
}

/// Runs the gate over the words of an environment, in its working folder, with the built-in catalogue and
/// licence texts; the tree gets the paths that the words name. Where the environment does not tell words or
/// folder, one line on `err` says so.
pub fn gate_over<V: Env + AllocGlobal, T: NamesPaths, O: Sink, E: Sink>(
    env: &V,
    tree: &mut T,
    out: &mut O,
    err: &mut E,
) -> Result<Outcome, StartError>
    ensures { IsGate (run_seen (seen_between T.content T.fault_count T.trace tree.old tree.new)
        (sink_between O.written O.fault_count out.old out.new)
        (sink_between E.written E.fault_count err.old err.new)) result }
{
    let start = started(env, tree, err)?;
    Ok(run_told(env.alloc(), &start, tree, out, err))
}

/// What the process ends with: the status of the run, or 1 where the gate could not begin.
pub fn exit_code(ended: &Result<Outcome, StartError>) -> ExitCode
    ensures { exit_status result ≡ ending_of ended.now }
{
    match ended {
        Ok(outcome) => ExitCode::from(outcome.status),
        Err(_) => ExitCode::from(1),
    }
}
