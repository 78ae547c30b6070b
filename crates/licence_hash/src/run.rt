//! A run: what its words ask for, and what the process ends with.
ghost use Rattle.std.specs.Prelude.{◌≡◌, ◌≤◌, ◌&&◌, IfErr, IfOk, OnErr, OnOk};
ghost use Rattle.std.specs.Process.{exit_status};
ghost use Rattle.tree_core.specs.Faults.{Gained, GainedPrefix, IsCounted};
ghost use Rattle.tree_core.specs.Script.{LineWritten};
ghost use Rattle.licence_hash.specs.Run.{Does, DoesSome, asks_help, ending_of, has_none, hash_seen, is_help, usage};
ghost use Rattle.licence_hash.specs.Run.{GivesUp, IsOfWords, StopsSome, StopsWithLine, behind_name, texts, why_line};

use crate::told::{TellError, both, tell_all};
use std::alloc::Global;
use std::env::Env;
use std::io::ErrorKind;
use std::process::ExitCode;
use std::{env, io};
use tree_core::{Sink, SinkFailed, Tree, write_all};

/// How the program is used.
#[tactic(auto, unfolding(crate::specs::Run::usage))]
fn usage() -> &'static str
    ensures { result.now ≡ usage }
{
    "\
usage: licence-hash FILE..
Writes for each file the entry that `license-files` of a clarification or of an exception takes. Run it in the crate's folder,
since such an entry names a file from there on. Status 1: a file is not there, or is no text.
"
}

fn show_usage<S: Sink>(sink: &mut S) -> Result<(), SinkFailed>
    ensures ok { OnOk result (Gained (S.written sink.old) (S.written sink.new) usage) }
    ensures err { OnErr result (GainedPrefix (S.written sink.old) (S.written sink.new) usage) }
    ensures cause { IsCounted (S.fault_count sink.old) (S.fault_count sink.new) result }
{
    write_all(sink, usage().as_bytes())
}

/// The words behind the program's name.
fn behind_name(words: &[String]) -> &[String]
    ensures { texts result.now ≡ behind_name (texts words.now) }
{
    match words.split_first() {
        Some((_, asked)) => asked,
        None => words,
    }
}

fn has_none(asked: &[String]) -> bool
    ensures { result ≡ has_none (texts asked.now) }
{
    match asked.split_first() {
        Some(_) => false,
        None => true,
    }
}

fn is_help(word: &str) -> bool
    ensures { result ≡ is_help word.now }
{
    word == "--help" || word == "-h"
}

/// Whether one word is there, and asks for help.
fn asks_help(asked: &[String]) -> bool
    ensures { result ≡ asks_help (texts asked.now) }
{
    match asked.split_first() {
        Some((word, more)) => both(has_none(more), is_help(word.as_str())),
        None => false,
    }
}

/// Does what the words behind the program's name ask for, and says whether all of it was done.
fn do_asked<T: Tree, O: Sink, E: Sink>(
    alloc: Global,
    asked: &[String],
    tree: &mut T,
    out: &mut O,
    err: &mut E,
) -> Result<bool, TellError>
    ensures does { IfOk result (Does (texts asked.now) (hash_seen T.trace O.written O.fault_count E.written E.fault_count
        tree.old out.old err.old tree.new out.new err.new)) }
    ensures gives_up { IfErr result (GivesUp (texts asked.now) (hash_seen T.trace O.written O.fault_count E.written E.fault_count
        tree.old out.old err.old tree.new out.new err.new)) }
{
    if has_none(asked) {
        show_usage(err)?;
        return Ok(false);
    }
    if asks_help(asked) {
        show_usage(out)?;
        return Ok(true);
    }
    let all = tell_all(alloc, tree, out, err, asked)?;
    Ok(all)
}

/// Why the words could not be read.
fn words_error(error: &io::Error) -> TellError
    ensures { IsOfWords result }
{
    if error.kind() == ErrorKind::OutOfMemory {
        TellError::Memory
    } else {
        TellError::Words
    }
}

fn words_of<V: Env + AllocGlobal>(env: &V) -> Result<Vec<String>, TellError>
    ensures { IfErr result IsOfWords }
{
    match env::args(env) {
        Ok(told) => {
            let words = told.collect(env.alloc())?;
            Ok(words)
        }
        Err(error) => Err(words_error(&error)),
    }
}

/// Does what the words of an environment ask for.
fn do_words<V: Env + AllocGlobal, T: Tree, O: Sink, E: Sink>(
    env: &V,
    tree: &mut T,
    out: &mut O,
    err: &mut E,
) -> Result<bool, TellError>
    ensures does { IfOk result (DoesSome (hash_seen T.trace O.written O.fault_count E.written E.fault_count
        tree.old out.old err.old tree.new out.new err.new)) }
    ensures stops { IfErr result (StopsSome (hash_seen T.trace O.written O.fault_count E.written E.fault_count
        tree.old out.old err.old tree.new out.new err.new)) }
{
    let words = words_of(env)?;
    let is_done = do_asked(env.alloc(), behind_name(&words), tree, out, err)?;
    Ok(is_done)
}

/// The line that says why the program gave up.
#[tactic(auto, unfolding(crate::specs::Run::why_line))]
fn line_of(error: TellError) -> &'static str
    ensures { result.now ≡ why_line error }
{
    match error {
        TellError::Words => "licence-hash: the words could not be read\n",
        TellError::Memory => "licence-hash: out of memory\n",
        TellError::Write => "licence-hash: writing failed\n",
    }
}

/// Writes the line that says why the program gave up. A sink that refuses it changes nothing in the answer.
fn write_line<E: Sink>(err: &mut E, error: TellError)
    ensures later { E.fault_count err.old ≤ E.fault_count err.new }
    ensures written { LineWritten (E.written err.old) (E.written err.new)
        (E.fault_count err.old) (E.fault_count err.new) (why_line error) }
{
    let _ = write_all(err, line_of(error).as_bytes());
}

/// Does what the words of an environment ask for, each of them behind the first, and says whether all of it was
/// done. Where it was given up, a line on `err` says why.
pub fn hash_over<V: Env + AllocGlobal, T: Tree, O: Sink, E: Sink>(
    env: &V,
    tree: &mut T,
    out: &mut O,
    err: &mut E,
) -> Result<bool, TellError>
    ensures does { IfOk result (DoesSome (hash_seen T.trace O.written O.fault_count E.written E.fault_count
        tree.old out.old err.old tree.new out.new err.new)) }
    ensures stops { IfErr result (StopsWithLine (hash_seen T.trace O.written O.fault_count E.written E.fault_count
        tree.old out.old err.old tree.new out.new err.new)) }
{
    match do_words(env, tree, out, err) {
        Ok(is_done) => Ok(is_done),
        Err(error) => {
            write_line(err, error);
            Err(error)
        }
    }
}

/// What the process ends with: 0 where all that the words ask for was done.
pub fn exit_code(ended: &Result<bool, TellError>) -> ExitCode
    ensures { exit_status result ≡ ending_of ended.now }
{
    match ended {
        Ok(true) => ExitCode::from(0),
        Ok(false) | Err(_) => ExitCode::from(1),
    }
}
