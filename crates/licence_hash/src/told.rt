//! What is written of the files that words name.
ghost use Rattle.std.specs.Prelude.{◌≡◌, ◌&&◌, ◌∷◌, [], map, IfErr, IfOk, is_ok};
ghost use Rattle.std.specs.String.{string_bytes};
ghost use Rattle.tree_core.specs.Faults.{Gained};
ghost use Rattle.licence_hash.specs.Told.{AreTold, err_text, fault_words, out_text, refusal_of};
ghost use Rattle.licence_hash.specs.Told.{AreLater, IsCaused, IsCutAmong, IsCutAt, IsCutText, sink_faults};

use crate::entry::entry_of;
use std::alloc::{AllocError, Global};
use tree_core::texts::{ReadFault, TextHeard, read_file_text};
use tree_core::{Sink, SinkFailed, Tree, write_all};

/// Why the program gave up.
#[derive(Clone, Copy, Debug, PartialEq, Eq)]
pub enum TellError {
    Memory,
    /// A sink refused a write.
    Write,
    /// The words were not reported, or one is no UTF-8.
    Words,
}

impl From<AllocError> for TellError {
    ghost use Rattle.licence_hash.specs.declared.told.TellError.TheVariants.{Memory};

    ghost from_gives = { λ _ error. error ≡ Memory };

    fn from(_: AllocError) -> TellError {
        TellError::Memory
    }
}

impl From<SinkFailed> for TellError {
    ghost use Rattle.licence_hash.specs.declared.told.TellError.TheVariants.{Write};

    ghost from_gives = { λ _ error. error ≡ Write };

    fn from(_: SinkFailed) -> TellError {
        TellError::Write
    }
}

/// Why a file has no entry.
#[tactic(auto, unfolding(crate::specs::Told::fault_words))]
fn fault_words(fault: &ReadFault) -> &'static str
    ensures { result.now ≡ fault_words fault.now }
{
    match fault {
        ReadFault::Failed { .. } => "could not be read",
        ReadFault::Absent => "there is no such file",
        ReadFault::Folder => "is a folder",
        ReadFault::NotUtf8 { .. } => "is no UTF-8, so no clarification can hold by it",
    }
}

/// The line of a file that has no entry.
fn refusal_of(alloc: Global, path: &str, words: &str) -> Result<String, AllocError>
    ensures { IfOk result (λ line. string_bytes line ≡ refusal_of path.now words.now) }
{
    let mut line = String::from_str(alloc, "licence-hash: ")?;
    line.push_str(path)?;
    line.push_str(": ")?;
    line.push_str(words)?;
    line.push_str("\n")?;
    Ok(line)
}

/// Writes what is read of a file: its entry, or why it has none. Says whether it has one.
fn write_heard<O: Sink, E: Sink>(
    alloc: Global,
    out: &mut O,
    err: &mut E,
    path: &str,
    heard: &TextHeard,
) -> Result<bool, TellError>
    ensures out { IfOk result (λ _. Gained (O.written out.old) (O.written out.new) (out_text path.now heard.now)) }
    ensures err { IfOk result (λ _. Gained (E.written err.old) (E.written err.new) (err_text path.now heard.now)) }
    ensures told { IfOk result (λ is_told. is_told ≡ is_ok heard.now) }
    ensures cut { IfErr result (λ error. IsCutText error path.now heard.now
        (record { out = O.written out.old; err = E.written err.old })
        (record { out = O.written out.new; err = E.written err.new })) }
    ensures cause { IfErr result
        (IsCaused (sink_faults O.fault_count E.fault_count out.old err.old out.new err.new)) }
    ensures later { AreLater (sink_faults O.fault_count E.fault_count out.old err.old out.new err.new) }
{
    match heard {
        Ok(text) => {
            let line = entry_of(alloc, path, text.as_str())?;
            write_all(out, &line)?;
            Ok(true)
        }
        Err(fault) => {
            let line = refusal_of(alloc, path, fault_words(fault))?;
            write_all(err, line.as_bytes())?;
            Ok(false)
        }
    }
}

/// Reads a file and writes what is read of it. Says whether it has an entry.
pub fn tell<T: Tree, O: Sink, E: Sink>(
    alloc: Global,
    tree: &mut T,
    out: &mut O,
    err: &mut E,
    path: &str,
) -> Result<bool, TellError>
    ensures told { IfOk result (λ all. AreTold (path.now ∷ []) (T.trace tree.old) (T.trace tree.new)
        (record { out = O.written out.old; err = E.written err.old })
        (record { out = O.written out.new; err = E.written err.new }) all) }
    ensures cut { IfErr result (λ error. IsCutAt error path.now (T.trace tree.old) (T.trace tree.new)
        (record { out = O.written out.old; err = E.written err.old })
        (record { out = O.written out.new; err = E.written err.new })) }
    ensures cause { IfErr result
        (IsCaused (sink_faults O.fault_count E.fault_count out.old err.old out.new err.new)) }
    ensures later { AreLater (sink_faults O.fault_count E.fault_count out.old err.old out.new err.new) }
{
    let before = tree.faults();
    let heard = read_file_text(alloc, tree, path, before)?;
    let is_told = write_heard(alloc, out, err, path, &heard)?;
    Ok(is_told)
}

pub fn both(first: bool, second: bool) -> bool
    ensures { result ≡ (first && second) }
{
    first && second
}

/// Does so for each of the files in order. Says whether each has an entry.
pub fn tell_all<T: Tree, O: Sink, E: Sink>(
    alloc: Global,
    tree: &mut T,
    out: &mut O,
    err: &mut E,
    paths: &[String],
) -> Result<bool, TellError>
    ensures told { IfOk result (λ all. AreTold (map (λ path. string_bytes path) paths.now)
        (T.trace tree.old) (T.trace tree.new)
        (record { out = O.written out.old; err = E.written err.old })
        (record { out = O.written out.new; err = E.written err.new }) all) }
    ensures cut { IfErr result (λ error. IsCutAmong error (map (λ path. string_bytes path) paths.now)
        (T.trace tree.old) (T.trace tree.new)
        (record { out = O.written out.old; err = E.written err.old })
        (record { out = O.written out.new; err = E.written err.new })) }
    ensures cause { IfErr result
        (IsCaused (sink_faults O.fault_count E.fault_count out.old err.old out.new err.new)) }
    ensures later { AreLater (sink_faults O.fault_count E.fault_count out.old err.old out.new err.new) }
{
    let mut all = true;
    'paths: for path in paths {
        let one = tell(alloc, tree, out, err, path.as_str())?;
        all = both(all, one);
    }
    Ok(all)
}
