//! The load of a policy.
ghost use Rattle.std.specs.Prelude.{◌≡◌, ◌≢◌, ◌^◌, ◌<◌, ◌≤◌, ◌⊎◌, ◌++◌, ◌∷◌, [], length, map, None, Some, Err};
ghost use Rattle.std.specs.Prelude.{IfOk, IfErr, OnOk, OnErr};
ghost use Rattle.std.specs.Option.{ForSome, option_and_then, option_copied};
ghost use Rattle.std.specs.Str.{IsUtf8};
ghost use Rattle.tree_core.specs.Faults.{Gained, GainedPrefix};
ghost use Rattle.tree_core.specs.Hearing.{MadeSome};
ghost use Rattle.tree_core.specs.texts.Cause.{ReadCounts, heard_cause};
ghost use Rattle.tree_core.specs.declared.texts.fault.ReadFault.{ReadFault};
ghost use Rattle.diag_core.specs.File.{Grows, file_id_at};
ghost use Rattle.policy_core.specs.text.Config as config;
ghost use Rattle.policy_core.specs.Exceptions.{shape_diagnostic};
ghost use Rattle.policy_core.specs.Places.{IsConfigPlaced, PointInto, PolicyStands};
ghost use Rattle.policy_core.specs.Policy.{absence_findings};
ghost use Rattle.policy_load.specs.Answer.{Comes, EndsLoad, IsBehindRead, IsUnprinted};
ghost use Rattle.policy_load.specs.Answer.{Prints, WriteCounts, load_cause, refused_by};
ghost use Rattle.policy_load.specs.Answer.{IsCutLoad, LoadsBy, LoadsPolicyBy, LoadsRootBy};
ghost use Rattle.policy_load.specs.Answer.{LoadsTextBy, MayReadFurther};
ghost use Rattle.policy_load.specs.Heard.{IsPolicyRead, IsReadOf, MayReadOf, MayReadPolicy};
ghost use Rattle.policy_load.specs.Load.{policy_file, policy_name, refusal_findings, with_policy};
ghost use Rattle.diag_print.specs.Findings.{AreInside, HasReasonSince, printed_findings};

use crate::error::LoadError;
use deny_text::{PathBuf, Text};
use diag_core::{FileId, Files};
use diag_print::findings::{has_error, print_findings};
use diag_print::{LogContext, PrintError};
use policy_core::text::{
    ConfigError, ConfigText, ReadFault, RootConfig, ShapeErrors, TextHeard, read_config,
};
use policy_core::{
    Diagnostics, ExceptionsHeard, LoadedPolicy, PolicySource, take_exceptions, tell_settings,
    tell_shape, validate_policy,
};
use spdx_core::Catalog;
use std::alloc::{AllocError, Global};
use tree_core::texts::read_file_text;
use tree_core::{Sink, Tree};

/// Where the two files of a policy are, if anywhere.
#[derive(Drop)]
pub struct PolicyPaths {
    pub policy: Option<PathBuf>,
    pub exceptions: Option<PathBuf>,
}

/// What is read of the policy's file; where there is no path it is absent.
fn hear<T: Tree>(
    alloc: Global,
    tree: &mut T,
    path: &Option<PathBuf>,
    begun: u64,
) -> Result<TextHeard, AllocError>
    requires { begun ≤ T.fault_count tree.old }
    ensures read { IfOk result (IsPolicyRead begun (T.fault_count tree.new)
        (T.trace tree.old) (T.trace tree.new) path.now) }
    ensures no_memory { OnErr result (MayReadPolicy (T.trace tree.old) (T.trace tree.new) path.now) }
    ensures made { MadeSome (T.content tree.old) (T.content tree.new) (T.fault_count tree.old)
        (T.fault_count tree.new) (T.trace tree.old) (T.trace tree.new) }
    ensures counts { IfOk result (λ heard.
        ReadCounts begun (T.fault_count tree.old) (T.fault_count tree.new) (heard_cause heard)) }
{
    match path {
        Some(path) => read_file_text(alloc, tree, path.as_path(), begun),
        None => Ok(Err(ReadFault::Absent)),
    }
}

/// The name of the policy's file.
fn name_of(alloc: Global, path: &Option<PathBuf>) -> Result<PathBuf, AllocError>
    ensures { IfOk result (λ name. name ≡ policy_name path.now) }
{
    match path {
        Some(path) => PathBuf::copy(alloc, path.as_path()),
        None => PathBuf::copy(alloc, "deny.default.toml"),
    }
}

/// Adds the policy's text.
fn add_policy(
    alloc: Global,
    path: &Option<PathBuf>,
    text: Text,
    files: &mut Files,
) -> Result<FileId, AllocError>
    requires { file_id_at files.old (policy_name path.now) ≡ None }
    ensures number { IfOk result (λ id. id ≡ length files.old) }
    ensures ok { OnOk result (files.new ≡ files.old ++ policy_file path.now text ∷ []) }
    ensures fits { OnOk result (length text < 2 ^ 64) }
    ensures err { OnErr result (files.new ≡ files.old) }
{
    let name = name_of(alloc, path)?;
    match files.add_indexed(name, text) {
        Ok(id) => Ok(id),
        Err(_) => Err(AllocError),
    }
}

fn path_text(path: &Option<PathBuf>) -> Option<&str>
    ensures { option_copied result ≡ path.now }
{
    match path {
        Some(path) => Some(path.as_path()),
        None => None,
    }
}

/// Prints what is wrong with the shape of a policy.
fn print_faults<S: Sink>(
    alloc: Global,
    file: FileId,
    faults: &ShapeErrors,
    files: &Files,
    context: LogContext,
    sink: &mut S,
) -> Result<(), PrintError>
    requires { AreInside files.now (map (shape_diagnostic file) faults.now) }
    ensures ok { OnOk result (Gained (S.written sink.old) (S.written sink.new)
        (printed_findings context files.now (map (shape_diagnostic file) faults.now))) }
    ensures err { OnErr result (GainedPrefix (S.written sink.old) (S.written sink.new)
        (printed_findings context files.now (map (shape_diagnostic file) faults.now))) }
    ensures reason { IfErr result (HasReasonSince (S.fault_count sink.old) (S.fault_count sink.new)) }
    ensures later { S.fault_count sink.old ≤ S.fault_count sink.new }
{
    let mut found = Diagnostics::new(alloc);
    tell_shape(alloc, file, faults, &mut found)?;
    print_findings(alloc, context, &found, files, sink)
}

/// The refusal of a policy's text. What is wrong with its shape is printed before.
fn refuse<S: Sink>(
    alloc: Global,
    file: FileId,
    refused: ConfigError,
    files: &Files,
    context: LogContext,
    sink: &mut S,
) -> LoadError
    requires { AreInside files.now (refusal_findings file refused) }
    ensures comes { Comes (refused_by file refused) context files.now files.now
        (S.written sink.old) (S.written sink.new) (Err result) }
    ensures quiet { refused ≡ ConfigError.Memory
        → IsUnprinted (S.written sink.old) (S.written sink.new) (Err result) }
    ensures of_text { config.IsOfText refused → IsBehindRead result }
    ensures writes { WriteCounts (S.fault_count sink.old) (S.fault_count sink.new) (load_cause result) }
    ensures later { S.fault_count sink.old ≤ S.fault_count sink.new }
{
    match refused {
        ConfigError::ConfigShape(faults) => {
            match print_faults(alloc, file, &faults, files, context, sink) {
                Ok(()) => LoadError::ConfigShape(faults),
                Err(error) => LoadError::from(error),
            }
        }
        ConfigError::Memory => LoadError::Memory,
        ConfigError::ConfigRead(fault) => LoadError::ConfigRead(fault),
        ConfigError::ConfigSyntax(fault) => LoadError::ConfigSyntax(fault),
        ConfigError::NotCarried => LoadError::NotCarried,
    }
}

/// Prints what was reported of a policy, which is refused where one of the findings is an error.
fn finish<S: Sink>(
    alloc: Global,
    policy: LoadedPolicy,
    found: Diagnostics,
    files: &Files,
    context: LogContext,
    sink: &mut S,
) -> Result<LoadedPolicy, LoadError>
    requires { AreInside files.now found }
    ensures ends { EndsLoad policy found result }
    ensures prints { Prints (S.written sink.old) (S.written sink.new)
        (printed_findings context files.now found) result }
    ensures of_text { IfErr result IsBehindRead }
    ensures writes { IfErr result (λ error.
        WriteCounts (S.fault_count sink.old) (S.fault_count sink.new) (load_cause error)) }
    ensures later { S.fault_count sink.old ≤ S.fault_count sink.new }
{
    print_findings(alloc, context, &found, files, sink)?;
    if has_error(&found) {
        return Err(LoadError::ConfigInvalid(found));
    }
    Ok(policy)
}

/// What is read of the exceptions file at a path. A known file that has the path is the policy, which is not
/// read for a second time.
fn hear_at<T: Tree>(
    alloc: Global,
    tree: &mut T,
    path: PathBuf,
    files: &Files,
) -> Result<ExceptionsHeard, AllocError>
    ensures read { IfOk result (IsReadOf (T.fault_count tree.old) (T.fault_count tree.new)
        (T.trace tree.old) (T.trace tree.new) files.now (Some path)) }
    ensures no_memory { OnErr result (MayReadOf (T.trace tree.old) (T.trace tree.new) files.now (Some path)) }
    ensures made { MadeSome (T.content tree.old) (T.content tree.new) (T.fault_count tree.old)
        (T.fault_count tree.new) (T.trace tree.old) (T.trace tree.new) }
{
    if files.id_for_path(path.as_path()).is_some() {
        return Ok(ExceptionsHeard::ThePolicy(path));
    }
    let begun = tree.faults();
    let text = read_file_text(alloc, tree, path.as_path(), begun)?;
    Ok(ExceptionsHeard::Heard(path, text))
}

/// What is read of the exceptions file, if there is a path.
fn hear_exceptions<T: Tree>(
    alloc: Global,
    tree: &mut T,
    path: Option<PathBuf>,
    files: &Files,
) -> Result<ExceptionsHeard, AllocError>
    ensures read { IfOk result (IsReadOf (T.fault_count tree.old) (T.fault_count tree.new)
        (T.trace tree.old) (T.trace tree.new) files.now path) }
    ensures no_memory { OnErr result (MayReadOf (T.trace tree.old) (T.trace tree.new) files.now path) }
    ensures made { MadeSome (T.content tree.old) (T.content tree.new) (T.fault_count tree.old)
        (T.fault_count tree.new) (T.trace tree.old) (T.trace tree.new) }
{
    match path {
        Some(path) => hear_at(alloc, tree, path, files),
        None => Ok(ExceptionsHeard::NoPath),
    }
}

/// The policy that a file's text was read as, with the exceptions of its exceptions file, which is read once
/// the policy is validated; all that is reported of the two goes behind the findings so far.
///
/// The path of the policy's file, and no other one, may be equal to that of the exceptions file, part by
/// part. It is refused for want of memory alone.
fn load_policy<T: Tree, C: Catalog>(
    alloc: Global,
    source: &PolicySource<'_>,
    root: RootConfig,
    exceptions_path: Option<PathBuf>,
    tree: &mut T,
    files: &mut Files,
    found: &mut Diagnostics,
    catalog: &C,
) -> Result<LoadedPolicy, AllocError>
    requires exceptions { ForSome (option_and_then (file_id_at files.old) exceptions_path)
        (λ id. id ≡ source.now.file_id) }
    requires placed { IsConfigPlaced files.old source.now.file_id root }
    ensures read { IfOk result (LoadsPolicyBy (C.lists catalog.now) (T.fault_count tree.old)
        (T.fault_count tree.new) (T.trace tree.old) (T.trace tree.new) source.now.file_id
        (absence_findings source.now.is_there (option_copied source.now.path)) root exceptions_path
        (record { files = files.old; found = found.old }) (record { files = files.new; found = found.new })) }
    ensures labels { OnOk result (PointInto files.old found.old → PointInto files.new found.new) }
    ensures places { IfOk result (λ loaded. PolicyStands files.new loaded.licenses) }
    ensures no_memory { OnErr result
        (MayReadOf (T.trace tree.old) (T.trace tree.new) files.old exceptions_path) }
    ensures grows { Grows files.old files.new }
    ensures made { MadeSome (T.content tree.old) (T.content tree.new) (T.fault_count tree.old)
        (T.fault_count tree.new) (T.trace tree.old) (T.trace tree.new) }
{
    let mut root = root;
    let said = root.licenses.take();
    let mut licenses = validate_policy(alloc, source, said, files, found, catalog)?;
    let heard = hear_exceptions(alloc, tree, exceptions_path, files)?;
    take_exceptions(alloc, &mut licenses, heard, files, found, catalog)?;
    tell_settings(alloc, source.file_id, &root, found)?;
    Ok(LoadedPolicy {
        licenses,
        graph: root.graph,
        output: root.output,
    })
}

/// A policy that has its shape, whose file is known: it is validated, its exceptions file is read, and what
/// is reported of the two is printed.
fn load_root<T: Tree, S: Sink, C: Catalog>(
    alloc: Global,
    paths: PolicyPaths,
    file_id: FileId,
    is_there: bool,
    root: RootConfig,
    files: &mut Files,
    context: LogContext,
    tree: &mut T,
    sink: &mut S,
    catalog: &C,
) -> Result<LoadedPolicy, LoadError>
    requires exceptions { ForSome (option_and_then (file_id_at files.old) paths.exceptions) (λ id. id ≡ file_id) }
    requires placed { IsConfigPlaced files.old file_id root }
    ensures places { IfOk result (λ loaded. PolicyStands files.new loaded.licenses) }
    ensures reads { (IsUnprinted (S.written sink.old) (S.written sink.new) result
        × MayReadOf (T.trace tree.old) (T.trace tree.new) files.old paths.exceptions)
        ⊎ LoadsRootBy (C.lists catalog.now) context file_id (absence_findings is_there paths.policy) root
        paths.exceptions (T.fault_count tree.old) (T.fault_count tree.new) (T.trace tree.old) (T.trace tree.new)
        files.old files.new (S.written sink.old) (S.written sink.new) result }
    ensures made { MadeSome (T.content tree.old) (T.content tree.new) (T.fault_count tree.old)
        (T.fault_count tree.new) (T.trace tree.old) (T.trace tree.new) }
    ensures grows { Grows files.old files.new }
    ensures of_text { IfErr result IsBehindRead }
    ensures writes { IfErr result (λ error.
        WriteCounts (S.fault_count sink.old) (S.fault_count sink.new) (load_cause error)) }
    ensures later { S.fault_count sink.old ≤ S.fault_count sink.new }
{
    let PolicyPaths { policy, exceptions } = paths;
    let source = PolicySource {
        file_id,
        path: path_text(&policy),
        is_there,
    };
    let mut found = Diagnostics::new(alloc);
    let loaded = load_policy(
        alloc, &source, root, exceptions, tree, files, &mut found, catalog,
    )?;
    finish(alloc, loaded, found, files, context, sink)
}

/// The policy that a text is, as it is written.
fn read_text<C: Catalog>(alloc: Global, text: &str, catalog: &C) -> Result<RootConfig, ConfigError>
    ensures told { config.AnswersConfig (config.config_of_text (C.lists catalog.now) text.now) result }
    ensures of_text { IfErr result config.IsOfText }
    ensures utf8 { IsUtf8 text.now }
{
    read_config(alloc, text, catalog)
}

/// The policy of a text that was read.
fn load_text<T: Tree, S: Sink, C: Catalog>(
    alloc: Global,
    paths: PolicyPaths,
    found: ConfigText,
    files: &mut Files,
    context: LogContext,
    tree: &mut T,
    sink: &mut S,
    catalog: &C,
) -> Result<LoadedPolicy, LoadError>
    requires policy { file_id_at files.old (policy_name paths.policy) ≡ None }
    requires exceptions { option_and_then (file_id_at files.old) paths.exceptions ≡ None }
    ensures places { IfOk result (λ loaded. PolicyStands files.new loaded.licenses) }
    ensures reads { (IsUnprinted (S.written sink.old) (S.written sink.new) result
        × MayReadFurther (T.trace tree.old) (T.trace tree.new) (with_policy files.old paths found)
        paths.exceptions (config.config_of_text (C.lists catalog.now) found.text))
        ⊎ LoadsTextBy (C.lists catalog.now) context paths found (T.fault_count tree.old)
        (T.fault_count tree.new) (T.trace tree.old) (T.trace tree.new)
        files.old files.new (S.written sink.old) (S.written sink.new) result }
    ensures made { MadeSome (T.content tree.old) (T.content tree.new) (T.fault_count tree.old)
        (T.fault_count tree.new) (T.trace tree.old) (T.trace tree.new) }
    ensures grows { Grows files.old files.new }
    ensures of_text { IfErr result IsBehindRead }
    ensures writes { IfErr result (λ error.
        WriteCounts (S.fault_count sink.old) (S.fault_count sink.new) (load_cause error)) }
    ensures later { S.fault_count sink.old ≤ S.fault_count sink.new }
{
    let ConfigText { text, is_there } = found;
    let config = read_text(alloc, text.as_str(), catalog);
    let file_id = add_policy(alloc, &paths.policy, text, files)?;
    match config {
        Ok(root) => load_root(
            alloc, paths, file_id, is_there, root, files, context, tree, sink, catalog,
        ),
        Err(refused) => Err(refuse(alloc, file_id, refused, files, context, sink)),
    }
}

/// Loads a policy: its file is read, parsed and validated, its exceptions file is read, the texts are added
/// to `files`, and what is reported of them is printed at the context's format and level. A policy that is
/// absent is empty, under its own path, or as `deny.default.toml` where there is no path. `begun` is the
/// tree's count of faults when the run began.
///
/// No file that is known may have the path of one of the two. Files that are known keep their texts, whatever
/// it answers; after want of memory nothing is said of those that were added.
pub fn load<T: Tree, S: Sink, C: Catalog>(
    alloc: Global,
    paths: PolicyPaths,
    files: &mut Files,
    context: LogContext,
    tree: &mut T,
    sink: &mut S,
    catalog: &C,
    begun: u64,
) -> Result<LoadedPolicy, LoadError>
    requires begun { begun ≤ T.fault_count tree.old }
    requires policy { file_id_at files.old (policy_name paths.policy) ≡ None }
    requires exceptions { option_and_then (file_id_at files.old) paths.exceptions ≡ None }
    ensures there { result ≢ Err (LoadError.ConfigRead ReadFault.Absent) }
    // Each place that the policy keeps lies in its file.
    ensures places { IfOk result (λ loaded. PolicyStands files.new loaded.licenses) }

    // Its files were read, each where it was due, and no other call was made; what the answers say is
    // answered, added and printed, and nothing else.
    ensures reads { IsCutLoad (C.lists catalog.now) begun (T.trace tree.old) (T.trace tree.new) files.old
        paths (S.written sink.old) (S.written sink.new) result
        ⊎ LoadsBy (C.lists catalog.now) context paths begun (T.fault_count tree.old) (T.fault_count tree.new)
        (T.trace tree.old) (T.trace tree.new) files.old files.new
        (S.written sink.old) (S.written sink.new) result }
    ensures grows { Grows files.old files.new }

    // The tree stays as it was, and a failed read or write has a cause.
    ensures made { MadeSome (T.content tree.old) (T.content tree.new) (T.fault_count tree.old)
        (T.fault_count tree.new) (T.trace tree.old) (T.trace tree.new) }
    ensures counts { IfErr result (λ error. ReadCounts begun
        (T.fault_count tree.old) (T.fault_count tree.new) (load_cause error)) }
    ensures writes { IfErr result (λ error.
        WriteCounts (S.fault_count sink.old) (S.fault_count sink.new) (load_cause error)) }
    ensures later { S.fault_count sink.old ≤ S.fault_count sink.new }
{
    let heard = hear(alloc, tree, &paths.policy, begun)?;
    let found = ConfigText::from_heard(alloc, heard)?;
    load_text(alloc, paths, found, files, context, tree, sink, catalog)
}
