//! A tree in memory.
ghost use Rattle.std.specs.Prelude.{◌≡◌, ℕ, ◌↔◌, ◌≤◌, ◌<◌, ◌++◌, [], ◌∷◌, Some, None, Ok, IsTrue, IfOk, OnOk};
ghost use Rattle.std.specs.Prelude.{OnErr, map, if◌then◌else◌};
ghost use Rattle.std.specs.FinMap.{get};
ghost use Rattle.tree_core.specs.Content.{Content, IsRooted, entries_in, file, node_at, resolve};
ghost use Rattle.tree_core.specs.Answer.{ReadAnswers, ListAnswers, FileAnswers, ExistsAnswers};
ghost use Rattle.tree_core.specs.Answer.{FailsOrLacksMemory, IsInNameOrder, listed_entry};
ghost use Rattle.tree_core.specs.Faults.{count_after};
ghost use Rattle.tree_core.specs.Found.{found_node};
ghost use Rattle.tree_core.specs.Trace.{read_call, list_call, file_call, exists_call};
ghost use Rattle.tree_core.specs.TreeState.{root_alone, fails_next, state_behind_start, after_call, Clashes, Puts};

use crate::nodes::{FoundNode, Nodes, PutError, StoredNode, entries_at, find, put_at};
use crate::place::Place;
use crate::trace::Trace;
use crate::tree::{FolderEntries, Tree, TreeError};
use deny_text::Bytes;
use std::alloc::{AllocError, Global};
use std::collections::BTreeMap;
use std::marker::Model;

/// A tree in memory, which tells its content. Calls of it can be named to fail.
#[derive(Drop)]
pub struct MemTree {
    alloc: Global,
    nodes: Nodes,
    waits: Vec<u64>,
    failed: u64,
    trace: Trace,
}

impl Model for MemTree {
    ghost use Rattle.std.specs.Prelude.{ℕ};
    ghost use Rattle.tree_core.specs.TreeState.{TreeState, state_code};

    ghost Value = { TreeState };

    ghost coded = { state_code };

    ghost use Rattle.tree_core.specs.Stored.{content_of, IsSound};

    ghost view = { λ t. record {
      content = content_of t.nodes.entries;
      faults = t.failed;
      failing = t.waits.items;
      calls = t.trace.calls;
    } };

    ghost invariant = { λ t. IsSound t.nodes.entries };
}

impl MemTree {
    /// The root folder alone. It takes no memory.
    pub fn new(alloc: Global) -> MemTree
        ensures content { result.content ≡ root_alone }
        ensures rooted { IsRooted result.content }
        ensures no_faults { result.faults ≡ 0 }
        ensures no_failing { result.failing ≡ [] }
        ensures no_calls { result.calls ≡ [] }
    {
        MemTree {
            alloc,
            nodes: BTreeMap::new(alloc),
            waits: Vec::new(alloc),
            failed: 0,
            trace: Trace::new(),
        }
    }

    /// Names the `n`-th call of the four from now, counted from 1, to fail.
    pub fn fail_call(&mut self, n: u64) -> Result<(), AllocError>
        requires { 1 ≤ n }
        ensures ok { OnOk result (self.new ≡ record self.old { failing = self.old.failing ++ n ∷ [] }) }
        ensures err { OnErr result (self.new ≡ self.old) }
    {
        self.waits.push(n)?;
        Ok(())
    }

    /// Puts a file, in place of one that is there. The parents that are missing become folders.
    pub fn put(&mut self, path: &str, bytes: &[u8]) -> Result<(), PutError>
        ensures ok { OnOk result
            (Puts self.old.content self.new.content (resolve path.now) (file bytes.now)) }
        ensures ok_only { OnOk result (¬ (Clashes self.old.content (resolve path.now))) }
        ensures clash_only { result ≡ Err PutError.Clash → Clashes self.old.content (resolve path.now) }
        ensures err { OnErr result (self.new ≡ self.old) }

        ensures rooted { IsRooted self.new.content }
        ensures same_faults { self.new.faults ≡ self.old.faults }
        ensures same_failing { self.new.failing ≡ self.old.failing }
        ensures same_calls { self.new.calls ≡ self.old.calls }
    {
        let place = Place::resolve(self.alloc, path)?;
        let copy = Vec::from_slice(self.alloc, bytes)?;
        let node = StoredNode::File(Bytes::from(copy));
        put_at(&mut self.nodes, self.alloc, &place, node)
    }

    /// Begins a call of the four: counts the waits down, and fails where the call was named.
    fn start_call(&mut self) -> Result<(), TreeError>
        ensures answer { result ≡ (if fails_next self.old then Err TreeError.Failed else Ok tt) }
        ensures after { self.new ≡ state_behind_start self.old }
    {
        let fails = self.waits.contains(&1);
        'waits: for wait in self.waits.iter_mut() {
            *wait = wait.saturating_sub(1);
        }
        if fails {
            self.failed = self.failed.saturating_add(1);
            return Err(TreeError::Failed);
        }
        Ok(())
    }

    /// What is at a path.
    fn look(&self, alloc: Global, path: &str) -> Result<FoundNode<'_>, AllocError>
        ensures { IfOk result (λ found. found_node found ≡ node_at self.now.content path.now) }
    {
        let place = Place::resolve(alloc, path)?;
        Ok(self.at(&place))
    }

    /// What is at a place.
    fn at(&self, place: &Place) -> FoundNode<'_>
        ensures { found_node result ≡ get self.now.content place.now }
    {
        find(&self.nodes, place)
    }

    /// What is right in a folder.
    fn entries(&self, alloc: Global, folder: &Place) -> Result<FolderEntries, AllocError>
        ensures answer { IfOk result (λ entries. map listed_entry entries
            ≡ entries_in self.now.content folder.now) }
        ensures ordered { IfOk result IsInNameOrder }
    {
        entries_at(&self.nodes, alloc, folder)
    }

    /// What `read` answers.
    fn answer_read(&mut self, alloc: Global, path: &str) -> Result<Bytes, TreeError>
        ensures answer { ReadAnswers (node_at self.old.content path.now) result }
        ensures counts { self.new.faults ≡ count_after self.old.faults result }
        ensures fails { (result ≡ Err TreeError.Failed) ↔ IsTrue (fails_next self.old) }
        ensures after { self.new ≡ state_behind_start self.old }
    {
        self.start_call()?;
        match self.look(alloc, path)? {
            FoundNode::Nothing => Err(TreeError::Absent),
            FoundNode::Folder => Err(TreeError::WrongKind),
            FoundNode::File(bytes) => {
                let copy = Vec::from_slice(alloc, bytes.items())?;
                Ok(Bytes::from(copy))
            }
        }
    }

    /// What `list` answers.
    fn answer_list(&mut self, alloc: Global, path: &str) -> Result<FolderEntries, TreeError>
        ensures answer { ListAnswers self.old.content path.now result }
        ensures ordered { IfOk result IsInNameOrder }
        ensures counts { self.new.faults ≡ count_after self.old.faults result }
        ensures fails { (result ≡ Err TreeError.Failed) ↔ IsTrue (fails_next self.old) }
        ensures after { self.new ≡ state_behind_start self.old }
    {
        self.start_call()?;
        let place = Place::resolve(alloc, path)?;
        match self.at(&place) {
            FoundNode::Nothing => Err(TreeError::Absent),
            FoundNode::File(_) => Err(TreeError::WrongKind),
            FoundNode::Folder => {
                let entries = self.entries(alloc, &place)?;
                Ok(entries)
            }
        }
    }

    /// What `is_file` answers.
    fn answer_is_file(&mut self, alloc: Global, path: &str) -> Result<bool, TreeError>
        ensures answer { FileAnswers (node_at self.old.content path.now) result }
        ensures refusal { FailsOrLacksMemory result }
        ensures counts { self.new.faults ≡ count_after self.old.faults result }
        ensures fails { (result ≡ Err TreeError.Failed) ↔ IsTrue (fails_next self.old) }
        ensures after { self.new ≡ state_behind_start self.old }
    {
        self.start_call()?;
        match self.look(alloc, path)? {
            FoundNode::File(_) => Ok(true),
            FoundNode::Nothing | FoundNode::Folder => Ok(false),
        }
    }

    /// What `exists` answers.
    fn answer_exists(&mut self, alloc: Global, path: &str) -> Result<bool, TreeError>
        ensures answer { ExistsAnswers (node_at self.old.content path.now) result }
        ensures refusal { FailsOrLacksMemory result }
        ensures counts { self.new.faults ≡ count_after self.old.faults result }
        ensures fails { (result ≡ Err TreeError.Failed) ↔ IsTrue (fails_next self.old) }
        ensures after { self.new ≡ state_behind_start self.old }
    {
        self.start_call()?;
        match self.look(alloc, path)? {
            FoundNode::Nothing => Ok(false),
            FoundNode::File(_) | FoundNode::Folder => Ok(true),
        }
    }
}

impl Tree for MemTree {
    ghost content = { λ t. Some t.content };

    ghost fault_count = { λ t. t.faults };

    ghost trace = { λ t. t.calls };

    fn read(&mut self, alloc: Global, path: &str) -> Result<Bytes, TreeError>
        ensures answer { ReadAnswers (node_at self.old.content path.now) result }
        ensures counts { self.new.faults ≡ count_after self.old.faults result }
        ensures traced { self.new.calls ≡ self.old.calls ++ read_call path.now result ∷ [] }
        ensures fails { (result ≡ Err TreeError.Failed) ↔ IsTrue (fails_next self.old) }
        ensures after { self.new ≡ after_call self.old (read_call path.now result) }
    {
        let answer = self.answer_read(alloc, path);
        self.trace = self.trace.read(path.as_bytes(), &answer);
        answer
    }

    fn list(&mut self, alloc: Global, path: &str) -> Result<FolderEntries, TreeError>
        ensures answer { ListAnswers self.old.content path.now result }
        ensures ordered { IfOk result IsInNameOrder }
        ensures counts { self.new.faults ≡ count_after self.old.faults result }
        ensures traced { self.new.calls ≡ self.old.calls ++ list_call path.now result ∷ [] }
        ensures fails { (result ≡ Err TreeError.Failed) ↔ IsTrue (fails_next self.old) }
        ensures after { self.new ≡ after_call self.old (list_call path.now result) }
    {
        let answer = self.answer_list(alloc, path);
        self.trace = self.trace.list(path.as_bytes(), &answer);
        answer
    }

    fn is_file(&mut self, alloc: Global, path: &str) -> Result<bool, TreeError>
        ensures answer { FileAnswers (node_at self.old.content path.now) result }
        ensures refusal { FailsOrLacksMemory result }
        ensures counts { self.new.faults ≡ count_after self.old.faults result }
        ensures traced { self.new.calls ≡ self.old.calls ++ file_call path.now result ∷ [] }
        ensures fails { (result ≡ Err TreeError.Failed) ↔ IsTrue (fails_next self.old) }
        ensures after { self.new ≡ after_call self.old (file_call path.now result) }
    {
        let answer = self.answer_is_file(alloc, path);
        self.trace = self.trace.is_file(path.as_bytes(), &answer);
        answer
    }

    fn exists(&mut self, alloc: Global, path: &str) -> Result<bool, TreeError>
        ensures answer { ExistsAnswers (node_at self.old.content path.now) result }
        ensures refusal { FailsOrLacksMemory result }
        ensures counts { self.new.faults ≡ count_after self.old.faults result }
        ensures traced { self.new.calls ≡ self.old.calls ++ exists_call path.now result ∷ [] }
        ensures fails { (result ≡ Err TreeError.Failed) ↔ IsTrue (fails_next self.old) }
        ensures after { self.new ≡ after_call self.old (exists_call path.now result) }
    {
        let answer = self.answer_exists(alloc, path);
        self.trace = self.trace.exists(path.as_bytes(), &answer);
        answer
    }

    fn faults(&self) -> u64 {
        self.failed
    }
}
