//! What metadata tells of a workspace: its crates, and the edges between them.
ghost use Rattle.std.specs.Prelude.{◌≡◌, ◌<◌, map, length, option_map};
ghost use Rattle.graph_core.specs.Krate.{record_of};
ghost use Rattle.graph_core.specs.Metadata.{AreRising, LeadWithin, ArePlaces, IsPlace, FitTogether, ids_of};
ghost use Rattle.graph_core.specs.Metadata.{id_of_node, edges_at, link_in};
ghost use Rattle.graph_core.specs.Graph.{graph_with};

use crate::edge::{Edge, Edges};
use crate::krate::Krate;
use deny_text::{PathBuf, Texts};
use std::marker::Model;

/// The crates of a workspace and of all that it depends on, in the order of their ids, with the edges between
/// them.
#[derive(Drop)]
pub struct Metadata {
    crates: Vec<Krate>,
    /// The edges out of each crate.
    edges: Vec<Edges>,
    members: Texts,
    member_places: Vec<usize>,
    workspace_root: PathBuf,
    root: Option<usize>,
}

/// What metadata holds besides edges: the crates in the order of their ids, the ids of the members and the
/// root folder of the workspace.
#[derive(Drop)]
pub struct MetadataParts {
    pub crates: Vec<Krate>,
    pub members: Texts,
    pub workspace_root: PathBuf,
}

impl Model for Metadata {
    ghost use Rattle.graph_core.specs.Metadata.{Graph, FitTogether};
    ghost use Rattle.graph_core.specs.Graph.{graph_with};

    ghost Value = { Graph };

    ghost view = { λ m. graph_with m.crates.items m.edges.items m.members m.workspace_root m.root };

    ghost invariant = { λ m.
        FitTogether m.crates.items m.edges.items m.members m.member_places.items m.root };
}

impl Metadata {
    /// Puts the parts together. The crates are in the order of their ids, with the edges out of each; the
    /// members and the root are places among them.
    pub fn of_parts(
        crates: Vec<Krate>,
        edges: Vec<Edges>,
        members: Texts,
        member_places: Vec<usize>,
        workspace_root: PathBuf,
        root: Option<usize>,
    ) -> Metadata
        requires { FitTogether crates.items edges.items members member_places.items root }
        ensures { result ≡ graph_with crates.items edges.items members workspace_root root }
    {
        Metadata {
            crates,
            edges,
            members,
            member_places,
            workspace_root,
            root,
        }
    }

    /// Takes the crates, the members and the root folder out, by value.
    pub fn into_parts(self) -> MetadataParts
        ensures crates { map record_of result.crates.items ≡ map (λ node. node.krate) self.nodes }
        ensures members { result.members ≡ self.members }
        ensures workspace_root { result.workspace_root ≡ self.workspace_root }
    {
        MetadataParts {
            crates: self.crates,
            members: self.members,
            workspace_root: self.workspace_root,
        }
    }

    /// How many crates there are.
    pub fn len(&self) -> usize
        ensures { result ≡ length self.now.nodes }
    {
        self.crates.len()
    }

    /// The crates in the order of their ids.
    pub fn crates(&self) -> &[Krate]
        ensures value { map record_of result.now ≡ map (λ node. node.krate) self.now.nodes }
        ensures rising { AreRising (ids_of self.now) }
    {
        &self.crates
    }

    /// The edges out of the crate at a place.
    pub fn edges_at(&self, place: usize) -> &[Edge]
        requires { place < length self.now.nodes }
        ensures value { map (link_in self.now) result.now ≡ edges_at self.now place }
        ensures within { LeadWithin (length self.now.nodes) result.now }
    {
        let lists: &[Edges] = &self.edges;
        lists[place].items()
    }

    /// The ids of the members of the workspace, as the metadata lists them.
    pub(crate) fn members(&self) -> &Texts
        ensures { result.now ≡ self.now.members }
    {
        &self.members
    }

    /// The places of the members.
    pub fn member_places(&self) -> &[usize]
        ensures value { map (id_of_node self.now) result.now ≡ self.now.members }
        ensures within { ArePlaces (length self.now.nodes) result.now }
    {
        &self.member_places
    }

    /// The root folder of the workspace.
    pub(crate) fn workspace_root(&self) -> &str
        ensures { result.now ≡ self.now.workspace_root }
    {
        self.workspace_root.as_path()
    }

    /// The place of the root crate, where there is one.
    pub fn root(&self) -> Option<usize>
        ensures value { option_map (id_of_node self.now) result ≡ self.now.root }
        ensures within { IsPlace (length self.now.nodes) result }
    {
        self.root
    }
}
