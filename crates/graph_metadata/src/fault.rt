//! Why metadata is not read.
ghost use Rattle.std.specs.Prelude.{◌≡◌, Some};
ghost use Rattle.graph_metadata.specs.declared.fault.MetaError.TheVariants.{Memory};
ghost use Rattle.graph_metadata.specs.Told.{IsMetaFault, IsMetaFaultOf, ReadFails, dep_place, object_place_text, key_place};
ghost use Rattle.graph_metadata.specs.Told.{item_place};

use deny_text::Text;
use std::alloc::{AllocError, AllocFailed, Global};
use std::fmt;

/// What is wrong at a place of the metadata.
#[derive(Clone, Copy, Debug, Drop, PartialEq, Eq)]
pub enum MetaReason {
    /// A number that is read as a floating-point number.
    Float,
    /// A key that has to be there is missing.
    Missing,
    /// A value of another kind.
    WrongKind,
    /// A version that is none.
    BadVersion,
    /// An id that an earlier package, or an earlier node, has.
    RepeatedId,
    /// An id that no package has.
    UnknownId,
    /// The path of a manifest that is in no folder.
    NoFolder,
    /// A kind of dependency that is neither null nor `dev` nor `build`.
    UnknownKind,
}

/// A fault of the metadata.
#[derive(Debug, Drop)]
pub struct MetaFault {
    /// The keys and the places in lists that lead to it, from the root, each behind a `/`. The root itself is
    /// the empty text. Nothing in a key is escaped.
    pub place: Text,
    pub fault: MetaReason,
}

/// Why metadata is not read.
#[derive(Debug, Drop)]
pub enum MetaError {
    /// The text is no JSON.
    Syntax,
    /// The value has not the stated shape.
    Shape(MetaFault),
    /// Memory was refused.
    Memory,
}

impl From<AllocError> for MetaError {
    ghost from_gives = { λ _ error. error ≡ Memory };

    fn from(_refused: AllocError) -> MetaError {
        MetaError::Memory
    }
}

impl From<serde_json::Error> for MetaError {
    ghost from_gives = { λ unread error. ReadFails unread error };

    fn from(unread: serde_json::Error) -> MetaError {
        if unread.is_memory() {
            MetaError::Memory
        } else {
            MetaError::Syntax
        }
    }
}

impl<T: Drop> From<AllocFailed<T>> for MetaError {
    ghost from_gives = { λ _ error. error ≡ Memory };

    fn from(_refused: AllocFailed<T>) -> MetaError {
        MetaError::Memory
    }
}

/// Where an object of the metadata is, by its places in lists.
#[derive(Clone, Copy, Debug)]
pub(crate) enum ObjectPlace {
    Root,
    Package(usize),
    Features(usize),
    Resolve,
    Node(usize),
    Dep(usize, usize),
    Kind(usize, usize, usize),
}

/// Where a dependency is: the places of its node and of itself.
#[derive(Drop)]
struct DepPlace {
    node: usize,
    dep: usize,
}

impl fmt::Display for DepPlace {
    ghost output = { λ place. Some (dep_place place.node place.dep) };

    #[tactic(auto, unfolding(crate::specs::Told::dep_place))]
    fn fmt<W: fmt::Write>(&self, f: &mut fmt::Formatter<W>) -> fmt::Result {
        write!(f, "/resolve/nodes/{}/deps/{}", self.node, self.dep)
    }
}

impl fmt::Display for ObjectPlace {
    ghost output = { λ place. Some (object_place_text place) };

    fn fmt<W: fmt::Write>(&self, f: &mut fmt::Formatter<W>) -> fmt::Result {
        match self {
            ObjectPlace::Root => Ok(()),
            ObjectPlace::Package(i) => write!(f, "/packages/{i}"),
            ObjectPlace::Features(i) => write!(f, "/packages/{i}/features"),
            ObjectPlace::Resolve => f.write_str("/resolve"),
            ObjectPlace::Node(i) => write!(f, "/resolve/nodes/{i}"),
            ObjectPlace::Dep(i, j) => fmt::Display::fmt(&DepPlace { node: *i, dep: *j }, f),
            ObjectPlace::Kind(i, j, k) => {
                let dep = DepPlace { node: *i, dep: *j };
                write!(f, "{dep}/dep_kinds/{k}")
            }
        }
    }
}

fn fault_with(place: Result<String, AllocError>, fault: MetaReason) -> MetaError
    ensures { IsMetaFaultOf result place fault }
{
    match place {
        Ok(place) => MetaError::Shape(MetaFault {
            place: Text::from(place),
            fault,
        }),
        Err(_) => MetaError::Memory,
    }
}

/// The fault of an object.
pub(crate) fn fault_of(alloc: Global, place: ObjectPlace, fault: MetaReason) -> MetaError
    ensures { IsMetaFault result (object_place_text place) fault }
{
    fault_with(format!(in alloc; "{place}"), fault)
}

/// The fault at a key of an object.
pub(crate) fn fault_at(alloc: Global, place: ObjectPlace, key: &str, fault: MetaReason) -> MetaError
    ensures { IsMetaFault result (key_place place key.now) fault }
{
    fault_with(format!(in alloc; "{place}/{key}"), fault)
}

/// The fault of an item of the list at a key of an object.
pub(crate) fn fault_in(
    alloc: Global,
    place: ObjectPlace,
    key: &str,
    index: usize,
    fault: MetaReason,
) -> MetaError
    ensures { IsMetaFault result (item_place place key.now index) fault }
{
    fault_with(format!(in alloc; "{place}/{key}/{index}"), fault)
}
