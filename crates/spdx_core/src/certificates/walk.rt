//! Walks over the marks of an expression, from its last node to its first, which gather places of terms.
ghost use Rattle.std.specs.Prelude.{◌≡◌, ◌∷◌, reverse, if◌then◌else◌, OnOk, IfOk};
ghost use Rattle.spdx_core.specs.certificates.Machine.{of_and, of_or, sides_flags};
ghost use Rattle.spdx_core.specs.certificates.Machine.{way_of, way_after, walked_over, walk_start};

use crate::certificates::mark::NodeMark;
use crate::certificates::stack::{put, take_off};
use crate::certificates::verdict::TermPlaces;
use std::alloc::{AllocError, Global};

/// What a walk gathers, and so to which sides of an operator it goes on.
#[derive(Clone, Copy)]
pub enum Walk {
    /// The least choice: both sides of an `AND`, and the marked side of an `OR`.
    Choice,
    /// What blocks an expression: both sides of an `OR`, and the marked side of an `AND`.
    Blocks,
}

/// How far a walk has come.
#[derive(Drop)]
pub struct WalkState {
    /// For each tree that is still to come whether its places are gathered, the next one last.
    pub flags: Vec<bool>,
    /// The places so far, the last one first.
    pub places: Vec<usize>,
}

impl Walk {
    fn takes_both_of_and(self) -> bool
        ensures { result ≡ of_and self }
    {
        match self {
            Walk::Choice => true,
            Walk::Blocks => false,
        }
    }

    fn takes_both_of_or(self) -> bool
        ensures { result ≡ of_or self }
    {
        match self {
            Walk::Choice => false,
            Walk::Blocks => true,
        }
    }
}

/// Goes on to both sides of an operator or to the marked one, the right one first.
fn go_on(flags: &mut Vec<bool>, is_taken: bool, both: bool, right: bool) -> Result<(), AllocError>
    ensures { OnOk result (reverse flags.new.items
        ≡ sides_flags is_taken both right (reverse flags.old.items)) }
{
    put(flags, is_taken && (both || !right))?;
    put(flags, is_taken && (both || right))
}

/// Gathers a place that is taken.
fn gather(places: &mut Vec<usize>, is_taken: bool, place: usize) -> Result<(), AllocError>
    ensures { OnOk result (reverse places.new.items
        ≡ (if is_taken then place ∷ reverse places.old.items else reverse places.old.items)) }
{
    if is_taken { put(places, place) } else { Ok(()) }
}

impl WalkState {
    fn step(&mut self, walk: Walk, mark: NodeMark) -> Result<(), AllocError>
        ensures { OnOk result (way_of self.new ≡ way_after walk (way_of self.old) mark) }
    {
        let is_taken = take_off(&mut self.flags, false);
        match mark {
            NodeMark::Term(place) => gather(&mut self.places, is_taken, place),
            NodeMark::And { right } => go_on(
                &mut self.flags,
                is_taken,
                walk.takes_both_of_and(),
                right,
            ),
            NodeMark::Or { right } => go_on(
                &mut self.flags,
                is_taken,
                walk.takes_both_of_or(),
                right,
            ),
        }
    }
}

/// The places that a walk gathers, in text order.
pub fn gathered(alloc: Global, walk: Walk, marks: &[NodeMark]) -> Result<TermPlaces, AllocError>
    ensures { IfOk result (λ places. places ≡ (walked_over walk walk_start (reverse marks.now)).places) }
{
    let mut walked = WalkState {
        flags: Vec::new(alloc),
        places: Vec::new(alloc),
    };
    put(&mut walked.flags, true)?;
    let mut rest = marks;
    'marks: while let Some((mark, before)) = rest.split_last() {
        walked.step(walk, *mark)?;
        rest = before;
    }
    let mut places = walked.places;
    places.reverse();
    Ok(TermPlaces::from(places))
}
