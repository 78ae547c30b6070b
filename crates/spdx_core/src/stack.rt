//! A stack, seen from its top.
ghost use Rattle.std.specs.Prelude.{◌≡◌, [], ◌∷◌, OnOk, OnErr};
ghost use Rattle.spdx_core.specs.Stack.{top_of, Pops};

use std::alloc::{AllocError, Global};
use std::marker::Model;

/// A stack. Contracts see its items, the last one pushed first.
#[derive(Drop)]
pub struct Stack<T> {
    inner: Vec<T>,
}

impl<T> Model for Stack<T> {
    ghost use Rattle.std.specs.Prelude.{List, reverse};

    ghost Value = { List T };

    ghost view = { λ stack. reverse stack.inner.items };
}

impl<T: Copy + Drop> Stack<T> {
    pub fn new(alloc: Global) -> Stack<T>
        ensures { result ≡ [] }
    {
        Stack {
            inner: Vec::new(alloc),
        }
    }

    /// Puts an item on top. One that finds no room is dropped.
    #[tactic(auto, using(crate::proofs::StackLemmas::pushed))]
    pub fn push(&mut self, item: T) -> Result<(), AllocError>
        ensures ok { OnOk result (self.new ≡ item ∷ self.old) }
        ensures err { OnErr result (self.new ≡ self.old) }
    {
        self.inner.push(item)?;
        Ok(())
    }

    pub fn pop(&mut self) -> Option<T>
        ensures { Pops self.old result self.new }
    {
        self.inner.pop()
    }

    /// The item on top.

    pub fn top(&self) -> Option<T>
        ensures { result ≡ top_of self.now }
    {
        self.inner.as_slice().last().copied()
    }
}
