// A queue that knows its room.
ghost use Rattle.std.specs.Prelude.{◌≡◌, ◌≤◌, ◌<◌, ◌+◌, [], ◌∷◌, ◌++◌, length, ◌==◌, OnOk, IsOk};
ghost use Rattle.shard_core.specs.Fifos.{IsFirst};

use std::alloc::{AllocError, Global};
use std::collections::VecDeque;
use std::marker::Model;

/// Values in the order in which they came. Contracts see the list of them, and for how many more
/// there is room.
#[derive(Drop)]
pub struct Fifo<T> {
    inner: VecDeque<T>,
}

impl<T> Model for Fifo<T> {
    ghost use Rattle.std.specs.Prelude.{◌-◌};
    ghost use Rattle.std.specs.VecDeque.{deque_len, deque_capacity};
    ghost use Rattle.shard_core.specs.Fifos.{Pending};

    ghost Value = { Pending T };

    ghost view = { λ a. record {
      items = a.inner.items;
      room = deque_capacity a.inner - deque_len a.inner;
    } };
}

impl<T> Fifo<T> {
    pub fn new(alloc: Global) -> Self
        ensures { result.items ≡ [] }
    {
        Fifo {
            inner: VecDeque::new(alloc),
        }
    }

    pub fn len(&self) -> usize
        ensures { result ≡ length self.now.items }
    {
        self.inner.len()
    }

    /// For how many more there is room.
    pub fn room(&self) -> usize
        ensures { result ≡ self.now.room }
    {
        self.inner.capacity() - self.inner.len()
    }

    pub fn is_empty(&self) -> bool
        ensures { result ≡ (length self.now.items == 0) }
    {
        self.inner.is_empty()
    }

    pub fn first(&self) -> Option<&T>
        ensures { IsFirst self.now.items result }
    {
        self.inner.front()
    }
}

impl<T: Drop> Fifo<T> {
    /// Makes room for so many more.
    pub fn reserve(&mut self, n: usize) -> Result<(), AllocError>
        ensures items { self.new.items ≡ self.old.items }
        ensures room { OnOk result (n ≤ self.new.room) }
        ensures grows { self.old.room ≤ self.new.room }
        ensures succeeds { n ≤ self.old.room → IsOk result }
    {
        self.inner.reserve(n)
    }

    pub fn push(&mut self, x: T)
        requires { 0 < self.old.room }
        ensures items { self.new.items ≡ self.old.items ++ x ∷ [] }
        ensures room { self.new.room + 1 ≡ self.old.room }
    {
        self.inner.push_back_reserved(x);
    }

    pub fn pop(&mut self) -> T
        requires { 0 < length self.old.items }
        ensures items { self.old.items ≡ result ∷ self.new.items }
        ensures room { self.new.room ≡ self.old.room + 1 }
    {
        match self.inner.pop_front() {
            Some(x) => x,
            None => unreachable!(),
        }
    }
}
