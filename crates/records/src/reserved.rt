// A list whose memory is reserved when it is made, so that no later call wants any.
ghost use Rattle.std.specs.Prelude.{◌≡◌, ◌<◌, ◌≤◌, [], ◌∷◌, ◌++◌, length, take, IfOk};

use std::alloc::{AllocError, Global};
use std::marker::Model;

// A list of at most `N` items.
#[derive(Drop)]
pub struct Reserved<T, const N: usize> {
    items: Vec<T>,
}

// A contract sees the items alone.
impl<T, const N: usize> Model for Reserved<T, N> {
    ghost use Rattle.std.specs.Prelude.{◌≤◌, List, vec_items, vec_len, vec_capacity};

    ghost Value = { List T };

    ghost view = { λ r. vec_items r.items };

    ghost invariant = { λ r. (N ≤ vec_capacity r.items) × (vec_len r.items ≤ N) };
}

impl<T: Copy, const N: usize> Reserved<T, N> {
    // An empty list. Only here can memory be short.
    pub fn new(heap: Global) -> Result<Self, AllocError>
        ensures { IfOk result (λ r. r ≡ []) }
    {
        let items = Vec::with_capacity(heap, N)?;
        Ok(Reserved { items })
    }

    pub fn clear(&mut self)
        ensures { self.new ≡ [] }
    {
        self.items.clear();
    }

    // One item more, if there is room.
    pub fn push(&mut self, x: T)
        ensures value { self.new ≡ take N (self.old ++ x ∷ []) }
        ensures room { length self.old < N → self.new ≡ self.old ++ x ∷ [] }
    {
        if self.len() < N {
            self.items.push_reserved(x);
        }
    }

    // More items, as far as there is room.
    pub fn extend_from_slice(&mut self, xs: &[T])
        ensures { self.new ≡ take N (self.old ++ xs.now) }
    {
        let _few = &self.items;
        for x in xs {
            self.push(*x);
        }
    }

    pub fn as_slice(&self) -> &[T]
        ensures value { result.now ≡ self.now }
        ensures few { length result.now ≤ N }
    {
        self.items.as_slice()
    }

    pub fn len(&self) -> usize
        ensures value { result ≡ length self.now }
        ensures few { result ≤ N }
    {
        self.items.len()
    }
}
