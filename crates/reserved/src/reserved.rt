//! The vector, seen as its items and its limit.
ghost use Rattle.std.specs.Prelude.{◌≡◌, ◌+◌, ◌-◌, ◌<◌, ◌≤◌, [], ◌∷◌, ◌++◌, length, IfOk};
ghost use Rattle.std.specs.List.{insert};
ghost use Rattle.reserved.specs.Room.{holding};

use std::alloc::{AllocError, Global};
use std::marker::Model;

/// A vector of at most `limit` items. The room for them is reserved when it is made, and no later call allocates: its capacity
/// is the limit at all times, and a call that changes the items leaves the block of memory where it is.
#[derive(Drop)]
pub struct Reserved<T> {
    items: Vec<T>,
    limit: usize,
}

impl<T> Model for Reserved<T> {
    ghost use Rattle.std.specs.Prelude.{◌≡◌, ◌≤◌, vec_len, vec_capacity};
    ghost use Rattle.std.specs.Vec.{vec_ptr};
    ghost use Rattle.reserved.specs.Room.{Room, room_code};

    ghost Value = { Room T };

    ghost coded = { room_code T.code };

    ghost view = { λ r. record { items = r.items.items; limit = r.limit; block = vec_ptr r.items } };

    ghost invariant = { λ r. (vec_len r.items ≤ r.limit) × (vec_capacity r.items ≡ r.limit) };
}

impl<T> Reserved<T> {
    /// An empty vector with room for `limit` items.
    pub fn new(heap: Global, limit: usize) -> Result<Reserved<T>, AllocError>
        ensures { IfOk result (λ r. (r.items ≡ []) × (r.limit ≡ limit)) }
    {
        let items = Vec::with_capacity(heap, limit)?;
        Ok(Reserved { items, limit })
    }

    /// The items.
    pub fn as_slice(&self) -> &[T]
        ensures { result.now ≡ self.now.items }
    {
        self.items.as_slice()
    }

    /// How many more items there is room for.
    pub fn free(&self) -> usize
        ensures { result ≡ self.now.limit - length self.now.items }
    {
        self.limit - self.items.len()
    }

    /// Adds an item at the end.
    pub fn push(&mut self, item: T)
        requires { length self.old.items < self.old.limit }
        ensures { self.new ≡ holding self.old (self.old.items ++ item ∷ []) }
    {
        self.items.push_reserved(item);
    }

    /// Puts an item at an index, and moves those from there on behind it.
    pub fn insert(&mut self, index: usize, item: T)
        requires inside { index ≤ length self.old.items }
        requires room { length self.old.items < self.old.limit }
        ensures { self.new ≡ holding self.old (insert self.old.items index item) }
    {
        // Its room is reserved, so this neither allocates nor fails.
        self.items.insert(index, item).unwrap();
    }
}

impl<T: Copy> Reserved<T> {
    /// Adds items at the end.
    pub fn extend_from_slice(&mut self, items: &[T])
        requires { length self.old.items + length items.now ≤ self.old.limit }
        ensures { self.new ≡ holding self.old (self.old.items ++ items.now) }
    {
        // Item by item: of the library's `extend_from_slice` no contract says that it stays in its block.
        for item in items {
            self.push(*item);
        }
    }
}
