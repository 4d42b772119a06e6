//! Lists that serve again.
ghost use Rattle.std.specs.Prelude.{◌≡◌, ◌-◌, ◌<◌, ◌≤◌, [], ◌∷◌, ◌++◌, IfOk, OnErr, OnOk, take};
ghost use Rattle.std.specs.Prelude.{slice_index_or, vec_capacity, vec_len};

use std::alloc::{AllocError, Global};

/// Lists that have served, for their room.
#[derive(Drop)]
pub struct Pile<T> {
    /// What they hold is not read.
    pub lists: Vec<Vec<T>>,
}

impl<T: Drop> Pile<T> {
    /// No list.
    pub(crate) fn new(alloc: Global) -> Pile<T> {
        Pile {
            lists: Vec::new(alloc),
        }
    }

    /// Room for so many lists. The only error is that memory runs out.
    pub fn reserve(&mut self, count: usize) -> Result<(), AllocError>
        ensures same { self.new.lists.items ≡ self.old.lists.items }
        ensures room { OnOk result (count ≤ vec_capacity self.new.lists) }
    {
        let more = count.saturating_sub(self.lists.len());
        self.lists.reserve(more)
    }

    /// An empty list with room for so many elements: the last of the pile, or a new one where there
    /// is none. The only error is that memory runs out, where the last lacks that room.
    pub fn take(&mut self, alloc: Global, room: usize) -> Result<Vec<T>, AllocError>
        ensures none { IfOk result (λ list. list.items ≡ []) }
        ensures room { IfOk result (λ list. room ≤ vec_capacity list) }
        ensures refused { OnErr result ((d : _) → 0 < vec_len self.old.lists
            → vec_capacity (slice_index_or self.old.lists.items (vec_len self.old.lists - 1) d)
            < room) }
        ensures rest { self.new.lists.items
            ≡ take (vec_len self.old.lists - 1) self.old.lists.items }
        ensures capacity { vec_capacity self.new.lists ≡ vec_capacity self.old.lists }
    {
        let mut list = match self.lists.pop() {
            Some(list) => list,
            None => Vec::new(alloc),
        };
        list.clear();
        list.reserve(room)?;
        Ok(list)
    }

    /// A list goes to the pile, where there is room for it. Takes no memory.
    pub fn keep(&mut self, list: Vec<T>)
        ensures kept { vec_len self.old.lists < vec_capacity self.old.lists
            → self.new.lists.items ≡ self.old.lists.items ++ list ∷ [] }
        ensures full { vec_capacity self.old.lists ≤ vec_len self.old.lists
            → self.new.lists.items ≡ self.old.lists.items }
        ensures capacity { vec_capacity self.new.lists ≡ vec_capacity self.old.lists }
    {
        if self.lists.len() < self.lists.capacity() {
            self.lists.push_reserved(list);
        }
    }
}
