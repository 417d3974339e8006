// Lists that hold at most a fixed number of items, all the memory for which is taken at the start.
#![tactic(auto)]

ghost use Rattle.std.specs.Prelude.{◌≡◌, ◌<◌, ◌≤◌, ◌==◌, [], ◌∷◌, ◌++◌, length, take, IfOk, MatchResult};

use std::alloc::{AllocError, Global};
use std::marker::Model;

#[cfg(test)]
mod tests;

// At most MAX items. Only `new` wants memory: there is room for all that there may be.
#[derive(Drop)]
pub struct Bounded<T, const MAX: usize> {
    items: Vec<T>,
}

// A clause sees the list of the items.
impl<T, const MAX: usize> Model for Bounded<T, MAX> {
    ghost use Rattle.std.specs.Prelude.{◌≤◌, List, vec_len, vec_capacity};

    ghost Value = { List T };

    ghost view = { λ b. b.items.items };

    ghost invariant = { λ b. (vec_len b.items ≤ MAX) × (MAX ≤ vec_capacity b.items) };
}

// There is no room for another item.
#[derive(Clone, Copy, Debug, PartialEq, Eq)]
pub struct Full;

impl<T: Drop, const MAX: usize> Bounded<T, MAX> {
    // No items, and room for the most.
    pub fn new(heap: Global) -> Result<Bounded<T, MAX>, AllocError>
        ensures { IfOk result (λ empty. empty ≡ []) }
    {
        let items = Vec::with_capacity(heap, MAX)?;
        Ok(Bounded { items })
    }

    pub fn len(&self) -> usize
        ensures value { result ≡ length self.now }
        ensures few { result ≤ MAX }
    {
        self.items.len()
    }

    pub fn is_empty(&self) -> bool
        ensures { result ≡ (length self.now == 0) }
    {
        self.items.is_empty()
    }

    pub fn as_slice(&self) -> &[T]
        ensures value { result.now ≡ self.now }
        ensures few { length result.now ≤ MAX }
    {
        self.items.as_slice()
    }

    // Puts the item behind the others, where there are fewer than MAX.
    pub fn push(&mut self, item: T) -> Result<(), Full>
        ensures { MatchResult result (λ _. (length self.old < MAX) × (self.new ≡ self.old ++ item ∷ [])) (λ _. (length self.old ≡ MAX) × (self.new ≡ self.old)) }
    {
        if self.items.len() >= MAX {
            return Err(Full);
        }
        self.items.push_reserved(item);
        Ok(())
    }

    // Keeps the first `count` items.
    pub fn truncate(&mut self, count: usize)
        ensures { self.new ≡ take count self.old }
    {
        self.items.truncate(count);
    }

    pub fn clear(&mut self)
        ensures { self.new ≡ [] }
    {
        self.items.clear();
    }
}

impl<T: Copy, const MAX: usize> Bounded<T, MAX> {
    // Becomes the other's items, which there is room for.
    pub fn copy_from(&mut self, other: &Bounded<T, MAX>)
        ensures { self.new ≡ other.now }
    {
        self.clear();
        let _ = self.items.extend_from_slice(other.items.as_slice());
    }
}
