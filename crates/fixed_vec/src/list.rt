// A list whose room is taken beforehand, so that a push into it cannot be refused.
ghost use Rattle.std.specs.Prelude.{◌≡◌, ◌<◌, ◌≤◌, ◌+◌, [], ◌∷◌, ◌++◌, length, slice_set, IfOk, IsOk, OnOk, OnErr};

use std::alloc::Global;
use std::marker::Model;

/// Memory ran out.
#[derive(Clone, Copy, Debug, PartialEq, Eq)]
pub struct NoMemory;

/// A list whose room is taken beforehand. Clauses see its items, and how many more it has room for.
#[derive(Drop)]
pub struct List<T> {
    held: Vec<T>,
}

impl<T> Model for List<T> {
    ghost use Rattle.std.specs.Prelude.{◌-◌, vec_len, vec_capacity};
    ghost use Rattle.fixed_vec.specs.Held.{Held};

    ghost Value = { Held T };

    ghost view = { λ l. record { items = l.held.items; spare = vec_capacity l.held - vec_len l.held } };
}

impl<T> List<T> {
    /// An empty list with room for so many items. `NoMemory` comes only where memory runs out (documented,
    /// not proved but for no room).
    pub fn with_room(alloc: Global, room: usize) -> Result<List<T>, NoMemory>
        ensures empty { IfOk result (λ l. l.items ≡ []) }
        ensures room { IfOk result (λ l. room ≤ l.spare) }
        ensures succeeds { room ≡ 0 → IsOk result }
    {
        match Vec::with_capacity(alloc, room) {
            Ok(held) => Ok(List { held }),
            Err(_) => Err(NoMemory),
        }
    }

    /// Takes room for so many more items, where there is less. `NoMemory` comes only where memory runs out
    /// (documented, not proved but where there was room), and leaves the list as it was.
    pub fn reserve(&mut self, room: usize) -> Result<(), NoMemory>
        ensures items { self.new.items ≡ self.old.items }
        ensures room { OnOk result (room ≤ self.new.spare) }
        ensures succeeds { room ≤ self.old.spare → IsOk result }
        ensures refused { OnErr result (self.new.spare ≡ self.old.spare) }
    {
        match self.held.reserve(room) {
            Ok(()) => Ok(()),
            Err(_) => Err(NoMemory),
        }
    }

    /// Puts an item behind the others, for which there must be room.
    pub fn push(&mut self, item: T)
        requires { 1 ≤ self.old.spare }
        ensures items { self.new.items ≡ self.old.items ++ item ∷ [] }
        ensures spare { self.new.spare + 1 ≡ self.old.spare }
    {
        self.held.push_reserved(item);
    }

    /// The items in order.
    pub fn items(&self) -> &[T]
        ensures { result.now ≡ self.now.items }
    {
        self.held.as_slice()
    }

    /// Puts an item in the place of one that is there.
    pub fn set(&mut self, place: usize, item: T)
    where
        T: Drop,
        requires { place < length self.old.items }
        ensures items { self.new.items ≡ slice_set self.old.items place item }
        ensures spare { self.new.spare ≡ self.old.spare }
    {
        self.held[place] = item;
    }

    /// Lets go of all items, and keeps their room.
    pub fn clear(&mut self)
    where
        T: Drop,
        ensures items { self.new.items ≡ [] }
        ensures spare { self.new.spare ≡ self.old.spare + length self.old.items }
    {
        self.held.clear();
    }
}
