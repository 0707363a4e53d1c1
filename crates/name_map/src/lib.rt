//! Values by name, in the order in which the names came.
#![tactic(auto)]

ghost use Rattle.std.specs.Prelude.{◌≡◌, ◌==◌, ◌<◌, List, [], ◌∷◌, ◌++◌, false, Some, length, position, IfSome, OnOk, OnErr, slice_get};
ghost use Rattle.std.specs.List.{list_any, IsDistinct};
ghost use Rattle.std.specs.Str.{bytes_eq};
ghost use Rattle.name_map.specs.Names.{names_of, set_value_at, values_of};

use indexmap::IndexMap;
use std::alloc::{AllocError, Global};
use std::marker::Model;
use std::mem;

/// Values by name. Contracts see the list of the pairs of a name's bytes and its value.
#[derive(Drop)]
pub struct NameMap<V> {
    held: IndexMap<Vec<u8>, V>,
}

impl<V> Model for NameMap<V> {
    ghost use Rattle.std.specs.Prelude.{List, ℕ, map};

    ghost Value = { List (List ℕ × V) };

    ghost view = { λ m. map (λ e. (e.0.items, e.1)) m.held.entries };
}

impl<V> NameMap<V> {
    /// No names yet. It takes no memory.
    pub fn new(alloc: Global) -> NameMap<V>
        ensures { result ≡ [] }
    {
        NameMap {
            held: IndexMap::new(alloc),
        }
    }

    /// How many names there are; no two of them are the same.
    pub fn len(&self) -> usize
        ensures len { result ≡ length self.now }
        ensures distinct { IsDistinct bytes_eq (names_of self.now) }
    {
        self.held.len()
    }

    /// Whether there are none.
    pub fn is_empty(&self) -> bool
        ensures { result ≡ (length self.now == 0) }
    {
        self.held.is_empty()
    }

    /// Where a name stands, by its hash: it takes no memory.
    pub fn place(&self, name: &[u8]) -> Option<usize>
        ensures place { result ≡ position (bytes_eq name.now) (names_of self.now) }
        ensures within { IfSome result (λ i. i < length self.now) }
    {
        self.held.get_index_of(name)
    }

    /// Whether a name is there.
    pub fn contains(&self, name: &[u8]) -> bool
        ensures { result ≡ list_any (bytes_eq name.now) (names_of self.now) }
    {
        self.place(name).is_some()
    }

    /// The name at an index.
    pub fn name(&self, index: usize) -> &[u8]
        requires { index < length self.now }
        ensures { slice_get (names_of self.now) index ≡ Some result.now }
    {
        let entry = self.held.get_index(index).unwrap();
        entry.0.as_slice()
    }

    /// The value at an index.
    pub fn value(&self, index: usize) -> &V
        requires { index < length self.now }
        ensures { slice_get (values_of self.now) index ≡ Some result.now }
    {
        let entry = self.held.get_index(index).unwrap();
        entry.1
    }
}

impl<V: Drop> NameMap<V> {
    /// Puts a new name last, with its value.
    ///
    /// Where memory is refused, the map stays as it was.
    pub fn push(&mut self, alloc: Global, name: &[u8], value: V) -> Result<(), AllocError>
        requires { list_any (bytes_eq name.now) (names_of self.old) ≡ false }
        ensures ok { OnOk result (self.new ≡ self.old ++ (name.now, value) ∷ []) }
        ensures err { OnErr result (self.new ≡ self.old) }
    {
        let key = Vec::from_slice(alloc, name)?;
        self.held.insert(key, value)?;
        Ok(())
    }

    /// Puts a value in the place of the one at an index, which it gives back. It takes no memory.
    pub fn replace(&mut self, index: usize, value: V) -> V
        requires { index < length self.old }
        ensures put { self.new ≡ set_value_at self.old index value }
        ensures given { slice_get (values_of self.old) index ≡ Some result }
    {
        let Some(held) = self.held.get_index_mut(index) else {
            return value;
        };
        mem::replace(held, value)
    }
}
