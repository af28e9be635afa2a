//! Lists whose elements are found by their keys.
ghost use Rattle.std.specs.Prelude.{◌≡◌, ◌<◌, ◌++◌, [], ◌∷◌, IfOk, IfSome, length, position};
ghost use Rattle.std.specs.List.{list_any};

use gs_base::Seq;
use indexmap::IndexMap;
use std::alloc::{AllocError, Global};
use std::hash::Hash;
use std::marker::Model;

/// A value that has a key.
pub trait Keyed<K>: Drop {
    /// The key.
    ghost key_of: { Self → K };

    /// Returns the key.
    ///
    /// # Errors
    /// `AllocError` when out of memory.
    fn key(&self, alloc: Global) -> Result<K, AllocError>
        ensures { IfOk result (λ key. key ≡ key_of self.now) };
}

/// A list whose elements are found by their keys. Contracts see the list.
#[derive(Drop)]
pub struct Indexed<K: Eq + Hash + Drop, T: Keyed<K>> {
    list: Seq<T>,
    /// The place of the first element with each key.
    places: IndexMap<K, usize>,
}

impl<K: Eq + Hash + Drop, T: Keyed<K>> Model for Indexed<K, T> {
    ghost use Rattle.std.specs.Prelude.{◌≡◌, List, position};
    ghost use Rattle.indexmap.specs.IndexMap.{get};

    ghost Value = { List T };

    ghost view = { λ s. s.list };

    ghost invariant = { λ s. (k : K) → get K.eq s.places k ≡ position (λ x. K.eq k (T.key_of x)) s.list };
}

impl<K: Eq + Hash + Drop, T: Keyed<K>> Indexed<K, T> {
    /// Returns a list without elements. It takes no memory.
    pub fn new(alloc: Global) -> Indexed<K, T>
        ensures { result ≡ [] }
    {
        Indexed {
            list: Seq::new(alloc),
            places: IndexMap::new(alloc),
        }
    }

    /// Returns how many elements there are.
    pub fn len(&self) -> usize
        ensures { result ≡ length self.now }
    {
        self.list.len()
    }

    /// Returns the place of the first element with a key.
    pub fn place(&self, key: &K) -> Option<usize>
        ensures place { result ≡ position (λ x. K.eq key.now (T.key_of x)) self.now }
        ensures within { IfSome result (λ place. place < length self.now) }
    {
        self.places.get(key).copied()
    }

    /// Says whether an element has a key.
    pub fn has(&self, key: &K) -> bool
        ensures { result ≡ list_any (λ x. K.eq key.now (T.key_of x)) self.now }
    {
        self.places.contains_key(key)
    }

    /// Returns the list with an element more, which is the last.
    ///
    /// # Errors
    /// `AllocError` when out of memory.
    pub fn with(self, alloc: Global, element: T) -> Result<Indexed<K, T>, AllocError>
        ensures { IfOk result (λ all. all ≡ self ++ element ∷ []) }
    {
        let Indexed { list, places } = self;
        let mut list = list;
        let mut places = places;
        let key = element.key(alloc)?;
        if places.get(&key).is_none() {
            places.insert(key, list.len())?;
        }
        list.push(element)?;
        Ok(Indexed { list, places })
    }

    /// Returns the list by itself.
    pub fn into_seq(self) -> Seq<T>
        ensures { result ≡ self }
    {
        let Indexed { list, .. } = self;
        list
    }
}
