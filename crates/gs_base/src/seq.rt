ghost use Rattle.std.specs.Prelude.{◌≡◌, ◌==◌, [], ◌∷◌, ◌++◌, length, OnOk, IfOk, OnErr};
ghost use Rattle.std.specs.Cmp.Lexicographic.{pointwise, lists_per, lists_equiv};

use crate::exact::{ExactClone, clone_of};
use std::alloc::{AllocError, Global};
use std::marker::Model;

/// A list. Contracts see its elements in order, but neither its capacity nor its place in memory. So two RPCs with equal
/// elements are the same value.
#[derive(Debug, Drop)]
pub struct Seq<T> {
    items: Vec<T>,
}

impl<T> Model for Seq<T> {
    ghost use Rattle.std.specs.Prelude.{List};

    ghost Value = { List T };

    ghost view = { λ s. s.items.items };
}

impl<T> Seq<T> {
    /// Returns the empty list. It takes no memory.
    pub fn new(alloc: Global) -> Seq<T>
        ensures { result ≡ [] }
    {
        Seq {
            items: Vec::new(alloc),
        }
    }

    /// Returns the elements as a vector. It takes no memory.
    pub fn into_vec(self) -> Vec<T>
        ensures { result.items ≡ self }
    {
        let Seq { items } = self;
        items
    }

    /// Returns the elements in order.
    pub fn as_slice(&self) -> &[T]
        ensures { result.now ≡ self.now }
    {
        self.items.as_slice()
    }

    /// Returns the number of elements.
    pub fn len(&self) -> usize
        ensures { result ≡ length self.now }
    {
        self.items.len()
    }

    /// Says whether the list is empty.
    pub fn is_empty(&self) -> bool
        ensures { result ≡ (length self.now == 0) }
    {
        self.items.is_empty()
    }
}

impl<T: Drop> Seq<T> {
    /// Returns a list of one element, with no room for more.
    ///
    /// # Errors
    /// `AllocError` when out of memory.
    pub fn only(alloc: Global, item: T) -> Result<Seq<T>, AllocError>
        ensures { IfOk result (λ list. list ≡ item ∷ []) }
    {
        let mut items = Vec::with_capacity(alloc, 1)?;
        items.push(item)?;
        Ok(Seq { items })
    }

    /// Adds an element at the end.
    ///
    /// # Errors
    /// `AllocError` when out of memory; the list is then as it was.
    pub fn push(&mut self, item: T) -> Result<(), AllocError>
        ensures ok { OnOk result (self.new ≡ self.old ++ item ∷ []) }
        ensures err { OnErr result (self.new ≡ self.old) }
    {
        self.items.push(item)?;
        Ok(())
    }

    /// Frees the memory that is reserved for further elements.
    pub fn shrink_to_fit(&mut self)
        ensures { self.new ≡ self.old }
    {
        self.items.shrink_to_fit();
    }
}

impl<T> From<Vec<T>> for Seq<T> {
    ghost from_gives = { λ items list. list ≡ items.items };

    fn from(items: Vec<T>) -> Seq<T> {
        Seq { items }
    }
}

impl<T: ExactClone> Clone for Seq<T> {
    ghost is_clone = { λ source copy. copy ≡ source };

    fn clone(&self) -> Result<Seq<T>, AllocError> {
        let mut items = Vec::with_capacity(*self.items.allocator(), self.items.len())?;
        for item in &self.items {
            items.push(clone_of(item)?)?;
        }
        Ok(Seq { items })
    }
}

impl<T: ExactClone> ExactClone for Seq<T> {
    ghost exact = { λ source copy same. same };
}

impl<T: PartialEq> PartialEq for Seq<T> {
    ghost eq = { pointwise T.eq };

    ghost laws = { lists_per T.laws };

    fn eq(&self, other: &Seq<T>) -> bool {
        self.as_slice() == other.as_slice()
    }
}

impl<T: Eq> Eq for Seq<T> {
    ghost laws = { lists_equiv T.Eq.laws };
}
