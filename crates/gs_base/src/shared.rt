ghost use Rattle.std.specs.Prelude.{◌≡◌, IfOk};

use crate::exact::ExactClone;
use std::alloc::{AllocError, Global};
use std::marker::Model;
use std::sync::Arc;

/// A value that several owners share. A clone copies nothing, and each owner holds one pointer. Contracts see the value,
/// but not its other owners.
#[derive(Debug, Drop)]
pub struct Shared<T> {
    owned: Arc<T>,
}

impl<T> Model for Shared<T> {
    ghost use Rattle.std.specs.Arc.{arc_value};

    ghost Value = { T };

    ghost coded = { T.code };

    ghost view = { λ s. arc_value s.owned };
}

impl<T> Shared<T> {
    /// Returns the value. No owner can change it, since the others share it.
    pub fn get(&self) -> &T
        ensures { result.now ≡ self.now }
    {
        &self.owned
    }
}

impl<T: Drop> Shared<T> {
    /// Returns a value with one owner.
    ///
    /// # Errors
    /// `AllocError` when out of memory.
    pub fn new(alloc: Global, value: T) -> Result<Shared<T>, AllocError>
        ensures { IfOk result (λ shared. shared ≡ value) }
    {
        Ok(Shared {
            owned: Arc::new(alloc, value)?,
        })
    }
}

impl<T: Drop> Clone for Shared<T> {
    ghost is_clone = { λ source copy. copy ≡ source };

    fn clone(&self) -> Result<Shared<T>, AllocError> {
        Ok(Shared {
            owned: Arc::try_clone(&self.owned)?,
        })
    }
}

impl<T: Drop> ExactClone for Shared<T> {
    ghost exact = { λ source copy same. same };
}

impl<T: PartialEq> PartialEq for Shared<T> {
    ghost eq = { T.eq };

    ghost laws = { T.laws };

    fn eq(&self, other: &Shared<T>) -> bool {
        self.get() == other.get()
    }
}

impl<T: Eq> Eq for Shared<T> {
    ghost laws = { T.Eq.laws };
}
