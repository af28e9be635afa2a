//! Values by number.
ghost use Rattle.std.specs.Prelude.{◌≡◌, ◌++◌, ◌∷◌, [], IfOk, OnOk, slice_get, slice_set};
ghost use Rattle.gs_opinions.specs.Cells.{by_number, cell_at};

use std::alloc::{AllocError, Global};
use std::marker::Model;

/// A value for each number below a count. A look-up hashes nothing.
#[derive(Debug, Drop)]
pub(crate) struct Cells<T: Copy> {
    items: Vec<T>,
}

impl<T: Copy> Model for Cells<T> {
    ghost use Rattle.std.specs.Prelude.{List};

    ghost Value = { List T };

    ghost view = { λ s. s.items.items };
}

impl<T: Copy> Cells<T> {
    /// Cells for no number at all, which take no memory.
    pub(crate) fn new(alloc: Global) -> Cells<T>
        ensures { result ≡ [] }
    {
        Cells {
            items: Vec::new(alloc),
        }
    }

    /// Gives a value to the first number that has none.
    pub(crate) fn push(&mut self, value: T) -> Result<(), AllocError>
        ensures { OnOk result (self.new ≡ self.old ++ value ∷ []) }
    {
        self.items.push(value)?;
        Ok(())
    }

    /// The value of a number, if it is below the count.
    pub(crate) fn get(&self, number: usize) -> Option<T>
        ensures { result ≡ slice_get self.now number }
    {
        match self.items.get(number) {
            Some(value) => Some(*value),
            None => None,
        }
    }

    /// Gives a number another value, if it is below the count.
    pub(crate) fn put(&mut self, number: usize, value: T)
        ensures { self.new ≡ slice_set self.old number value }
    {
        if let Some(cell) = self.items.get_mut(number) {
            *cell = value;
        }
    }
}

/// One value for each number below a count.
pub(crate) fn filled<T: Copy>(alloc: Global, count: usize, value: T) -> Result<Cells<T>, AllocError>
    ensures { IfOk result (λ cells. cells ≡ by_number (λ n. value) count) }
{
    let mut cells = Cells::new(alloc);
    for _ in 0..count {
        cells.push(value)?;
    }
    Ok(cells)
}

/// What a number has, if it is below the count and has anything.
pub(crate) fn cell_at<T: Copy>(cells: &Cells<Option<T>>, number: usize) -> Option<T>
    ensures { result ≡ cell_at cells.now number }
{
    match cells.get(number) {
        Some(cell) => cell,
        None => None,
    }
}
