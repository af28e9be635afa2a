//! Where tables and values stand in a scenario.
ghost use Rattle.std.specs.Prelude.{◌≡◌, Some, IfOk};
ghost use Rattle.gs_scenario.specs.Views.{element_text, path_text, place_text};

use gs_base::Text;
use std::alloc::{AllocError, Global};
use std::fmt;

/// An element of one of the top table's lists, counted from 0, such as `peer[1]`.
#[derive(Clone, Copy)]
pub struct Element<'a> {
    pub list: &'a str,
    pub index: usize,
}

/// The table in which a key stands, as the front of the key's place: `params.`, `peer[1].` or nothing.
#[derive(Clone, Copy)]
pub enum Path<'a> {
    /// The top table.
    Top,
    /// The table at a key of the top table.
    Table(&'a str),
    /// An element that is a table.
    Within(Element<'a>),
}

/// Where a value stands, such as `seed`, `peer[1]` or `peer[1].name`.
#[derive(Clone, Copy)]
pub enum Place<'a> {
    /// At a key of a table.
    Key(Path<'a>, &'a str),
    /// In a list.
    Element(Element<'a>),
}

impl<'a> fmt::Display for Element<'a> {
    ghost output = { λ element. Some (element_text element) };

    fn fmt<W: fmt::Write>(&self, f: &mut fmt::Formatter<W>) -> fmt::Result {
        write!(f, "{}[{}]", self.list, self.index)
    }
}

impl<'a> fmt::Display for Path<'a> {
    ghost output = { λ path. Some (path_text path) };

    fn fmt<W: fmt::Write>(&self, f: &mut fmt::Formatter<W>) -> fmt::Result {
        match self {
            Path::Top => Ok(()),
            Path::Table(key) => write!(f, "{key}."),
            Path::Within(element) => write!(f, "{element}."),
        }
    }
}

impl<'a> fmt::Display for Place<'a> {
    ghost output = { λ place. Some (place_text place) };

    fn fmt<W: fmt::Write>(&self, f: &mut fmt::Formatter<W>) -> fmt::Result {
        match self {
            Place::Key(path, key) => write!(f, "{path}{key}"),
            Place::Element(element) => write!(f, "{element}"),
        }
    }
}

impl<'a> Place<'a> {
    /// Returns the place as a refusal names it.
    ///
    /// # Errors
    /// `AllocError` when out of memory.
    pub fn to_text(&self, alloc: Global) -> Result<Text, AllocError>
        ensures { IfOk result (λ text. text ≡ place_text self.now) }
    {
        Ok(Text::from(format!(in alloc; "{self}")?))
    }
}
