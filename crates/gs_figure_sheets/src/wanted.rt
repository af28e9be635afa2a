//! Which sheets are wanted.
use crate::choice::Choice;
use gs_base::Seq;

/// Who reads the sheets.
#[derive(Clone, Copy, Debug, PartialEq, Eq)]
pub enum Layout {
    /// A person: figures stand in several tables, one for each section.
    Person,
    /// A program: all figures about one subject stand in one sheet.
    Data,
}

/// What the rows of figures are about.
#[derive(Clone, Copy, Debug, PartialEq, Eq)]
pub enum Subject {
    /// The whole run: how many subscribers messages reached, what each peer did, and what passed from group to group.
    Run,
    /// The rounds of the run.
    Rounds,
    /// The topics of the run.
    Topics,
    /// The links of the run.
    Links,
}

/// A group of peers.
#[derive(Clone, Copy, Debug, Drop)]
pub struct Group<'a> {
    pub name: &'a str,
    /// The names of its peers, separated by commas. A `*` at the end of one stands for any rest.
    pub peers: &'a str,
}

/// Which sheets are wanted.
#[derive(Debug, Drop)]
pub struct Wanted<'a> {
    /// In the sheets of messages, only messages that these peers published first count.
    pub by: Choice<'a>,
    /// Only the traces of these peers count.
    pub among: Choice<'a>,
    pub groups: Seq<Group<'a>>,
    pub subject: Subject,
    pub layout: Layout,
}
