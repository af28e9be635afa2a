//! The first publication of each message, in order.
ghost use Rattle.std.specs.Prelude.{◌≡◌, [], ◌∷◌, ◌++◌, IfOk, List, OnOk, nat_eq};
ghost use Rattle.std.specs.List.{list_any};
ghost use Rattle.gs_reach.specs.declared.listed.Appearance.{Appearance as AppearanceValue};
ghost use Rattle.gs_reach.specs.declared.listed.Arrival.{Arrival as ArrivalValue};
ghost use Rattle.gs_reach.specs.Filed.{FilesPublished};
ghost use Rattle.gs_reach.specs.Messages.{firsts, in_order};

use crate::catalogue::{file_publication, said_of};
use crate::filing::found;
use crate::keys::TopicPayload;
use crate::listed::{Appearance, Arrival};
use gs_base::clone_of;
use indexmap::IndexMap;
use std::alloc::{AllocError, Global};

/// The first publication of each message, by moment.
pub(crate) fn firsts_in_order(
    alloc: Global,
    published: &[Appearance],
) -> Result<Vec<Appearance>, AllocError>
    ensures { IfOk result (λ list. list.items ≡ in_order (firsts published.now)) }
{
    let firsts = firsts(alloc, published)?;
    in_order(firsts)
}

/// The same publications by moment. Those at the same moment keep their order.
fn in_order(publications: Vec<Appearance>) -> Result<Vec<Appearance>, AllocError>
    ensures { IfOk result (λ list. list.items ≡ in_order publications.items) }
{
    let mut publications = publications;
    publications.sort_by_key(|publication| publication.at.0)?;
    Ok(publications)
}

/// Each publication, except those that are the same message as one before it.
fn firsts(alloc: Global, published: &[Appearance]) -> Result<Vec<Appearance>, AllocError>
    ensures { IfOk result (λ list. list.items ≡ firsts published.now) }
{
    let mut filed = IndexMap::new(alloc);
    let mut firsts = Vec::new(alloc);
    for one in published {
        note_first(&filed, &mut firsts, one)?;
        file_publication(alloc, &mut filed, one)?;
    }
    drop(filed);
    Ok(firsts)
}

/// Notes a publication, if it is not the same message as one before it.
fn note_first(
    filed: &IndexMap<TopicPayload, Vec<Arrival>>,
    list: &mut Vec<Appearance>,
    one: &Appearance,
) -> Result<(), AllocError>
    ensures { OnOk result ((before : List AppearanceValue)
        → FilesPublished filed.now before
        → list.old.items ≡ firsts before
        → list.new.items ≡ firsts (before ++ one.now ∷ [])) }
{
    let said = said_of(one)?;
    let is_known = is_published_at(found(filed, &said), one);
    drop(said);
    if is_known {
        return Ok(());
    }
    list.push(clone_of(one)?)?;
    Ok(())
}

/// Whether one of these is at the moment of a publication.
fn is_published_at(published: &[Arrival], one: &Appearance) -> bool
    ensures { result ≡ list_any (λ (x : ArrivalValue). nat_eq x.at.0 one.now.at.0) published.now }
{
    published.iter().any(|arrival| arrival.at.0 == one.at.0)
}
