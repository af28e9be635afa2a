ghost use Rattle.std.specs.Prelude.{◌≡◌, IfOk, List, None, Some, if◌then◌else◌, true};
ghost use Rattle.std.specs.List.{list_any};
ghost use Rattle.std.specs.Map.{lookup};
ghost use Rattle.std.specs.Ordering.{is_eq};
ghost use Rattle.gs_base.specs.Names.{same_topic};
ghost use Rattle.gs_base.specs.declared.names.Topic.{Topic as TopicValue};
ghost use Rattle.gs_rules.specs.Tables.{ascending, topic_order};

use gs_base::{Topic, clone_of};
use std::alloc::{AllocError, Global};
use std::collections::BTreeMap;

/// Returns these topics in the order of their bytes, each once. They are shared, not copied.
///
/// # Errors
/// `AllocError` if memory runs out.
pub fn in_order(alloc: Global, topics: &[Topic]) -> Result<Vec<Topic>, AllocError>
    ensures { IfOk result (λ list. list.items ≡ ascending topics.now) }
{
    let tree = tree_of(alloc, topics)?;
    let list = listed(alloc, &tree)?;
    Ok(list)
}

/// Returns the topics of a tree that have `true`.
fn listed(alloc: Global, tree: &BTreeMap<Topic, bool>) -> Result<Vec<Topic>, AllocError>
    ensures { IfOk result (λ list. (ts : List TopicValue)
        → ((t : TopicValue)
        → lookup (λ u. is_eq (topic_order t u)) tree.now.entries
        ≡ (if list_any (same_topic t) ts then Some true else None))
        → list.items ≡ ascending ts) }
{
    let mut list = Vec::new(alloc);
    for (topic, is_listed) in tree {
        if *is_listed {
            list.push(clone_of(topic)?)?;
        }
    }
    Ok(list)
}

/// Returns a tree of these topics, each with `true`.
fn tree_of(alloc: Global, topics: &[Topic]) -> Result<BTreeMap<Topic, bool>, AllocError>
    ensures { IfOk result (λ tree. (t : TopicValue)
        → lookup (λ u. is_eq (topic_order t u)) tree.entries
        ≡ (if list_any (same_topic t) topics.now then Some true else None)) }
{
    let mut tree = BTreeMap::new(alloc);
    for topic in topics {
        tree.insert(clone_of(topic)?, true)?;
    }
    Ok(tree)
}
