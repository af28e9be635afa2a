//! Values that are filed under keys, in the order of their filing.
ghost use Rattle.std.specs.Prelude.{◌≡◌, [], ◌∷◌, ◌++◌, if◌then◌else◌, OnOk};
ghost use Rattle.gs_reach.specs.Filed.{found};

use indexmap::IndexMap;
use std::alloc::{AllocError, Global};
use std::hash::Hash;

/// The values that are filed under a key, in order.
pub(crate) fn found<'a, K: Eq + Hash + Drop, V: Drop>(
    filed: &'a IndexMap<K, Vec<V>>,
    key: &K,
) -> &'a [V]
    ensures { result.now ≡ found K.eq filed.now key.now }
{
    match filed.get(key) {
        Some(values) => values.as_slice(),
        None => &[],
    }
}

/// Files a value under a key, after those that are there.
pub(crate) fn file<K: Eq + Hash + Drop, V: Drop>(
    alloc: Global,
    filed: &mut IndexMap<K, Vec<V>>,
    key: K,
    value: V,
) -> Result<(), AllocError>
    ensures { OnOk result ((k : K)
        → found K.eq filed.new k ≡ found K.eq filed.old k ++ (if K.eq k key then value ∷ [] else [])) }
{
    match filed.get_mut(&key) {
        Some(values) => {
            values.push(value)?;
            Ok(())
        }
        None => {
            let mut values = Vec::new(alloc);
            values.push(value)?;
            filed.insert(key, values)?;
            Ok(())
        }
    }
}
