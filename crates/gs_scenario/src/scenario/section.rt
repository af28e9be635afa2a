//! A table of a scenario, and how its keys are read.
ghost use Rattle.std.specs.Prelude.{◌≡◌, [], ◌++◌, ◌≤◌, IfOk, IfSome, length, option_map, unwrap_or, map};
ghost use Rattle.toml.specs.Data.{get_member, no_items, no_members};
ghost use Rattle.toml.specs.View.{view, items_view, table_view};
ghost use Rattle.gs_plan.specs.Plans.{highest_phase};
ghost use Rattle.gs_scenario.specs.declared.fault.ScenarioFault.TheVariants.{Missing};
ghost use Rattle.gs_scenario.specs.Refusal.{Gives, GivesSame};
ghost use Rattle.gs_scenario.specs.Keys.{required, optional, read_key, only, is_one_of, or_refuse};
ghost use Rattle.gs_scenario.specs.Kinds as kinds;
ghost use Rattle.gs_scenario.specs.ParamsOf.{count_key, multiple_key, reward_key, score_key, prefixes_key};
ghost use Rattle.gs_scenario.specs.PlanOf.{known_keys};
ghost use Rattle.gs_scenario.specs.Views.{held_at, path_text, place_text, section_of};

use crate::fault::ScenarioFault;
use crate::reason::{Found, Wanted};
use crate::scenario::field::Field;
use crate::scenario::place::{Path, Place};
use crate::scenario::tables::TableKind;
use bytes::Bytes;
use gs_base::Seq;
use gs_plan::HIGHEST_PHASE;
use std::alloc::Global;
use toml::{Table, Value};

/// The highest number that a parameter may have. The lowest is its negative.
const HIGHEST_NUMBER: u64 = 1_000_000_000_000;

/// The highest number where either sign is allowed.
const HIGHEST_SCORE: i64 = HIGHEST_NUMBER as i64;

/// A table of a scenario, and where it stands.
#[derive(Clone, Copy)]
pub struct Section<'a> {
    /// The allocator of what is read, and of a refusal.
    pub alloc: Global,
    pub path: Path<'a>,
    pub table: &'a Table,
}

impl<'a> Section<'a> {
    /// Refuses the first key, in the order of bytes, that such a table may not have.
    #[tactic(auto, unfolding(crate::specs::Keys::only))]
    pub fn only(&self, kind: TableKind) -> Result<(), ScenarioFault>
        ensures { GivesSame result (only kind (known_keys kind) (section_of self.now)) }
    {
        let known = kind.known_keys();
        for (key, _value) in self.table {
            if !is_one_of(known, key.as_str()) {
                let place = Place::Key(self.path, key.as_str());
                return Err(ScenarioFault::UnknownKey(place.to_text(self.alloc)?, kind));
            }
        }
        Ok(())
    }

    /// Returns what the table holds at a key.
    fn get(&self, key: &str) -> Option<&'a Value>
        ensures { option_map (λ value. view value.now) result
            ≡ get_member key.now (section_of self.now).members }
    {
        self.table.get(key)
    }

    /// Returns what the table holds at a required key.
    pub fn required(&self, key: &'a str) -> Result<Field<'a>, ScenarioFault>
        ensures place { IfOk result (λ field.
            place_text field.place ≡ path_text self.now.path ++ key.now) }
        ensures found { Gives (λ field. view field.value.now) result (or_refuse
            (Missing (path_text self.now.path ++ key.now))
            (get_member key.now (section_of self.now).members)) }
    {
        let place = Place::Key(self.path, key);
        match self.get(key) {
            Some(value) => Ok(Field {
                alloc: self.alloc,
                place,
                value,
            }),
            None => Err(ScenarioFault::Missing(place.to_text(self.alloc)?)),
        }
    }

    /// Returns what the table holds at a key that may be missing.
    pub fn optional(&self, key: &'a str) -> Option<Field<'a>>
        ensures place { IfSome result (λ field.
            place_text field.place ≡ path_text self.now.path ++ key.now) }
        ensures found { option_map (λ field. view field.value.now) result
            ≡ get_member key.now (section_of self.now).members }
    {
        let value = self.get(key)?;
        Some(Field {
            alloc: self.alloc,
            place: Place::Key(self.path, key),
            value,
        })
    }

    /// Returns the whole number from low to high at a required key.
    pub fn number(&self, key: &'a str, low: u64, high: u64) -> Result<u64, ScenarioFault>
        ensures number { GivesSame result
            (held_at (required key.now (kinds.whole_number low high)) self.now) }
        ensures within { IfOk result (λ number. (low ≤ number) × (number ≤ high)) }
    {
        self.required(key)?.whole_number(low, high)
    }

    /// Returns the whole number of either sign from low to high at a required key.
    pub fn signed_number(&self, key: &'a str, low: i64, high: i64) -> Result<i64, ScenarioFault>
        ensures { GivesSame result
            (held_at (required key.now (kinds.signed_number low high)) self.now) }
    {
        self.required(key)?.signed_number(low, high)
    }

    /// Returns the count at a key, and the default where the key is missing.
    pub fn count(&self, key: &'a str, default: u64) -> Result<u64, ScenarioFault>
        ensures { GivesSame result (held_at (count_key key.now default) self.now) }
    {
        self.optional(key)
            .map_or(Ok(default), |field| field.whole_number(0, HIGHEST_NUMBER))
    }

    /// Returns the count at a key, and the default where the key is missing. Either must be a multiple of a step.
    pub fn multiple(&self, key: &'a str, default: u64, step: u64) -> Result<u64, ScenarioFault>
        requires { 1 ≤ step }
        ensures { GivesSame result (held_at (multiple_key step key.now default) self.now) }
    {
        if let Some(field) = self.optional(key) {
            return field.multiple(0, HIGHEST_NUMBER, step);
        }
        if default % step == 0 {
            return Ok(default);
        }
        let place = Place::Key(self.path, key).to_text(self.alloc)?;
        let found = Found::Default(default);
        Err(ScenarioFault::Range(place, found, Wanted::Multiple(step)))
    }

    /// Returns the milliseconds at a key, which must be a multiple of a step, and 0 where the key is missing.
    pub fn phase(&self, key: &'a str, step: u64) -> Result<u64, ScenarioFault>
        requires { 1 ≤ step }
        ensures { GivesSame result (held_at
            (optional key.now (kinds.multiple_of step (kinds.whole_number 0 highest_phase)) 0) self.now) }
    {
        match self.optional(key) {
            Some(field) => field.multiple(0, HIGHEST_PHASE, step),
            None => Ok(0),
        }
    }

    /// Returns the weight of a reward at a key, and the default where the key is missing.
    pub fn reward(&self, key: &'a str, default: i64) -> Result<i64, ScenarioFault>
        ensures { GivesSame result (held_at (reward_key key.now default) self.now) }
    {
        self.optional(key)
            .map_or(Ok(default), |field| field.signed_number(0, HIGHEST_SCORE))
    }

    /// Returns the millionths of either sign at a key, and the default where the key is missing.
    pub fn score(&self, key: &'a str, default: i64) -> Result<i64, ScenarioFault>
        ensures { GivesSame result (held_at (score_key key.now default) self.now) }
    {
        self.optional(key).map_or(
            Ok(default),
            |field| field.signed_number(-HIGHEST_SCORE, HIGHEST_SCORE),
        )
    }

    /// Returns the truth value at a key, and the default where the key is missing.
    pub fn truth_value(&self, key: &'a str, default: bool) -> Result<bool, ScenarioFault>
        ensures { GivesSame result (held_at (optional key.now kinds.truth_value default) self.now) }
    {
        self.optional(key)
            .map_or(Ok(default), |field| field.truth_value())
    }

    /// Returns the bytes of each hex text of the list at a key, and none where the key is missing.
    pub fn prefixes(&self, key: &'a str) -> Result<Seq<Bytes>, ScenarioFault>
        ensures { GivesSame result (held_at (prefixes_key key.now) self.now) }
    {
        self.optional(key)
            .map_or(Ok(Seq::new(self.alloc)), |field| field.prefixes())
    }

    /// Returns the 32-bit words of the list at a key, and none where the key is missing.
    pub fn words(&self, key: &'a str) -> Result<Seq<u32>, ScenarioFault>
        ensures { GivesSame result (held_at (optional key.now kinds.words []) self.now) }
    {
        self.optional(key)
            .map_or(Ok(Seq::new(self.alloc)), |field| field.words())
    }

    /// Returns the text at a key, and the default where the key is missing.
    pub fn text(&self, key: &'a str, default: &'a str) -> Result<&'a str, ScenarioFault>
        ensures { Gives (λ text. text.now) result
            (held_at (optional key.now kinds.any_text default.now) self.now) }
    {
        self.optional(key).map_or(Ok(default), |field| field.text())
    }

    /// Returns the table at a key that may be missing.
    pub fn table(&self, key: &'a str) -> Result<Option<&'a Table>, ScenarioFault>
        ensures { Gives (λ table. unwrap_or (option_map (λ found. table_view found.now) table) no_members)
            result (held_at (optional key.now kinds.any_table no_members) self.now) }
    {
        self.optional(key).map(|field| field.table()).transpose()
    }

    /// Returns the list of low to high elements at a required key.
    pub fn list(&self, key: &'a str, low: usize, high: usize) -> Result<&'a [Value], ScenarioFault>
        ensures list { Gives (λ list. items_view list.now) result
            (held_at (required key.now (kinds.list_of low high)) self.now) }
        ensures within { IfOk result (λ list. (low ≤ length list.now) × (length list.now ≤ high)) }
    {
        self.required(key)?.list(low, high)
    }

    /// Returns the list at a key, and an empty list where the key is missing.
    pub fn optional_list(&self, key: &'a str) -> Result<&'a [Value], ScenarioFault>
        ensures { Gives (λ list. items_view list.now) result
            (held_at (optional key.now kinds.any_list no_items) self.now) }
    {
        self.optional(key).map_or(Ok(&[]), |field| field.any_list())
    }

    /// Returns the bytes of the hex text at a required key.
    pub fn hex(&self, key: &'a str) -> Result<Bytes, ScenarioFault>
        ensures { GivesSame result (held_at (required key.now kinds.hex_text) self.now) }
    {
        self.required(key)?.hex()
    }

    /// Returns the bytes of the hex text at a required key, at most `most` bytes.
    pub fn short_hex(&self, key: &'a str, most: usize) -> Result<Bytes, ScenarioFault>
        ensures { GivesSame result (held_at (required key.now (kinds.short_hex most)) self.now) }
    {
        self.required(key)?.short_hex(most)
    }
}

fn is_one_of(names: &[&str], name: &str) -> bool
    ensures { result ≡ is_one_of (map (λ known. known.now) names.now) name.now }
{
    names.contains(&name)
}
