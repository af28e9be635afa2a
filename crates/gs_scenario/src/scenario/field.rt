//! A value at its place, and how it is read as a value of some kind.
ghost use Rattle.std.specs.Prelude.{◌≡◌, ◌≢◌, ◌≤◌, ◌⊎◌, Err, IfErr, IfOk, None, Ok, Some, length, option_map, option_and_then};
ghost use Rattle.hex.specs.declared.error.FromHexError.TheVariants.{OutOfMemory};
ghost use Rattle.std.specs.List.{list_all};
ghost use Rattle.toml.specs.Data.{as_integer, as_str, as_array};
ghost use Rattle.toml.specs.View.{view, items_view, table_view};
ghost use Rattle.gs_scenario.specs.declared.fault.ScenarioFault.TheVariants.{NoMemory, UnknownName, Repeated};
ghost use Rattle.gs_scenario.specs.Refusal.{Gives, GivesSame};
ghost use Rattle.gs_scenario.specs.Kinds as kinds;
ghost use Rattle.gs_scenario.specs.Views.{element_text, place_text, read_as, section_of};

use crate::fault::ScenarioFault;
use crate::reason::{Found, NameKind, Wanted};
use crate::scenario::place::{Element, Path, Place};
use crate::scenario::section::Section;
use bytes::Bytes;
use gs_base::{Seq, Text};
use hex::FromHexError;
use std::alloc::{AllocError, Global};
use toml::{Table, Value};

/// A value of a scenario, and where it stands.
#[derive(Clone, Copy)]
pub struct Field<'a> {
    /// The allocator of what is read, and of the refusal.
    pub alloc: Global,
    pub place: Place<'a>,
    pub value: &'a Value,
}

impl<'a> Field<'a> {
    /// Returns the refusal of this value, which is not the wanted one.
    ///
    /// # Errors
    /// `AllocError` when out of memory.
    pub fn out_of_range(&self, wanted: Wanted) -> Result<ScenarioFault, AllocError>
        ensures { IfOk result (λ fault. fault
            ≡ kinds.out_of_range (place_text self.now.place) (view self.now.value.now) wanted) }
    {
        let place = self.place.to_text(self.alloc)?;
        let found = Found::of(self.alloc, self.value)?;
        Ok(ScenarioFault::Range(place, found, wanted))
    }

    /// Returns the refusal of a name that nothing of this kind has.
    ///
    /// # Errors
    /// `AllocError` when out of memory.
    pub fn unknown(&self, name: &str, kind: NameKind) -> Result<ScenarioFault, AllocError>
        ensures { IfOk result (λ fault. fault ≡ UnknownName (place_text self.now.place) name.now kind) }
    {
        let place = self.place.to_text(self.alloc)?;
        let name = Text::from_str(self.alloc, name)?;
        Ok(ScenarioFault::UnknownName(place, name, kind))
    }

    /// Returns the refusal of a name that stands for the second time.
    ///
    /// # Errors
    /// `AllocError` when out of memory.
    pub fn repeated(&self) -> Result<ScenarioFault, AllocError>
        ensures { IfOk result (λ fault. fault ≡ Repeated (place_text self.now.place)) }
    {
        Ok(ScenarioFault::Repeated(self.place.to_text(self.alloc)?))
    }

    /// Returns a whole number from low to high.
    pub fn whole_number(&self, low: u64, high: u64) -> Result<u64, ScenarioFault>
        ensures number { GivesSame result (read_as (kinds.whole_number low high) self.now) }
        ensures within { IfOk result (λ number. (low ≤ number) × (number ≤ high)) }
    {
        if let Some(number) = self.value.as_integer() {
            if number >= 0 {
                let number = number as u64;
                if low <= number && number <= high {
                    return Ok(number);
                }
            }
        }
        Err(self.out_of_range(Wanted::Number(low, high))?)
    }

    /// Returns a whole number of either sign, from low to high.
    pub fn signed_number(&self, low: i64, high: i64) -> Result<i64, ScenarioFault>
        ensures { GivesSame result (read_as (kinds.signed_number low high) self.now) }
    {
        if let Some(number) = self.value.as_integer() {
            if (low..=high).contains(&number) {
                return Ok(number);
            }
        }
        Err(self.out_of_range(Wanted::SignedNumber(low, high))?)
    }

    /// Returns a whole number from low to high that is a multiple of a step.
    pub fn multiple(&self, low: u64, high: u64, step: u64) -> Result<u64, ScenarioFault>
        requires { 1 ≤ step }
        ensures { GivesSame result
            (read_as (kinds.multiple_of step (kinds.whole_number low high)) self.now) }
    {
        let number = self.whole_number(low, high)?;
        if number % step == 0 {
            Ok(number)
        } else {
            Err(self.out_of_range(Wanted::Multiple(step))?)
        }
    }

    /// Returns true or false.
    pub fn truth_value(&self) -> Result<bool, ScenarioFault>
        ensures { GivesSame result (read_as kinds.truth_value self.now) }
    {
        match self.value.as_bool() {
            Some(value) => Ok(value),
            None => Err(self.out_of_range(Wanted::TruthValue)?),
        }
    }

    /// Returns a table. Its keys are read later.
    pub fn table(&self) -> Result<&'a Table, ScenarioFault>
        ensures { Gives (λ table. table_view table.now) result
            (read_as kinds.any_table self.now) }
    {
        match self.value.as_table() {
            Some(table) => Ok(table),
            None => Err(self.out_of_range(Wanted::Table)?),
        }
    }

    /// Returns a list of low to high elements.
    #[tactic(auto, using(crate::proofs::Lists::item_count_view))]
    pub fn list(&self, low: usize, high: usize) -> Result<&'a [Value], ScenarioFault>
        ensures list { Gives (λ list. items_view list.now) result
            (read_as (kinds.list_of low high) self.now) }
        ensures within { IfOk result (λ list. (low ≤ length list.now) × (length list.now ≤ high)) }
    {
        if let Some(list) = self.value.as_array() {
            if low <= list.len() && list.len() <= high {
                return Ok(list.as_slice());
            }
        }
        Err(self.out_of_range(Wanted::Elements(low, high))?)
    }

    /// Returns a list of any length. Its elements are read later.
    pub fn any_list(&self) -> Result<&'a [Value], ScenarioFault>
        ensures { Gives (λ list. items_view list.now) result (read_as kinds.any_list self.now) }
    {
        match self.value.as_array() {
            Some(list) => Ok(list.as_slice()),
            None => Err(self.out_of_range(Wanted::List)?),
        }
    }

    /// Returns any text, even an empty one.
    pub fn text(&self) -> Result<&'a str, ScenarioFault>
        ensures { Gives (λ text. text.now) result (read_as kinds.any_text self.now) }
    {
        match self.value.as_str() {
            Some(text) => Ok(text),
            None => Err(self.out_of_range(Wanted::Text)?),
        }
    }

    /// Returns a name: 1 to 32 of `a` to `z`, `0` to `9`, `_` and `-`.
    pub fn name(&self) -> Result<&'a str, ScenarioFault>
        ensures { Gives (λ text. text.now) result (read_as kinds.name_text self.now) }
    {
        if let Some(text) = self.value.as_str() {
            if is_name(text) {
                return Ok(text);
            }
        }
        Err(self.out_of_range(Wanted::Name)?)
    }

    /// Returns the bytes of a text with an even number of hex digits, in either case.
    pub fn hex(&self) -> Result<Bytes, ScenarioFault>
        ensures { GivesSame result (read_as kinds.hex_text self.now) }
    {
        if let Some(text) = self.value.as_str() {
            if let Some(bytes) = decoded(hex::decode(self.alloc, text))? {
                return Ok(Bytes::from_vec(bytes)?);
            }
        }
        Err(self.out_of_range(Wanted::Hex)?)
    }

    /// Returns the bytes of a text of hex digits, at most `most` bytes.
    pub fn short_hex(&self, most: usize) -> Result<Bytes, ScenarioFault>
        ensures { GivesSame result (read_as (kinds.short_hex most) self.now) }
    {
        let bytes = self.hex()?;
        if bytes.len() > most {
            return Err(self.out_of_range(Wanted::ShortHex(most))?);
        }
        Ok(bytes)
    }

    /// Returns the bytes of each hex text of a list.
    #[tactic(auto, unfolding(crate::specs::Keys::read_each))]
    pub fn prefixes(&self) -> Result<Seq<Bytes>, ScenarioFault>
        ensures { GivesSame result (read_as (kinds.list_of_each kinds.hex_text) self.now) }
    {
        let list = self.any_list()?;
        let mut prefixes = Seq::new(self.alloc);
        for value in list {
            let item = Field { value, ..*self };
            let prefix = item.hex()?;
            prefixes.push(prefix)?;
        }
        Ok(prefixes)
    }

    /// Returns the 32-bit words of a list.
    #[tactic(auto, unfolding(crate::specs::Keys::read_each))]
    pub fn words(&self) -> Result<Seq<u32>, ScenarioFault>
        ensures { GivesSame result (read_as kinds.words self.now) }
    {
        let list = self.any_list()?;
        let mut words = Seq::new(self.alloc);
        for value in list {
            let item = Field { value, ..*self };
            let word = item.whole_number(0, 0xFFFF_FFFF)?;
            words.push(word as u32)?;
        }
        Ok(words)
    }
}

/// Returns an element of a list as a table at its place.
pub fn table_of<'a>(
    alloc: Global,
    element: Element<'a>,
    value: &'a Value,
) -> Result<Section<'a>, ScenarioFault>
    ensures { Gives section_of result (kinds.table_at (element_text element.entry) (view value.now)) }
{
    let place = Place::Element(element);
    let table = Field {
        alloc,
        place,
        value,
    }
    .table()?;
    let path = Path::Within(element);
    Ok(Section { alloc, path, table })
}

/// Returns the bytes that were decoded, or none if the text is not made of pairs of hex digits.
///
/// # Errors
/// `NoMemory` if memory ran out.
fn decoded(made: Result<Vec<u8>, FromHexError>) -> Result<Option<Vec<u8>>, ScenarioFault>
    ensures bytes { IfOk made (λ bytes. result ≡ Ok (Some bytes)) }
    ensures none { IfErr made (λ fault. ((fault ≡ OutOfMemory) × (result ≡ Err NoMemory))
        ⊎ ((fault ≢ OutOfMemory) × (result ≡ Ok None))) }
{
    match made {
        Ok(bytes) => Ok(Some(bytes)),
        Err(FromHexError::InvalidHexCharacter { .. })
        | Err(FromHexError::OddLength)
        | Err(FromHexError::InvalidStringLength) => Ok(None),
        Err(FromHexError::OutOfMemory) => Err(ScenarioFault::NoMemory),
    }
}

fn is_name(text: &str) -> bool
    ensures { result ≡ kinds.is_name text.now }
{
    1 <= text.len() && text.len() <= 32 && has_name_bytes(text)
}

fn has_name_bytes(text: &str) -> bool
    ensures { result ≡ list_all kinds.is_name_byte text.now }
{
    text.as_bytes().iter().all(|byte| is_name_byte(*byte))
}

fn is_name_byte(byte: u8) -> bool
    ensures { result ≡ kinds.is_name_byte byte }
{
    matches!(byte, b'a'..=b'z' | b'0'..=b'9' | b'_' | b'-')
}
