//! The lists of a scenario.
ghost use Rattle.std.specs.Prelude.{◌≡◌, [], IfOk, List, Result, length};
ghost use Rattle.toml.specs.Data.{Data};
ghost use Rattle.toml.specs.View.{items_view};
ghost use Rattle.gs_scenario.specs.declared.fault.ScenarioFault.{ScenarioFault as Fault};
ghost use Rattle.gs_scenario.specs.Refusal.{GivesSame};
ghost use Rattle.gs_scenario.specs.Keys.{read_each};
ghost use Rattle.gs_scenario.specs.Views.{ReadsAs};

use crate::fault::ScenarioFault;
use gs_base::Seq;
use std::alloc::Global;
use toml::Value;

/// Returns the elements of a list in their order. Each is read with the elements before it.
#[tactic(auto, unfolding(crate::specs::Keys::read_each))]
pub fn read_each<T, F>(alloc: Global, list: &[Value], read: F) -> Result<Seq<T>, ScenarioFault>
where
    T: Drop,
    F: Fn(&[T], &Value) -> Result<T, ScenarioFault>,
    ghost reads: { List T → Data → Result T Fault }
    requires callable { F.IsAlwaysCallable read }
    requires each { ReadsAs (F.post read) reads }
    ensures read { GivesSame result (read_each reads [] (items_view list.now)) }
    ensures count { IfOk result (λ elements. length elements ≡ length list.now) }
{
    let mut elements = Seq::new(alloc);
    for value in list {
        let element = read(elements.as_slice(), value)?;
        elements.push(element)?;
    }
    Ok(elements)
}
