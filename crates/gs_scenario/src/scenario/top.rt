//! The top table of a scenario.
ghost use Rattle.std.specs.Prelude.{◌≡◌, ◌≤◌, IfOk, length, map};
ghost use Rattle.gs_scenario.specs.Refusal.{Gives};
ghost use Rattle.gs_scenario.specs.PlanOf as spec;
ghost use Rattle.gs_scenario.specs.Views.{section_of, top_view};

use crate::fault::ScenarioFault;
use crate::scenario::section::Section;
use crate::scenario::tables::TableKind;
use gs_plan::{LONGEST_ROUND, Limits, MOST_PEERS, MOST_ROUNDS};
use toml::{Table, Value};

const ROUND_MS: &str = "round_ms";

const ROUNDS: &str = "rounds";

const WORKERS: &str = "workers";

const CAPACITY: &str = "capacity";

const SEED: &str = "seed";

const PARAMS: &str = "params";

const TOPIC: &str = "topic";

const PEER: &str = "peer";

const DIAL: &str = "dial";

const APP: &str = "app";

const EXPLICIT: &str = "explicit";

const DO: &str = "do";

/// Returns the keys of the top table.
pub fn keys() -> &'static [&'static str]
    ensures { map (λ key. key.now) result.now ≡ spec.top_keys }
{
    &[
        ROUND_MS, ROUNDS, WORKERS, CAPACITY, SEED, PARAMS, TOPIC, PEER, DIAL, APP, EXPLICIT, DO,
    ]
}

/// What the top table holds. The table and the lists in it are read later.
#[derive(Clone, Copy)]
pub struct Top<'a> {
    pub round_ms: u64,
    pub rounds: u64,
    pub workers: u64,
    pub capacity: u64,
    pub seed: u64,
    pub params: Option<&'a Table>,
    pub topics: &'a [Value],
    pub peers: &'a [Value],
    pub dials: &'a [Value],
    pub apps: &'a [Value],
    pub explicit: &'a [Value],
    pub script: &'a [Value],
}

impl<'a> Top<'a> {
    /// Returns what the top table holds, with its keys read in their order.
    #[tactic(auto, unfolding(crate::specs::PlanOf::top_in, crate::specs::Keys::only))]
    pub fn read(limits: Limits, top: Section<'a>) -> Result<Top<'a>, ScenarioFault>
        ensures plan { Gives top_view result (spec.top_in limits (section_of top.entry)) }
        ensures round_ms { IfOk result (λ top.
            (1 ≤ top.round_ms) × (top.round_ms ≤ LONGEST_ROUND)) }
        ensures peers { IfOk result (λ top. length top.peers.now ≤ MOST_PEERS) }
    {
        top.only(TableKind::Top)?;
        Ok(Top {
            round_ms: top.number(ROUND_MS, 1, LONGEST_ROUND)?,
            rounds: top.number(ROUNDS, 1, MOST_ROUNDS)?,
            workers: top.number(WORKERS, 1, 16)?,
            capacity: top.number(CAPACITY, 1, 1_024)?,
            seed: top.number(SEED, 0, 0x7FFF_FFFF_FFFF_FFFF)?,
            params: top.table(PARAMS)?,
            topics: top.list(TOPIC, 1, 32)?,
            peers: top.list(PEER, 1, limits.most_peers())?,
            dials: top.optional_list(DIAL)?,
            apps: top.optional_list(APP)?,
            explicit: top.optional_list(EXPLICIT)?,
            script: top.optional_list(DO)?,
        })
    }
}
