ghost use Rattle.std.specs.Prelude.{◌≡◌, ◌≤◌, ◌<◌, ◌+◌, ◌^◌, ℕ, true, List, [], ◌∷◌, length, unsigned_abs, All, IfOk};
ghost use Rattle.std.specs.Prelude.{IfSome, IsOk, OnErr, OnOk};
ghost use Rattle.std.specs.List.{IsDistinct, list_any};
ghost use Rattle.gs_base.specs.Names.{peers_of, same_topic};
ghost use Rattle.gs_base.specs.declared.names.Topic.{Topic as TopicValue};
ghost use Rattle.gs_base.specs.declared.neighbour.Neighbour.{Neighbour as NeighbourValue};
ghost use Rattle.gs_params.specs.Params.{AreInRange, FactorsAreInRange};
ghost use Rattle.gs_params.specs.Picks.{IsAscending};
ghost use Rattle.gs_score.specs.Accounts.{Covers, has_topic, misbehaviour_decay, rules_of};
ghost use Rattle.gs_score.specs.Counters.{most_counted, raised, read_at};
ghost use Rattle.gs_score.specs.Formula.{p3};
ghost use Rattle.gs_score.specs.Histories.{Agrees, Applies, Decayed, Grafted, History, Left, Marked, Setting};
ghost use Rattle.gs_score.specs.Histories.{ShutOut, accepts, held_by, is_known, misbehaviour, named, one};
ghost use Rattle.gs_score.specs.Histories.{raise_of, score_in};
ghost use Rattle.gs_score.specs.Ledgers.{BlamesIn, PutsIn, ReplacesIn, has_account, has_room, misbehaviour_of};
ghost use Rattle.gs_score.specs.Ledgers.{standing_of, topics_of};
ghost use Rattle.gs_score.specs.Addresses.{shut_out};
ghost use Rattle.gs_score.specs.Parts.{score_parts, topic_parts};
ghost use Rattle.gs_score.specs.Standings.{count, decay_of, grafted, pruned, raised_standing, stored};

use crate::accounts::{
    Account, blame, counts_of, graft_standing, has_account, has_room, misbehaviour_decay,
    misbehaviour_of, open_accounts, prune_standing, raise_standing, standing_of, topics_of,
};
use crate::addresses::Addresses;
use crate::counter::capped_deficit;
use crate::parts::{ScoreParts, TopicParts};
use crate::rulebook::Rulebook;
use crate::score::{score_of, score_parts_of};
use crate::standing::{Kind, Raise};
use gs_base::{Mark, Millis, Neighbour, PeerNo, Topic};
use gs_params::Params;
use indexmap::IndexMap;
use std::alloc::{AllocError, Global};
use std::marker::Model;

/// One, in millionths: the amount by which a mark raises a counter.
const ONE: u64 = 1_000_000;

/// The counters and the scores of a peer's neighbours.
///
/// It stores no history, but answers what a history would. That history has the marks that were applied, when neighbours
/// entered and left meshes, how often counters decayed, and who was shut out.
#[derive(Drop)]
pub struct Scores {
    rulebook: Rulebook,
    addresses: Addresses,
    accounts: IndexMap<PeerNo, Account>,
    decays: u64,
}

impl Model for Scores {
    ghost use Rattle.gs_score.specs.Ledgers.{IsSound, Kept};

    ghost Value = { Kept };

    ghost view = { λ s. record {
      params = s.rulebook;
      addresses = s.addresses;
      accounts = s.accounts.entries;
      decays = s.decays;
    } };

    ghost invariant = { λ s. IsSound (record {
      params = s.rulebook;
      addresses = s.addresses;
      accounts = s.accounts.entries;
      decays = s.decays;
    }) };
}

impl Scores {
    /// Returns the scores of neighbours before anything happened. The numbers of the neighbours ascend. What the
    /// application gives each is at most 10^12 millionths either way.
    ///
    /// # Errors
    /// `AllocError` when out of memory.
    pub fn new(
        alloc: Global,
        params: &Params,
        neighbours: &[Neighbour],
    ) -> Result<Scores, AllocError>
        requires in_range { AreInRange params.now }
        requires ascending { IsAscending (peers_of neighbours.now) }
        requires apps { All (λ (n : NeighbourValue). unsigned_abs n.app ≤ 10 ^ 12) neighbours.now }
        ensures { IfOk result (λ scores.
            Agrees (record { params = params.now; neighbours = neighbours.now }) scores []) }
    {
        prove_numbers_are_few(neighbours);
        let addresses = Addresses::new(alloc, neighbours)?;
        let accounts = open_accounts(alloc, neighbours)?;
        let rulebook = Rulebook::new(alloc, params)?;
        Ok(Scores {
            rulebook,
            addresses,
            accounts,
            decays: 0,
        })
    }

    /// Says whether `new` took a neighbour with this number, which has something on the topic, or something on fewer than
    /// 1,024 topics.
    pub fn has_room(&self, peer: PeerNo, topic: &Topic) -> bool
        ensures { result ≡ has_room self.now.accounts peer topic.now }
    {
        has_room(&self.accounts, peer, topic)
    }

    /// Says whether a mark may be applied. A mark that raises a counter must be about a neighbour, with room for its topic
    /// if it has one.
    pub fn accepts(&self, mark: &Mark) -> bool
        ensures { result ≡ accepts self.now.accounts mark.now }
    {
        match mark {
            Mark::First(peer, topic, _id) => has_room(&self.accounts, *peer, topic),
            Mark::Near(peer, topic, _id) => has_room(&self.accounts, *peer, topic),
            Mark::Deficit(peer, topic, _amount) => has_room(&self.accounts, *peer, topic),
            Mark::Invalid(peer, topic) => has_room(&self.accounts, *peer, topic),
            Mark::Misbehaviour(peer) => has_account(&self.accounts, *peer),
            _ => true,
        }
    }

    /// Returns how often counters decayed.
    pub fn decays(&self) -> u64
        ensures { result ≡ self.now.decays }
    {
        self.decays
    }

    /// Raises the counter that a mark raises, if any (gossipsub v1.1, Peer Scoring). It goes up by one, or by the amount of
    /// a deficit, up to its cap. `accepts` must allow the mark. It takes memory only if the neighbour had nothing on the
    /// topic.
    ///
    /// # Errors
    /// `AllocError` when out of memory; nothing is changed then.
    pub fn apply(&mut self, mark: &Mark) -> Result<(), AllocError>
        requires { accepts self.old.accounts mark.now ≡ true }
        ensures agrees { OnOk result ((s : Setting) (H : History)
            → Agrees s self.old H
            → Agrees s self.new (Marked mark.now ∷ H)) }
        ensures keeps { OnOk result (Applies self.old self.new mark.now) }
        ensures unchanged { OnErr result (self.new ≡ self.old) }
        ensures succeeds { IfSome (raise_of mark.now) (λ x. is_known self.old.accounts x ≡ true)
            → IsOk result }
    {
        match mark {
            Mark::First(peer, topic, _id) => {
                self.raise(*peer, topic, Kind::First, ONE)?;
                Ok(())
            }
            Mark::Near(peer, topic, _id) => {
                self.raise(*peer, topic, Kind::Near, ONE)?;
                Ok(())
            }
            Mark::Deficit(peer, topic, amount) => {
                self.raise(*peer, topic, Kind::Deficit, capped_deficit(amount))?;
                Ok(())
            }
            Mark::Invalid(peer, topic) => {
                self.raise(*peer, topic, Kind::Invalid, ONE)?;
                Ok(())
            }
            Mark::Misbehaviour(peer) => {
                self.blame(*peer);
                Ok(())
            }
            _ => Ok(()),
        }
    }

    /// Puts a neighbour into the mesh of a topic, for which it has room. It takes memory only if the neighbour had nothing
    /// on the topic.
    ///
    /// # Errors
    /// `AllocError` when out of memory; nothing is changed then.
    pub fn graft(&mut self, peer: PeerNo, topic: &Topic, now: Millis) -> Result<(), AllocError>
        requires room { has_room self.old.accounts peer topic.now ≡ true }
        ensures agrees { OnOk result ((s : Setting) (H : History)
            → Agrees s self.old H
            → Agrees s self.new (Grafted peer topic.now now ∷ H)) }
        ensures keeps { OnOk result (PutsIn self.old self.new peer topic.now
            (grafted now (standing_of self.old.accounts peer topic.now))) }
        ensures unchanged { OnErr result (self.new ≡ self.old) }
        ensures succeeds { has_topic (topics_of self.old.accounts peer) topic.now ≡ true → IsOk result }
    {
        graft_standing(&mut self.accounts, peer, topic, now)?;
        Ok(())
    }

    /// Returns the square of a neighbour's missing deliveries in the mesh of a topic, in millionths (P3): 0 to 10^18. The
    /// neighbour is charged with it when it leaves the mesh (P3b), by a separate mark.
    pub fn missing(&self, peer: PeerNo, topic: &Topic, now: Millis) -> u64
        ensures value { (s : Setting) (H : History)
            → Agrees s self.now H
            → result ≡ p3 (rules_of s.params topic.now) now.0 (held_by s.params H peer topic.now) }
        ensures most { result ≤ 10 ^ 18 }
    {
        let rules = self.rulebook.of(topic);
        standing_of(&self.accounts, peer, topic).missing(rules, self.decays, now)
    }

    /// Takes a neighbour out of the mesh of a topic. Its counters stay, and it is charged with nothing: the caller applies
    /// the mark with what is missing. It takes no memory.
    pub fn prune(&mut self, peer: PeerNo, topic: &Topic)
        ensures agrees { (s : Setting) (H : History)
            → Agrees s self.old H
            → Agrees s self.new (Left peer topic.now ∷ H) }
        ensures keeps { ReplacesIn self.old self.new peer topic.now
            (pruned (standing_of self.old.accounts peer topic.now)) }
    {
        prune_standing(&mut self.accounts, peer, topic);
    }

    /// Lets all counters decay by a step. It only counts the steps, so its cost does not depend on the number of counters.
    /// There were fewer than 2^63 steps before.
    pub fn decay(&mut self)
        requires few { self.old.decays < 2 ^ 63 }
        ensures agrees { (s : Setting) (H : History) → Agrees s self.old H → Agrees s self.new (Decayed ∷ H) }
        ensures counts { self.new ≡ record self.old { decays = self.old.decays + 1 } }
    {
        self.decays += 1;
    }

    /// Stops counting a neighbour at its address, for ever. It takes no memory.
    pub fn shut_out(&mut self, peer: PeerNo)
        ensures agrees { (s : Setting) (H : History) → Agrees s self.old H → Agrees s self.new (ShutOut peer ∷ H) }
        ensures keeps { self.new ≡ record self.old { addresses = shut_out peer self.old.addresses } }
    {
        self.addresses.shut_out(peer);
    }

    /// Returns a counter of a neighbour on a topic, in millionths: 0 to 10^12. It is the value that `stored` gives, after
    /// the missing decays.
    pub fn counter(&self, peer: PeerNo, topic: &Topic, kind: Kind) -> u64
        ensures value { (s : Setting) (H : History)
            → Agrees s self.now H
            → result ≡ count kind (held_by s.params H peer topic.now) }
        ensures decays { result
            ≡ read_at (decay_of (rules_of self.now.params topic.now) kind) self.now.decays
            (stored kind (standing_of self.now.accounts peer topic.now)) }
        ensures most { result ≤ 10 ^ 12 }
    {
        let rules = self.rulebook.of(topic);
        standing_of(&self.accounts, peer, topic).count(kind, rules, self.decays)
    }

    /// Returns the misbehaviour of a neighbour, which has no topic, in millionths: 0 to 10^12. It is the value that
    /// `stored_misbehaviour` gives, after the missing decays.
    pub fn misbehaviour(&self, peer: PeerNo) -> u64
        ensures value { (s : Setting) (H : History) → Agrees s self.now H → result ≡ misbehaviour s.params H peer }
        ensures decays { result
            ≡ read_at (misbehaviour_decay self.now.params) self.now.decays (misbehaviour_of self.now.accounts peer) }
        ensures most { result ≤ 10 ^ 12 }
    {
        let decay = misbehaviour_decay(self.rulebook.params());
        misbehaviour_of(&self.accounts, peer).read(decay, self.decays)
    }

    /// Returns what is stored for a counter: a value in millionths, and the number of decays up to which it was decayed.
    /// Both are 0 if the neighbour has nothing on the topic.
    pub fn stored(&self, peer: PeerNo, topic: &Topic, kind: Kind) -> (u64, u64)
        ensures { result
            ≡ (
              (stored kind (standing_of self.now.accounts peer topic.now)).value,
              (stored kind (standing_of self.now.accounts peer topic.now)).decays,
            ) }
    {
        standing_of(&self.accounts, peer, topic)
            .counter(kind)
            .stored()
    }

    /// Returns what is stored for misbehaviour: a value in millionths, and the number of decays up to which it was decayed.
    /// Both are 0 if the neighbour never misbehaved, or if no neighbour has this number.
    pub fn stored_misbehaviour(&self, peer: PeerNo) -> (u64, u64)
        ensures { result
            ≡ (
              (misbehaviour_of self.now.accounts peer).value,
              (misbehaviour_of self.now.accounts peer).decays,
            ) }
    {
        misbehaviour_of(&self.accounts, peer).stored()
    }

    /// Returns the score of a neighbour at a moment, in millionths (gossipsub v1.1, Peer Scoring, The Score Function).
    pub fn score(&self, peer: PeerNo, now: Millis) -> i128
        ensures { (s : Setting) (H : History) (topics : List TopicValue)
            → Agrees s self.now H
            → Covers (held_by s.params H peer) topics
            → result ≡ score_in s now.0 H peer topics }
    {
        let (topics, misbehaviour) = counts_of(
            &self.accounts,
            peer,
            &self.rulebook,
            self.decays,
            now,
        );
        let (app, number) = self.addresses.app_and_number(peer);
        let factors = &self.rulebook.params().factors;
        score_of(factors, topics, app, number, misbehaviour)
    }

    /// Returns the parts of a neighbour's score at a moment, over all topics. Their score is what `score` gives.
    pub fn score_parts(&self, peer: PeerNo, now: Millis) -> ScoreParts
        ensures { (s : Setting) (H : History) (topics : List TopicValue)
            → Agrees s self.now H
            → Covers (held_by s.params H peer) topics
            → result ≡ score_parts s now.0 H peer topics }
    {
        let rulebook = &self.rulebook;
        let (topics, misbehaviour) = counts_of(&self.accounts, peer, rulebook, self.decays, now);
        let (app, number) = self.addresses.app_and_number(peer);
        let factors = &rulebook.params().factors;
        score_parts_of(factors, topics, app, number, misbehaviour)
    }

    /// Returns the parts of what a topic gives a neighbour at a moment.
    pub fn topic_parts(&self, peer: PeerNo, topic: &Topic, now: Millis) -> TopicParts
        ensures { (s : Setting) (H : History)
            → Agrees s self.now H
            → result ≡ topic_parts (rules_of s.params topic.now) now.0 (held_by s.params H peer topic.now) }
    {
        let rules = self.rulebook.of(topic);
        standing_of(&self.accounts, peer, topic).parts(rules, self.decays, now)
    }

    /// Returns the topics on which something is kept for a neighbour, each once, in any order.
    ///
    /// # Errors
    /// `AllocError` when out of memory.
    pub fn topics(&self, alloc: Global, peer: PeerNo) -> Result<Vec<Topic>, AllocError>
        ensures each { IfOk result (λ list. (s : Setting) (H : History) (t : TopicValue)
            → Agrees s self.now H
            → list_any (same_topic t) list.items ≡ list_any (same_topic t) (named H peer)) }
        ensures distinct { IfOk result (λ list. IsDistinct same_topic list.items) }
    {
        let list = topics_of(alloc, &self.accounts, peer)?;
        Ok(list)
    }

    /// Raises a counter of a neighbour on a topic.
    ///
    /// # Errors
    /// `AllocError` when out of memory; nothing is changed then.
    fn raise(&mut self, peer: PeerNo, topic: &Topic, kind: Kind, by: u64) -> Result<(), AllocError>
        requires room { has_room self.old.accounts peer topic.now ≡ true }
        ensures puts { OnOk result (PutsIn self.old self.new peer topic.now
            (raised_standing (rules_of self.old.params topic.now) kind by self.old.decays
            (standing_of self.old.accounts peer topic.now))) }
        ensures unchanged { OnErr result (self.new ≡ self.old) }
        ensures succeeds { has_topic (topics_of self.old.accounts peer) topic.now ≡ true → IsOk result }
    {
        let rules = self.rulebook.of(topic);
        let raise = Raise {
            kind,
            by,
            rules,
            decays: self.decays,
        };
        raise_standing(&mut self.accounts, peer, topic, raise)?;
        Ok(())
    }

    /// Raises the misbehaviour of a neighbour by one.
    fn blame(&mut self, peer: PeerNo)
        requires known { has_account self.old.accounts peer ≡ true }
        ensures { BlamesIn self.old self.new peer (record {
          value = raised most_counted one
              (read_at (misbehaviour_decay self.old.params) self.old.decays (misbehaviour_of self.old.accounts peer));
          decays = self.old.decays;
        }) }
    {
        let decay = misbehaviour_decay(self.rulebook.params());
        blame(&mut self.accounts, peer, ONE, decay, self.decays);
    }
}

/// There are at most 65,536 neighbours with ascending numbers, since a number has 16 bits.
fn prove_numbers_are_few(neighbours: &[Neighbour])
    requires { IsAscending (peers_of neighbours.now) }
    ensures { length neighbours.now ≤ 65_536 }
{
    if let Some(last) = neighbours.last() {
        prove_number_fits(last.peer.0);
    }
}

/// A number has 16 bits.
fn prove_number_fits(number: u16)
    ensures { number < 65_536 }
{}
