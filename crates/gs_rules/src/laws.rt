//! Laws about traces and rounds. Each is about definitions only, and its function does nothing.
ghost use Rattle.std.specs.Prelude.{ℕ, true, false, ◌≡◌, ◌<◌, ◌≤◌, ◌+◌, ◌∷◌, ◌++◌, ◌&&◌, [], List, None, Some, length, map, nat_le, reverse};
ghost use Rattle.std.specs.List.{All, AllByRecursion, IsAmong, list_any};
ghost use Rattle.std.specs.List.Sorted.{IsStrictlySortedBy};
ghost use Rattle.gs_base.specs.declared.names.PeerNo.{PeerNo as PeerNoValue};
ghost use Rattle.gs_base.specs.declared.names.Topic.{Topic};
ghost use Rattle.gs_base.specs.declared.names.MsgId.{MsgId};
ghost use Rattle.gs_base.specs.declared.mark.Mark.TheVariants.{Misbehaviour};
ghost use Rattle.gs_base.specs.Codecs.{Codec};
ghost use Rattle.gs_base.specs.declared.rpc.Rpc.{Rpc as RpcValue};
ghost use Rattle.gs_base.specs.Names.{same_id, same_topic};
ghost use Rattle.gs_base.specs.Rpcs.{most_identifiers};
ghost use Rattle.gs_params.specs.Picks.{IsAscending};
ghost use Rattle.gs_mesh.specs.Peers.{is_among};
ghost use Rattle.gs_mesh.specs.declared.heartbeat.MeshChange.{MeshChange};
ghost use Rattle.gs_mesh.specs.MeshSteps.{IsMeshStep};
ghost use Rattle.gs_score.specs.Addresses.{is_counted};
ghost use Rattle.gs_score.specs.Histories.{addresses_in};
ghost use Rattle.gs_wire.specs.Codec.{codec};
ghost use Rattle.gs_rules.specs.declared.trace.Effects.{Effects};
ghost use Rattle.gs_rules.specs.declared.trace.Entry.{Entry};
ghost use Rattle.gs_rules.specs.declared.trace.Promise.{Promise};
ghost use Rattle.gs_rules.specs.declared.event.Event.{Event};
ghost use Rattle.gs_rules.specs.declared.event.Event.TheVariants.{BeatBegin, Shut, Step};
ghost use Rattle.gs_rules.specs.declared.event.BeatStep.TheVariants.{MeshBeat};
ghost use Rattle.gs_rules.specs.declared.refusal.RefusedLine.{RefusedLine};
ghost use Rattle.gs_rules.specs.Peers.{Peer, is_neighbour, links_of, seen_ttl};
ghost use Rattle.gs_rules.specs.Tables.{Entries, Keeping, heartbeats, is_shut, joined, kept, keeping_order, own_topics, promises, topic_order, up};
ghost use Rattle.gs_rules.specs.Meshes.{fanout_topics, mesh};
ghost use Rattle.gs_rules.specs.Membership.{candidates};
ghost use Rattle.gs_rules.specs.BeatRules.{fan_event, mending, mesh_beat_rule, scored_members};
ghost use Rattle.gs_rules.specs.Scoring.{IsFromNeighbour, change_of, changed_after, has_counters, history, score};
ghost use Rattle.gs_rules.specs.Gossip.{IsKeptOn, IsOpen, WasLeftOpen, charges, gossip, gossipable, overdue};
ghost use Rattle.gs_rules.specs.Owed.{FanBeats, Gossips, Group, MeshBeats, beats, events_in, gossip_topics, heartbeat_groups, owed, owes, reached};
ghost use Rattle.gs_rules.specs.Rules.{Gives, Rule, rule_of};
ghost use Rattle.gs_rules.specs.Modes.{Follows, SaysTheSame, choiceless, exact, free};
ghost use Rattle.gs_rules.specs.Legal.{DeliversApart, Legal, LegalOn};
ghost use Rattle.gs_rules.specs.Saying.{Close, Said, SaysOnlyFrames, behind_entry, bytes_of, gathered, handled, handled_by, is_cut, out, outgoing, raw_to, sent, sign};
ghost use Rattle.gs_wire.specs.Joining.{joined_options, joined_rpcs};
ghost use Rattle.gs_rules.specs.Hearing.{Spell};
ghost use Rattle.gs_rules.specs.Rounds.{AfterRounds, HandlesWhatIsSent, KeepsRounds, Phase, Plays, PlaysInPart, PutsNoBytes, Seat};

use gs_params::Words;

/// One more entry adds what it says and what it handles, and takes nothing back.
pub fn one_more_entry()
    ensures says { (codec : Codec) (entries : List Entry) (e : Entry) (q : PeerNoValue)
        → up (reverse entries) q ≡ true
        → outgoing codec (reverse (entries ++ e ∷ [])) q ≡ behind_entry codec q (outgoing codec (reverse entries) q) e }
    ensures silent { (codec : Codec) (entries : List Entry) (e : Entry) (q : PeerNoValue)
        → up (reverse entries) q ≡ false
        → outgoing codec (reverse (entries ++ e ∷ [])) q ≡ outgoing codec (reverse entries) q }
    ensures stays { (codec : Codec) (entries : List Entry) (e : Entry) (q : PeerNoValue)
        → (more : Said) × (out codec (reverse (entries ++ e ∷ [])) q ≡ out codec (reverse entries) q ++ more) }
    ensures handles { (entries : List Entry) (e : Entry) (q : PeerNoValue)
        → handled (reverse (entries ++ e ∷ [])) q ≡ handled (reverse entries) q ++ handled_by q e.event }
{}

/// Nothing is gathered right after a cut. The same holds for a neighbour that is not up, and when the rounds so far are
/// played to their ends.
pub fn nothing_is_gathered_after_a_cut()
    ensures cut { (codec : Codec) (entries : Entries) (e : Entry) (q : PeerNoValue)
        → is_cut q e.event ≡ true → gathered codec (e ∷ entries) q ≡ None }
    ensures down { (codec : Codec) (entries : Entries) (q : PeerNoValue)
        → up entries q ≡ false → gathered codec entries q ≡ None }
    ensures rounds { (codec : Codec) (seat : Seat) (said : PeerNoValue → Said) (r : ℕ) (entries : Entries)
        (refused : List RefusedLine) (q : PeerNoValue)
        → AfterRounds seat said r entries refused → gathered codec entries q ≡ None }
{}

/// Only a cut says more than frames: raw bytes, the end of a round, or a close. So none of these overtakes what is
/// gathered.
pub fn only_a_cut_says_more_than_frames()
    ensures raw { (q : PeerNoValue) (event : Event) → is_cut q event ≡ false → raw_to q event ≡ [] }
    ensures sign { (q : PeerNoValue) (event : Event) → is_cut q event ≡ false → sign q event ≡ [] }
{}

/// Nothing is said after a close.
pub fn nothing_is_said_after_a_close()
    ensures { (codec : Codec) (entries : Entries) (q : PeerNoValue) (before behind : Said)
        → out codec entries q ≡ before ++ Close ∷ behind
        → behind ≡ [] }
{}

/// In a legal trace, two entries that deliver one identifier, on any topics, are at least `seen_ttl_ms` apart. A message
/// counts as seen for that time.
pub fn a_delivery_is_not_repeated()
    ensures { (p : Peer) (entries : Entries) → Legal p entries → DeliversApart (seen_ttl p) entries }
{}

/// Two legal runs of entries compose if the second follows the first and continues its choices. A whole run can be split
/// into such parts.
pub fn legal_entries_compose<W: Words>()
    ensures joined { (p : Peer) (s u t : W) (first later more : Entries)
        → LegalOn (exact W.word W.after) p s first later u
        → LegalOn (exact W.word W.after) p u (later ++ first) more t
        → LegalOn (exact W.word W.after) p s first (more ++ later) t }
    ensures parted { (p : Peer) (s t : W) (first later more : Entries)
        → LegalOn (exact W.word W.after) p s first (more ++ later) t
        → (u : W) × LegalOn (exact W.word W.after) p s first later u
        × LegalOn (exact W.word W.after) p u (later ++ first) more t }
    ensures whole { (p : Peer) (first more : Entries)
        → Legal p first
        → LegalOn free p tt first more tt
        → Legal p (more ++ first) }
{}

/// Entries that are legal by the words of a source are legal, since what the words choose is a choice.
pub fn what_words_choose_is_legal<W: Words>()
    ensures exact { (p : Peer) (s t : W) (first later : Entries)
        → LegalOn (exact W.word W.after) p s first later t
        → LegalOn free p tt first later tt }
    ensures rule { (r : Rule) (s t : W) (e : Effects)
        → Follows (exact W.word W.after) r s e t
        → Follows free r tt e tt }
    ensures choiceless { (p : Peer) (s : W) (first later : Entries)
        → LegalOn choiceless p tt first later tt
        → LegalOn (exact W.word W.after) p s first later s }
{}

/// After the same entries and from the same words, an event and its moment fix the next entry and the words after it.
pub fn words_fix_the_next_entry<W: Words>()
    ensures { (p : Peer) (s t u : W) (first later : Entries) (e f : Entry)
        → LegalOn (exact W.word W.after) p s first (e ∷ later) t
        → LegalOn (exact W.word W.after) p s first (f ∷ later) u
        → e.at ≡ f.at
        → e.event ≡ f.event
        → (e ≡ f) × (t ≡ u) }
{}

/// A rule and the words fix what is chosen: the effects that follow the rule, and the state of the words after it.
pub fn words_fix_what_follows_a_rule<W: Words>()
    ensures { (r : Rule) (s t u : W) (e f : Effects)
        → Follows (exact W.word W.after) r s e t
        → Follows (exact W.word W.after) r s f u
        → (e ≡ f) × (t ≡ u) }
{}

/// No word is drawn for an entry whose rule leaves nothing to choose.
pub fn what_is_given_draws_no_word<W: Words>()
    ensures { (p : Peer) (s t : W) (first : Entries) (e : Entry) (x : Effects)
        → LegalOn (exact W.word W.after) p s first (e ∷ []) t
        → rule_of p first e.at e.event ≡ Gives x
        → t ≡ s }
{}

/// The bytes that a legal trace says to a neighbour spell only RPCs, if it puts no raw bytes on that link. These RPCs and
/// the gathered one, joined, are what the trace sends there, joined: whole, once and in order.
pub fn what_is_sent_is_spelled()
    ensures { (p : Peer) (entries : Entries) (q : PeerNoValue)
        → Legal p entries
        → SaysOnlyFrames q entries
        → (rpcs : List RpcValue)
        × Spell (bytes_of (out codec entries q)) rpcs
        × (joined_options (joined_rpcs rpcs) (gathered codec entries q) ≡ joined_rpcs (sent entries q)) }
{}

/// A peer that keeps the rounds has handled what the bytes from each neighbour spell: whole, once and in order.
pub fn what_was_said_is_handled()
    ensures { (seat : Seat) (said : PeerNoValue → Said) (entries : Entries) (refused : List RefusedLine)
        → IsAscending (links_of seat.peer)
        → Legal seat.peer entries
        → KeepsRounds seat said entries refused
        → AllByRecursion (λ q. Spell (bytes_of (said q)) (handled entries q)) (links_of seat.peer) }
{}

/// A peer that keeps the rounds handles what a neighbour says, if a legal trace says just that, and puts only frames on the link.
/// The RPCs that it handled and the gathered one, joined, are what the trace sends to it, joined: whole, once and in order.
pub fn what_was_sent_is_handled()
    ensures { (seat : Seat) (said : PeerNoValue → Said) (entries : Entries) (refused : List RefusedLine)
        → IsAscending (links_of seat.peer)
        → Legal seat.peer entries
        → KeepsRounds seat said entries refused
        → AllByRecursion (HandlesWhatIsSent seat said entries) (links_of seat.peer) }
{}

/// A peer that keeps the rounds says only frames on a link, if its script puts no raw bytes there.
pub fn a_script_without_bytes_says_only_frames()
    ensures { (seat : Seat) (said : PeerNoValue → Said) (entries : Entries) (refused : List RefusedLine) (q : PeerNoValue)
        → Legal seat.peer entries
        → KeepsRounds seat said entries refused
        → PutsNoBytes q seat.lines
        → SaysOnlyFrames q entries }
{}

/// A part of a round with nothing left to do is a whole round.
pub fn a_part_with_nothing_left_is_whole()
    ensures { (seat : Seat) (said : PeerNoValue → Said) (phase : Phase) (old new : Entries) (refused : List RefusedLine)
        → PlaysInPart seat said phase [] old new refused
        → Plays seat said phase old new refused }
{}

/// A peer's own topics are those that it is subscribed to, each once, ascending by their bytes.
pub fn own_topics_are_those_that_are_joined()
    ensures joined { (entries : Entries) (t : Topic)
        → list_any (same_topic t) (own_topics entries) ≡ joined entries t }
    ensures ascend { (entries : Entries) → IsStrictlySortedBy topic_order (own_topics entries) }
{}

/// After a heartbeat has charged broken promises, it owes only three groups of events. It mends the meshes, then the
/// fanouts, then it gossips and ends. The events of each group come one after the other. After the last one the next group
/// is reached, as things stand then. A group without events is skipped. The first group is the mesh of each topic that the
/// peer is subscribed to. The second group is each fanout, which ends if its time has come, and else is mended. The last
/// group is gossip on each topic that has a mesh or a fanout and something to gossip, and the heartbeat's end. The topics
/// of each group ascend by their bytes, and none comes twice.
pub fn a_heartbeat_mends_gossips_and_ends()
    ensures begins { (p : Peer) (entries : Entries) (e : Entry)
        → e.event ≡ BeatBegin
        → owed p (e ∷ entries) ≡ reached p (e ∷ entries) (heartbeat_groups e.at.0) }
    ensures within { (p : Peer) (entries : Entries) (e : Entry)
        (first second : Event) (rest : List Event) (groups : List Group)
        → owed p entries ≡ record { events = first ∷ second ∷ rest; groups = groups }
        → owes p entries e.at.0 e.event ≡ []
        → owed p (e ∷ entries) ≡ record { events = second ∷ rest; groups = groups } }
    ensures behind { (p : Peer) (entries : Entries) (e : Entry) (last : Event) (groups : List Group)
        → owed p entries ≡ record { events = last ∷ []; groups = groups }
        → owes p entries e.at.0 e.event ≡ []
        → owed p (e ∷ entries) ≡ reached p (e ∷ entries) groups }
    ensures meshes { (p : Peer) (entries : Entries)
        → events_in p entries MeshBeats ≡ map (λ t. Step (MeshBeat t)) (own_topics entries) }
    ensures fanouts { (p : Peer) (entries : Entries) (at : ℕ)
        → events_in p entries (FanBeats at) ≡ map (fan_event p entries at) (fanout_topics entries) }
    ensures gossips { (p : Peer) (entries : Entries)
        → reached p entries (Gossips ∷ []) ≡ record { events = beats (gossip_topics p entries); groups = [] } }
    ensures ascend { (p : Peer) (entries : Entries)
        → IsStrictlySortedBy topic_order (own_topics entries)
        × IsStrictlySortedBy topic_order (fanout_topics entries)
        × IsStrictlySortedBy topic_order (gossip_topics p entries) }
{}

/// When a heartbeat mends a mesh, the mesh makes a step, by any choices. The step depends on the members and the peers that
/// may be grafted, on their scores at that moment, and on how many heartbeats began. The entry says what the mending by
/// that step says, except for an order that nobody sees. A peer that leaves is sent a PRUNE, is charged with its missing
/// deliveries, and must not come back for a while. A peer that enters is sent a GRAFT. If words choose, the effects are
/// exactly that mending. Each peer that enters was allowed to be grafted, and each peer that leaves was a member.
pub fn a_heartbeat_moves_a_mesh_a_step<W: Words>()
    ensures step { (p : Peer) (entries : Entries) (e : Entry) (t : Topic)
        → Follows free (mesh_beat_rule p entries e.at t) tt e.effects tt
        → (change : MeshChange)
        × IsMeshStep p.params (heartbeats entries)
        (scored_members p entries e.at.0 (mesh entries t))
        (scored_members p entries e.at.0 (candidates p entries e.at.0 t)) change
        × SaysTheSame e.effects (mending p entries e.at t change) }
    ensures words { (p : Peer) (entries : Entries) (e : Entry) (t : Topic) (s u : W)
        → Follows (exact W.word W.after) (mesh_beat_rule p entries e.at t) s e.effects u
        → (change : MeshChange)
        × IsMeshStep p.params (heartbeats entries)
        (scored_members p entries e.at.0 (mesh entries t))
        (scored_members p entries e.at.0 (candidates p entries e.at.0 t)) change
        × (e.effects ≡ mending p entries e.at t change) }
    ensures grafted { (p : Peer) (entries : Entries) (at : ℕ) (t : Topic) (change : MeshChange)
        → IsMeshStep p.params (heartbeats entries)
        (scored_members p entries at (mesh entries t))
        (scored_members p entries at (candidates p entries at t)) change
        → AllByRecursion (λ q. is_among (candidates p entries at t) q ≡ true) change.grafted }
    ensures pruned { (p : Peer) (entries : Entries) (at : ℕ) (t : Topic) (change : MeshChange)
        → IsMeshStep p.params (heartbeats entries)
        (scored_members p entries at (mesh entries t))
        (scored_members p entries at (candidates p entries at t)) change
        → AllByRecursion (λ q. is_among (mesh entries t) q ≡ true) change.pruned }
{}

/// What is gossiped on a topic is kept under that topic, was kept lately, and fits one offer.
pub fn gossip_is_of_what_is_kept()
    ensures lately { (p : Peer) (entries : Entries) (t : Topic)
        → All (IsKeptOn p entries t) (gossip p entries t) }
    ensures few { (p : Peer) (entries : Entries) (t : Topic) → length (gossip p entries t) ≤ most_identifiers }
{}

/// After a heartbeat has charged promises, none is left whose time has come. So no promise is charged again.
pub fn a_promise_is_charged_once()
    ensures { (entries : Entries) (e : Entry)
        → e.event ≡ BeatBegin
        → e.effects.promise ≡ None
        → All (λ promise. e.at.0 < promise.until.0) (promises (e ∷ entries)) }
{}

/// A promise is held if no later entry has kept or ended it, and no other promise is held. When its time has come it is
/// overdue. Its neighbour is then charged with it, if that neighbour is up.
pub fn a_broken_promise_is_charged()
    ensures held { (later earlier : Entries) (e : Entry) (promise : Promise)
        → e.effects.promise ≡ Some promise
        → AllByRecursion (IsOpen promise) later
        → IsAmong (promises (later ++ e ∷ earlier)) promise }
    ensures due { (later earlier : Entries) (e : Entry) (promise : Promise) (at : ℕ)
        → e.effects.promise ≡ Some promise
        → AllByRecursion (IsOpen promise) later
        → promise.until.0 ≤ at
        → IsAmong (overdue (later ++ e ∷ earlier) at promise.from) promise }
    ensures charged { (later earlier : Entries) (e : Entry) (promise : Promise) (at : ℕ)
        → e.effects.promise ≡ Some promise
        → AllByRecursion (IsOpen promise) later
        → promise.until.0 ≤ at
        → up (later ++ e ∷ earlier) promise.from ≡ true
        → IsAmong (charges (later ++ e ∷ earlier) at promise.from) (Misbehaviour promise.from) }
    ensures only { (entries : Entries) (promise : Promise)
        → IsAmong (promises entries) promise
        → WasLeftOpen entries promise }
{}

/// A message that was kept lately under a topic is gossiped on it, if all such messages fit one offer. If they do not fit,
/// it is gossiped unless as many as fit one offer were kept later.
pub fn what_is_kept_is_gossiped()
    ensures stands { (len : ℕ) (entries : Entries) (id : MsgId) (found : Keeping)
        → kept len entries id ≡ Some found
        → list_any (same_id id) (keeping_order entries) ≡ true }
    ensures whole { (p : Peer) (entries : Entries) (t : Topic)
        → length (gossipable p entries t) ≤ most_identifiers
        → gossip p entries t ≡ gossipable p entries t }
    ensures each { (p : Peer) (entries : Entries) (t : Topic) (id : MsgId)
        → IsKeptOn p entries t id
        → length (gossipable p entries t) ≤ most_identifiers
        → IsAmong (gossip p entries t) id }
    ensures last { (p : Peer) (entries : Entries) (t : Topic) (id : MsgId) (before behind : List MsgId)
        → gossipable p entries t ≡ before ++ id ∷ behind
        → length behind < most_identifiers
        → IsAmong (gossip p entries t) id }
{}

/// Each mark of a legal trace is in the history that scores follow from, if messages and GRAFTs come from neighbours. On
/// each topic that the peer is subscribed to, there is room for the counters of each neighbour.
pub fn each_mark_of_a_legal_trace_counts()
    ensures all { (p : Peer) (entries : Entries) (e : Entry)
        → Legal p (e ∷ entries)
        → IsFromNeighbour p e.event
        → history p (e ∷ entries)
        ≡ reverse (map (change_of e.at) e.effects.marks) ++ changed_after e.event (history p entries) }
    ensures room { (p : Peer) (entries : Entries) (q : PeerNoValue) (t : Topic)
        → Legal p entries
        → is_neighbour p q ≡ true
        → joined entries t ≡ true
        → has_counters p (history p entries) q t ≡ true }
{}

/// Until the peer shuts down, a lost neighbour does not count at its address, whichever event lost it. Every other
/// neighbour counts there as at first.
pub fn whoever_is_lost_counts_no_more_at_its_address()
    ensures { (p : Peer) (entries : Entries) (q : PeerNoValue)
        → is_shut entries ≡ false
        → is_counted (addresses_in p.neighbours (history p entries)) q
        ≡ (up entries q && is_counted (addresses_in p.neighbours []) q) }
{}

/// After a peer has shut down, the score of each neighbour at any given moment stays what it was before.
pub fn nothing_changes_a_score_after_a_shut()
    ensures { (p : Peer) (later earlier : Entries) (e : Entry) (at : ℕ) (q : PeerNoValue)
        → Legal p (later ++ e ∷ earlier)
        → e.event ≡ Shut
        → score p (later ++ e ∷ earlier) at q ≡ score p earlier at q }
{}

/// After a peer has shut down, its meshes and the topics that it is subscribed to stay what they were before.
pub fn nothing_changes_a_mesh_after_a_shut()
    ensures members { (p : Peer) (later earlier : Entries) (e : Entry) (t : Topic)
        → Legal p (later ++ e ∷ earlier)
        → e.event ≡ Shut
        → mesh (later ++ e ∷ earlier) t ≡ mesh earlier t }
    ensures topics { (p : Peer) (later earlier : Entries) (e : Entry)
        → Legal p (later ++ e ∷ earlier)
        → e.event ≡ Shut
        → own_topics (later ++ e ∷ earlier) ≡ own_topics earlier }
{}
