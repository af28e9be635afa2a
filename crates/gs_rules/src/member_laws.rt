//! Laws about the members of meshes and fanouts. Each is about definitions only, and its function does nothing.
ghost use Rattle.std.specs.Prelude.{true, false, ◌≡◌, ◌∷◌, ◌++◌, [], nat_le};
ghost use Rattle.std.specs.List.{AllByRecursion, IsAmong};
ghost use Rattle.gs_base.specs.declared.names.PeerNo.{PeerNo as PeerNoValue};
ghost use Rattle.gs_base.specs.declared.names.Topic.{Topic};
ghost use Rattle.gs_base.specs.declared.mark.Mark.TheVariants.{Grafted};
ghost use Rattle.gs_params.specs.Picks.{IsAscending};
ghost use Rattle.gs_mesh.specs.Peers.{is_among};
ghost use Rattle.gs_rules.specs.declared.trace.Entry.{Entry};
ghost use Rattle.gs_rules.specs.Peers.{Peer, is_explicit, is_neighbour};
ghost use Rattle.gs_rules.specs.Tables.{Entries, is_shut, joined, up};
ghost use Rattle.gs_rules.specs.Meshes.{backoff, fanout, mesh};
ghost use Rattle.gs_rules.specs.Arrivals.{CameIn};
ghost use Rattle.gs_rules.specs.Scoring.{IsFromNeighbour};
ghost use Rattle.gs_rules.specs.Legal.{Legal};

/// In a legal trace, each member of a mesh is up until the peer shuts down. Each is a neighbour if all messages and GRAFTs
/// came from neighbours.
pub fn mesh_members_are_up()
    ensures up { (p : Peer) (entries : Entries) (q : PeerNoValue) (t : Topic)
        → Legal p entries
        → is_shut entries ≡ false
        → is_among (mesh entries t) q ≡ true
        → up entries q ≡ true }
    ensures neighbour { (p : Peer) (entries : Entries) (q : PeerNoValue) (t : Topic)
        → Legal p entries
        → AllByRecursion (λ (e : Entry). IsFromNeighbour p e.event) entries
        → is_among (mesh entries t) q ≡ true
        → is_neighbour p q ≡ true }
{}

/// In a legal trace, each member of a mesh entered it by an entry, and no later entry says that it left. No peer that
/// enters a mesh by an entry is in backoff there at that moment.
pub fn a_member_was_not_in_backoff()
    ensures member { (p : Peer) (entries : Entries) (q : PeerNoValue) (t : Topic)
        → Legal p entries
        → is_among (mesh entries t) q ≡ true
        → CameIn q t entries }
    ensures anybody { (p : Peer) (later earlier : Entries) (e : Entry) (q : PeerNoValue) (t : Topic)
        → Legal p (later ++ e ∷ earlier)
        → IsAmong e.effects.marks (Grafted q t)
        → nat_le (backoff earlier q t) e.at.0 ≡ true }
{}

/// In a legal trace, a topic that the peer is not subscribed to has no mesh members. Each member is listed once, ascending
/// by number.
pub fn meshes_are_of_own_topics()
    ensures joined { (p : Peer) (entries : Entries) (t : Topic)
        → Legal p entries
        → joined entries t ≡ false
        → mesh entries t ≡ [] }
    ensures ascend { (entries : Entries) (t : Topic) → IsAscending (mesh entries t) }
{}

/// In a legal trace no explicit neighbour is in a mesh or in a fanout.
pub fn explicit_neighbours_stay_outside()
    ensures meshes { (p : Peer) (entries : Entries) (q : PeerNoValue) (t : Topic)
        → Legal p entries
        → is_explicit p q ≡ true
        → is_among (mesh entries t) q ≡ false }
    ensures fanouts { (p : Peer) (entries : Entries) (q : PeerNoValue) (t : Topic)
        → Legal p entries
        → is_explicit p q ≡ true
        → is_among (fanout entries t) q ≡ false }
{}
