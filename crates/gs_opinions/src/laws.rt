//! A law about the lowest opinions. It is only about definitions, and its function does nothing.
ghost use Rattle.std.specs.Prelude.{◌≡◌, ◌≤ℤ◌, ◌<ℤ◌, [], ◌++◌, ◌∷◌, List, None, Some, filter};
ghost use Rattle.std.specs.List.{AllByRecursion};
ghost use Rattle.gs_base.specs.declared.names.PeerNo.{PeerNo as PeerNoValue};
ghost use Rattle.gs_opinions.specs.declared.opinion.Lowest.{Lowest as LowestValue};
ghost use Rattle.gs_opinions.specs.declared.opinion.Opinion.{Opinion as OpinionValue};
ghost use Rattle.gs_opinions.specs.Runs.{is_between, lowest_between, lowest_in};

/// No opinion of one peer about another has a lower score than the lowest one (`least`). The lowest one is one of these
/// opinions, and all before it are higher (`first`). There is none only where the one peer never scores the other (`none`).
pub fn the_lowest_is_the_first_that_none_is_below()
    ensures least { (os : List OpinionValue) (p q : PeerNoValue) (x : LowestValue)
        → lowest_between os p q ≡ Some x
        → AllByRecursion (λ (o : OpinionValue). x.score ≤ℤ o.score) (filter (is_between p q) os) }
    ensures first { (os : List OpinionValue) (p q : PeerNoValue) (x : LowestValue)
        → lowest_between os p q ≡ Some x
        → (before : List OpinionValue) × (o : OpinionValue) × (after : List OpinionValue)
        × (filter (is_between p q) os ≡ before ++ o ∷ after)
        × (lowest_in o ≡ x)
        × AllByRecursion (λ (earlier : OpinionValue). x.score <ℤ earlier.score) before }
    ensures none { (os : List OpinionValue) (p q : PeerNoValue)
        → lowest_between os p q ≡ None
        → filter (is_between p q) os ≡ [] }
{}
