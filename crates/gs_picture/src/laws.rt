//! A law about the definitions of a picture. Its function does nothing.
ghost use Rattle.std.specs.Prelude.{◌≡◌, List};
ghost use Rattle.std.specs.List.{flat_map};
ghost use Rattle.gs_reach.specs.declared.chosen.Chosen.{Chosen as ChosenValue};
ghost use Rattle.gs_reach.specs.declared.messages.MessageReach.{MessageReach as MessageReachValue};
ghost use Rattle.gs_reach.specs.declared.pairs.Pair.{Pair as PairValue};
ghost use Rattle.gs_picture.specs.Courses.{courses_of};

/// The pairs of the thick line are those of all thin lines, in the same order, and no others.
pub fn the_thick_line_is_of_all_thin_ones()
    ensures { (of : ChosenValue) (list : List MessageReachValue)
        → (courses_of of list).all ≡ flat_map (λ (pairs : List PairValue). pairs) (courses_of of list).each }
{}
