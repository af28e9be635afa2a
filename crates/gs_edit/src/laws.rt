//! What a document holds after a key was set.
ghost use Rattle.gs_edit.specs.Documents.{IsHeldWhereSet, StaysElsewhere};

/// A document in which a key was set holds the value at that key.
pub fn a_set_key_holds_its_value()
    ensures { IsHeldWhereSet }
{}

/// At each path that parts from the path of the set key, a document holds what it held before.
pub fn other_keys_stay()
    ensures { StaysElsewhere }
{}
