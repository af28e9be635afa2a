//! Laws about what a link says. Each law holds for its definitions only, and its function does nothing.
ghost use Rattle.gs_link.specs.Flat.{CuttingIsHidden, SaysInOrder};

/// A list of slots says what its front says, and then what its rest says.
pub fn what_stands_after_is_said_later()
    ensures { SaysInOrder }
{}

/// A piece that is cut in two says the same as the whole piece, whatever stands around it.
pub fn cutting_does_not_show()
    ensures { CuttingIsHidden }
{}
