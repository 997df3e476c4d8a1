//! The opening.

ghost use Rattle.two_sides.specs.Opening.{openings_are_worlds};

/// A host and a controller that open over the host's pages are the machine's opening, and are tied.
pub fn opened_sides_are_the_machine()
    ensures { openings_are_worlds }
{}
