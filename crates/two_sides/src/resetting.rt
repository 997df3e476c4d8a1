//! A controller reset.

ghost use Rattle.two_sides.specs.Stepping.{resets_step};

/// The host's reset and the controller's, over the same pages, are one step of the machine. After it nothing is forged, and both sides are
/// tied, whatever was forged before.
pub fn resets_are_the_machines()
    ensures { resets_step }
{}
