//! Forged entries.

ghost use Rattle.two_sides.specs.Stepping.{completion_slots_are_in, forged_entries_step};

/// A completion slot of a queue whose completions the host reaps is in; any bytes written there are a forged entry of the machine,
/// and leave what holds whatever was forged.
pub fn forged_entries_are_the_machines()
    ensures slots { completion_slots_are_in }
    ensures entries { forged_entries_step }
{}
