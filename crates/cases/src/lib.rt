// Worked examples, computed from the definitions and proved together.
#![tactic(auto)]

ghost use Rattle.cases.specs.Verdicts.{Cases};

// The reports of the example plans, over zones and over order sets; the waits in the three-cell plan at scale 2; two small zones.
pub fn cases_stand()
    ensures { Cases }
{}
