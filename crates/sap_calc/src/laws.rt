// Laws of configurations that are replayed, as contracts of functions that do nothing.
ghost use Rattle.sap_calc.specs.Replays.{DoneLinesAreLegal};

/// Lines that are done in turn from the start of a process are a legal run within the limit, whose trace is what they showed.
pub fn replays_are_legal()
    ensures { DoneLinesAreLegal }
{}
