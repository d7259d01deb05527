ghost use Rattle.transform.specs.Examples.{AllRight, examples};

// The records worked through have the pulses, the standing traces and the swings of the list.
pub fn worked_examples_hold()
    ensures { AllRight examples }
{}
