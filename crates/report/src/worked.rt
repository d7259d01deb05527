ghost use Rattle.report.specs.Worked.{AllRight, worked};

// The records worked through have the pulses, the standing traces and the swings of the list, and
// the text worked through has its report.
pub fn worked_list_holds()
    ensures { AllRight worked }
{}
