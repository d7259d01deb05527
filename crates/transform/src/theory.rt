// What is true of the pulses of every record of every kind of total: each theorem is the contract
// of a function that does nothing else.
ghost use Rattle.transform.specs.Theory.{WidthsAndAmounts, PulsesSumToTheRecord, WiderPulsesSumToTheSmooth};
ghost use Rattle.transform.specs.Theory.{AtMostAsManyPulsesAsDays, DifferentChoicesDiffer, PulsesHaveDaysOfTheirOwn, SwingsBalance};
ghost use Rattle.transform.specs.Theory.{SumsStayInRange, WindowsLevelRuns, SmoothsAreSmooth, RunsMakeTheSmooths};

pub fn widths_and_amounts()
    ensures { WidthsAndAmounts }
{}

pub fn pulses_sum_to_the_record()
    ensures { PulsesSumToTheRecord }
{}

pub fn wider_pulses_sum_to_the_smooth()
    ensures { WiderPulsesSumToTheSmooth }
{}

pub fn at_most_as_many_pulses_as_days()
    ensures { AtMostAsManyPulsesAsDays }
{}

pub fn different_choices_differ()
    ensures { DifferentChoicesDiffer }
{}

pub fn pulses_have_days_of_their_own()
    ensures { PulsesHaveDaysOfTheirOwn }
{}

pub fn swings_balance()
    ensures { SwingsBalance }
{}

pub fn sums_stay_in_range()
    ensures { SumsStayInRange }
{}

pub fn windows_level_runs()
    ensures { WindowsLevelRuns }
{}

pub fn smooths_are_smooth()
    ensures { SmoothsAreSmooth }
{}

pub fn runs_make_the_smooths()
    ensures { RunsMakeTheSmooths }
{}
