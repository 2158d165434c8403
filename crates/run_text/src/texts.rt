ghost use Rattle.run_text.specs.TextLaws.{TextIsWhole, TimelineIsOfRun};

/// **What is written tick by tick, with the last line, is the text of the run.**
pub fn text_is_whole()
    ensures { TextIsWhole }
{}

/// What is written of a run is the text of the run's timeline, which is in form where the run can be told.
pub fn timeline_is_of_run()
    ensures { TimelineIsOfRun }
{}
