ghost use Rattle.panel_laws.specs.FormLaws.{AnswersRise, CountersHaveAnEnd, FacesAreByPanel, FacesAreOfSite};
ghost use Rattle.panel_laws.specs.FormLaws.{TextsTellTimelines, TimelineIsInForm, ToldTicksTell};

/// There is one face for each panel, in the order of panels.
pub fn faces_are_by_panel()
    ensures { FacesAreByPanel }
{}

/// A face holds only things of the site.
pub fn faces_are_of_site()
    ensures { FacesAreOfSite }
{}

/// No counter that is shown goes past 999,999.
pub fn counters_have_an_end()
    ensures { CountersHaveAnEnd }
{}

/// The answers of a tick rise by number, at most 64 of them; a denied operation needed level 2 to 4 and had
/// less; and only panels of the site are busy.
pub fn answers_rise()
    ensures { AnswersRise }
{}

/// A tick that is told changed a face, or has an answer.
pub fn told_ticks_tell()
    ensures { ToldTicksTell }
{}

/// **The timeline of a run is in form**: faces of all panels with things of the site alone, steps that rise
/// and tell something, answers by number.
pub fn timeline_is_in_form()
    ensures { TimelineIsInForm }
{}

/// The text of a run tells its timeline: two runs of a site that have one text have one timeline.
pub fn texts_tell_timelines()
    ensures { TextsTellTimelines }
{}
