use plain_history::Settings;
use site_types::Answer;

/// Answers of a site's points, the oldest first, with the settings of the site by which they are judged.
#[derive(Clone, Copy)]
pub struct Evidence<'a> {
    pub settings: Settings<'a>,
    pub answers: &'a [Answer],
}
