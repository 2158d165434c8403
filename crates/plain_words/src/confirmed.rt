//! What confirms and releases a zone, by the answers.

ghost use Rattle.std.specs.Prelude.{◌≡◌};
ghost use Rattle.std.specs.List.{list_any};
ghost use Rattle.coincidence_rules.specs.Alarm.{calls as calls_by, releases as releases_by_rule};
ghost use Rattle.coincidence_rules.specs.Confirmed.{coincides as coincides_by, confirms as confirms_by};
ghost use Rattle.coincidence_rules.specs.Confirmed.{counts_throughout as counts_throughout_by};
ghost use Rattle.coincidence_rules.specs.Confirmed.{is_by_call_point as is_by_call_point_so, is_near as is_near_by};
ghost use Rattle.coincidence_rules.specs.Confirmed.{is_verified as is_verified_by};
ghost use Rattle.plain_words.specs.Judging.{judged, weighed};

use crate::counted::is_between;
use crate::evidence::Evidence;
use crate::places::{is_detector, is_manual, is_of, rule_at};
use site_types::{Answer, Rule, Site};

impl Evidence<'_> {
    /// Whether an answer confirms a zone at its stamp.
    pub(crate) fn confirms(&self, zone: usize, answer: &Answer) -> bool
        ensures { result ≡ judged confirms_by self.now zone answer.now }
    {
        self.is_counted(answer)
            && (is_by_call_point(self.settings.site, zone, answer.point)
                || (is_detector(self.settings.site, answer.point)
                    && self.coincides(zone, rule_at(self.settings.site, zone), answer)))
    }

    /// Whether an answer counts and is of a manual call point of a zone.
    pub(crate) fn calls(&self, zone: usize, answer: &Answer) -> bool
        ensures { result ≡ weighed calls_by self.now zone answer.now }
    {
        self.is_counted(answer) && is_by_call_point(self.settings.site, zone, answer.point)
    }

    /// Whether an answer releases a zone.
    pub(crate) fn releases(&self, zone: usize, answer: &Answer) -> bool
        ensures { result ≡ judged releases_by_rule self.now zone answer.now }
    {
        match rule_at(self.settings.site, zone) {
            Some(Rule::C) => self.calls(zone, answer) || self.has_second(zone, answer),
            _ => self.confirms(zone, answer),
        }
    }

    // What a zone's type asks of an answer of a detector that counts.
    fn coincides(&self, zone: usize, rule: Option<Rule>, answer: &Answer) -> bool
        ensures { result ≡ judged coincides_by self.now zone rule answer.now }
    {
        match rule {
            None => false,
            Some(Rule::Plain) | Some(Rule::C) => is_of(self.settings.site, zone, answer.point),
            Some(Rule::A { verify, within }) => {
                is_of(self.settings.site, zone, answer.point)
                    && (self.is_verified(verify, zone, answer)
                        || self.has_near(within, zone, answer))
            }
            Some(Rule::B { within }) => self.has_pair(within, zone, answer),
        }
    }

    // Whether the answer's detector gave an answer that counts long enough ago, and each of its answers from that
    // one to this one counts.
    fn is_verified(&self, verify: u16, zone: usize, answer: &Answer) -> bool
        ensures { result ≡ judged is_verified_by self.now verify zone answer.now }
    {
        self.answers.iter().any(|first| {
            self.is_first_of_run(verify, zone, answer, first)
                && self.counts_throughout(first, answer)
        })
    }

    // Whether every answer of the point of two answers from the one to the other counts.
    fn counts_throughout(&self, first: &Answer, last: &Answer) -> bool
        ensures { result ≡ judged counts_throughout_by self.now last.now.point first.now.stamp.0
            last.now.stamp.0 }
    {
        self.answers.iter().all(|other| {
            !is_between(last.point, first.stamp, last.stamp, other) || self.is_counted(other)
        })
    }

    // Whether another detector of the zone told shortly before.
    fn has_near(&self, within: u16, zone: usize, answer: &Answer) -> bool
        ensures { result
            ≡ list_any (weighed is_near_by self.now within zone answer.now) self.now.answers.now }
    {
        self.answers
            .iter()
            .any(|other| self.is_near(within, zone, answer, other))
    }
}

fn is_by_call_point(site: &Site, zone: usize, point: u16) -> bool
    ensures { result ≡ is_by_call_point_so site.now zone point }
{
    is_of(site, zone, point) && is_manual(site, point)
}
