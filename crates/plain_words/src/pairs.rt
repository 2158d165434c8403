//! Two points that confirm or release a zone together: both of it, or one of it and one of its partner.

ghost use Rattle.std.specs.Prelude.{◌≡◌, ℕ};
ghost use Rattle.std.specs.List.{list_any};
ghost use Rattle.coincidence_rules.specs.Alarm.{has_second as has_second_by};
ghost use Rattle.coincidence_rules.specs.Confirmed.{is_second as is_second_by, is_uncancelled as is_uncancelled_by};
ghost use Rattle.coincidence_rules.specs.Places.{is_of as is_of_zone, on_zone, pairs_up};
ghost use Rattle.plain_words.specs.Judging.{judged, weighed};

use crate::evidence::Evidence;
use crate::places::{is_of, partner_at};
use site_types::{Answer, Site};

impl Evidence<'_> {
    /// Whether a second detector told at most so many ticks before, which no cancelling undid.
    pub(crate) fn has_pair(&self, within: u16, zone: usize, answer: &Answer) -> bool
        ensures { result ≡ pairs_up self.now.settings.site.now zone answer.now.point (λ (near : ℕ).
            list_any (weighed is_uncancelled_by self.now within near answer.now)
            self.now.answers.now) }
    {
        let partner = partner_at(self.settings.site, zone);
        let own = self.has_uncancelled(within, zone, answer);
        let of_partner = match partner {
            None => false,
            Some(other) => self.has_uncancelled(within, other as usize, answer),
        };
        (is_of(self.settings.site, zone, answer.point) && (own || of_partner))
            || (is_of_partner(self.settings.site, partner, answer.point) && own)
    }

    /// Whether an answer counts and there is a second point besides its own.
    pub(crate) fn has_second(&self, zone: usize, answer: &Answer) -> bool
        ensures { result ≡ judged has_second_by self.now zone answer.now }
    {
        let partner = partner_at(self.settings.site, zone);
        let own = self.has_other(zone, answer);
        let of_partner = match partner {
            None => false,
            Some(other) => self.has_other(other as usize, answer),
        };
        self.is_counted(answer)
            && ((is_of(self.settings.site, zone, answer.point) && (own || of_partner))
                || (is_of_partner(self.settings.site, partner, answer.point) && own))
    }

    fn has_uncancelled(&self, within: u16, zone: usize, answer: &Answer) -> bool
        ensures { result ≡ list_any (weighed is_uncancelled_by self.now within zone answer.now)
            self.now.answers.now }
    {
        self.answers
            .iter()
            .any(|other| self.is_uncancelled(within, zone, answer, other))
    }

    fn has_other(&self, zone: usize, answer: &Answer) -> bool
        ensures { result ≡ list_any (weighed is_second_by self.now zone answer.now)
            self.now.answers.now }
    {
        self.answers
            .iter()
            .any(|other| self.is_second(zone, answer, other))
    }
}

// Whether a point is of the partner of a zone, if it has one.
fn is_of_partner(site: &Site, partner: Option<u16>, point: u16) -> bool
    ensures { result ≡ on_zone (λ (other : ℕ). is_of_zone site.now other point) partner }
{
    match partner {
        None => false,
        Some(other) => is_of(site, other as usize, point),
    }
}
