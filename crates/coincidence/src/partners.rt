//! What answers before one say of it, for zones that coincide with a partner.

ghost use Rattle.std.specs.Prelude.{◌<◌, length};

use crate::decide::Decide;
use crate::observation::Observation;
use crate::partner_finding::PartnerFinding;
use crate::rules::after;
use crate::zone_watch::ZoneWatch;
use site_types::Answer;
use tick_units::Tick;

impl Decide {
    ghost use Rattle.coincidence.specs.Queries.{TellsPartnerFinding, TellsPartnerSecond, TellsSecond};
    ghost use Rattle.coincidence.specs.Stands.{IsPlaceIn};

    // The latest answer of another point of a zone with this floor that makes a pair with this one.
    pub(crate) fn second(&self, zone: usize, floor: Tick, answer: &Answer) -> Option<Tick>
        requires { zone < length self.now.zones.items }
        ensures { TellsSecond self.now zone floor.0 answer.now result }
    {
        let watch = &self.zones[zone];
        after(
            watch.bar(floor, answer.stamp),
            watch.recent.besides(answer.point),
        )
    }

    // The latest answer of a point of a zone's partner, where it has one, that makes a pair with this one.
    pub(crate) fn partner_second(&self, partner: Option<u16>, answer: &Answer) -> Option<Tick>
        requires { IsPlaceIn partner (length self.now.zones.items) }
        ensures { TellsPartnerSecond self.now partner answer.now result }
    {
        match partner {
            None => None,
            Some(other) => {
                let floor = self.floor_at(other as usize, answer.stamp);
                self.second(other as usize, floor, answer)
            }
        }
    }

    // What an answer means for the partner of its zone.
    pub(crate) fn partner_finding(
        &self,
        zone: &ZoneWatch,
        observation: &Observation,
    ) -> PartnerFinding
        requires { IsPlaceIn zone.now.partner (length self.now.zones.items) }
        ensures { TellsPartnerFinding self.now zone.now observation.now result }
    {
        match zone.partner {
            None => PartnerFinding {
                number: zone.number,
                confirmed: false,
                released: false,
            },
            Some(other) => {
                let partner = &self.zones[other as usize];
                PartnerFinding {
                    number: partner.number,
                    confirmed: observation.confirms_partner(partner.rule),
                    released: observation.releases_partner(partner.rule),
                }
            }
        }
    }
}
