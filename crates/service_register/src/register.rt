use crate::csv_rows::table_of;
use crate::listed_point::ListedPoint;
use crate::listing::{name_in, untested_among};
use crate::refusal::RegisterRefusal;
use service_keepers::{Keeper, Visit};
use site_types::Site;
use std::alloc::Global;
use std::marker::Model;
use tick_units::{Items, NoMemory};

/// The register of a site. Contracts see it as the site's points, each with its name and that of its zone.
#[derive(Drop)]
pub struct Register {
    points: Items<ListedPoint>,
}

impl Model for Register {
    ghost use Rattle.std.specs.Prelude.{◌≤◌, List, length, map};
    ghost use Rattle.service_register.specs.Points.{PointRow};
    ghost use Rattle.service_register.specs.Listed.{listed_row};

    ghost Value = { List PointRow };

    ghost view = { λ r. map listed_row r.points };

    ghost invariant = { λ r. length r.points ≤ 65536 };
}

impl Register {
    ghost use Rattle.std.specs.Prelude.{◌≡◌, ◌<◌, ◌↔◌, false, All, Err, IfErr, IfOk, IfSome, OnErr, length};
    ghost use Rattle.service_keepers.specs.Keeping.{ChangesBy};
    ghost use Rattle.service_keepers.specs.Rows.{visit_row};
    ghost use Rattle.service_register.specs.Answers.{HasRegisterCause, IsOfKeeper, IsOfTest, IsOfVisit, TestAnswered};
    ghost use Rattle.service_register.specs.Answers.{VisitAnswered, test_named};
    ghost use Rattle.service_register.specs.Export.{csv_text};
    ghost use Rattle.service_register.specs.Points.{lists_point, points_of, untested};
    ghost use Rattle.site_types.specs.Valid.{IsValid};

    /// The register of a valid site's points.
    pub fn new(alloc: Global, site: &Site) -> Result<Register, NoMemory>
        requires { IsValid site.now }
        ensures { IfOk result (λ register. register ≡ points_of site.now) }
    {
        let mut points = Vec::with_capacity(alloc, site.points.len())?;
        for point in site.points.as_slice() {
            points.push(ListedPoint::of(site, point))?;
        }
        Ok(Register {
            points: Items::from_vec(points),
        })
    }

    /// Puts a visit, where its number is new or the same visit is kept. The keeper alone takes memory.
    pub fn visit<R: Keeper>(
        &self,
        _alloc: Global,
        keeper: &mut R,
        visit: &Visit,
    ) -> Result<(), RegisterRefusal>
        ensures answer { ChangesBy (VisitAnswered (visit_row visit.now) result)
            (R.tables keeper.old) (R.tables keeper.new) }
        ensures refusals { IfErr result IsOfVisit }
        ensures err { OnErr result (R.tables keeper.new ≡ R.tables keeper.old) }
        ensures cause { HasRegisterCause (R.faults keeper.old) (R.faults keeper.new) result }
    {
        match keeper.find_visit(visit.number)? {
            None => {
                keeper.put_visit(visit)?;
                Ok(())
            }
            Some(kept) => {
                if kept == *visit {
                    Ok(())
                } else {
                    Err(RegisterRefusal::Differs(kept))
                }
            }
        }
    }

    /// Puts that a kept visit tested a point of the site. The keeper alone takes memory.
    pub fn tested<R: Keeper>(
        &self,
        _alloc: Global,
        keeper: &mut R,
        visit: u32,
        point: &str,
    ) -> Result<(), RegisterRefusal>
        ensures answer { ChangesBy (TestAnswered (test_named visit point.now) result)
            (R.tables keeper.old) (R.tables keeper.new) }
        // A point that the site lacks is refused whatever else is wrong, and the keeper isn't asked.
        ensures no_such_point { (result ≡ Err RegisterRefusal.NoSuchPoint)
            ↔ (lists_point point.now self.now ≡ false) }
        ensures unasked { result ≡ Err RegisterRefusal.NoSuchPoint → keeper.new ≡ keeper.old }
        ensures refusals { IfErr result IsOfTest }
        ensures err { OnErr result (R.tables keeper.new ≡ R.tables keeper.old) }
        ensures cause { HasRegisterCause (R.faults keeper.old) (R.faults keeper.new) result }
    {
        let Some(name) = name_in(self.points.as_slice(), point) else {
            return Err(RegisterRefusal::NoSuchPoint);
        };
        if keeper.find_visit(visit)?.is_none() {
            return Err(RegisterRefusal::NoSuchVisit);
        }
        keeper.put_test(visit, &name)?;
        Ok(())
    }

    /// The places of the site's points whose last day is before this one or that have none, in the site's order.
    pub fn untested_since<R: Keeper>(
        &self,
        alloc: Global,
        keeper: &mut R,
        day: u32,
    ) -> Result<Vec<u16>, RegisterRefusal>
        ensures ok { IfOk result (λ places. IfSome (R.tables keeper.old)
            (λ kept. places.items ≡ untested day kept self.now)) }
        ensures within { IfOk result
            (λ places. All (λ place. place < length self.now) places.items) }
        ensures refusals { IfErr result IsOfKeeper }
        ensures same { R.tables keeper.new ≡ R.tables keeper.old }
        ensures cause { HasRegisterCause (R.faults keeper.old) (R.faults keeper.new) result }
    {
        untested_among(alloc, self.points.as_slice(), keeper, day)
    }

    /// A table of these points: the header `point,zone,last`, and a row for each with its last day, which is empty
    /// where there is none. Each row ends with a line feed.
    pub fn export_csv<R: Keeper>(
        &self,
        alloc: Global,
        keeper: &mut R,
        points: &[u16],
    ) -> Result<Vec<u8>, RegisterRefusal>
        requires { All (λ place. place < length self.now) points.now }
        ensures ok { IfOk result (λ bytes. IfSome (R.tables keeper.old)
            (λ kept. bytes.items ≡ csv_text kept self.now points.now)) }
        ensures refusals { IfErr result IsOfKeeper }
        ensures same { R.tables keeper.new ≡ R.tables keeper.old }
        ensures cause { HasRegisterCause (R.faults keeper.old) (R.faults keeper.new) result }
    {
        table_of(alloc, self.points.as_slice(), keeper, points)
    }
}
