ghost use Rattle.site_types.specs.Valid.{IsValid};

use anyhow::Result;
use plain_history::Moment;
use site_types::Site;
use std::alloc::Global;
use tick_units::Order;
use trial_records::{blocks_of, push_tick};

/// The moments of a record: its ticks, each with what befalls and then its turns, in the order that the record gives or
/// else the canonical one.
pub(crate) fn moments_of(alloc: Global, site: &Site, record: &str) -> Result<Vec<Moment>>
    requires { IsValid site.now }
{
    let mut moments = Vec::new(alloc);
    let canonical = Order::canonical(site.panels);
    for block in &blocks_of(alloc, site, record)? {
        let order = match &block.order {
            Some(order) => order,
            None => &canonical,
        };
        push_tick(&mut moments, &block.events, order, false)?;
    }
    Ok(moments)
}
