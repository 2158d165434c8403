//! Orders of the turns of a tick.

ghost use Rattle.std.specs.Prelude.{IfOk};
ghost use Rattle.tick_units.specs.Orders.{IsOrder, IsPanelCount};

use anyhow::{Result, bail};
use std::alloc::Global;
use tick_units::{Order, Seat};

/// The canonical order, or the reversed one.
pub fn order_of(alloc: Global, panels: u8, reversed: bool) -> Result<Order>
    requires { IsPanelCount panels }
    ensures { IfOk result (IsOrder panels) }
{
    if reversed {
        return reversed_order(alloc, panels);
    }
    Ok(Order::canonical(panels))
}

// The canonical order backwards.
fn reversed_order(alloc: Global, panels: u8) -> Result<Order>
    requires { IsPanelCount panels }
    ensures { IfOk result (IsOrder panels) }
{
    let canonical = Order::canonical(panels);
    let mut seats: Vec<Seat> = Vec::new(alloc);
    for place in 0..canonical.len() {
        seats.push(canonical.seat(canonical.len() - 1 - place))?;
    }
    match Order::new(&seats, panels) {
        Ok(order) => Ok(order),
        Err(_) => bail!("no order"),
    }
}

/// A copy of an order, if it is one of so many panels.
pub fn tested_order(alloc: Global, panels: u8, order: &Order) -> Result<Order>
    requires { IsPanelCount panels }
    ensures { IfOk result (IsOrder panels) }
{
    let mut seats: Vec<Seat> = Vec::new(alloc);
    for place in 0..order.len() {
        seats.push(order.seat(place))?;
    }
    match Order::new(&seats, panels) {
        Ok(order) => Ok(order),
        Err(_) => bail!("no order"),
    }
}
