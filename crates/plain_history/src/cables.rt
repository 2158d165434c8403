ghost use Rattle.std.specs.Prelude.{◌≡◌};
ghost use Rattle.isolators.specs.Reach.{status_of as status_with};
ghost use Rattle.loop_poller.specs.Asked.{status_on};
ghost use Rattle.site_types.specs.Things.{loop_of};
ghost use Rattle.panel_rules.specs.Faults.{broken_loops, shorted_loops};
ghost use Rattle.panel_rules.specs.States.{piece_of};
ghost use Rattle.plain_history.specs.Histories.{history, moment_of};

use crate::moment::Moment;
use isolators::{LineStatus, LoopLine};
use site_types::{Event, LoopPlan, Site, mask_from_8};

/// The loops of a panel with an open piece, by bit `line - 1`.
pub fn broken_loops(site: &Site, panel: u8, moments: &[Moment]) -> u8
    ensures { result ≡ broken_loops site.now panel (history moments.now) }
{
    mask_from_8(&[
        line_status(site, panel, 1, moments).broken,
        line_status(site, panel, 2, moments).broken,
        line_status(site, panel, 3, moments).broken,
        line_status(site, panel, 4, moments).broken,
    ])
}

/// The loops of a panel with a short piece, by bit `line - 1`.
pub fn shorted_loops(site: &Site, panel: u8, moments: &[Moment]) -> u8
    ensures { result ≡ shorted_loops site.now panel (history moments.now) }
{
    mask_from_8(&[
        line_status(site, panel, 1, moments).shorted,
        line_status(site, panel, 2, moments).shorted,
        line_status(site, panel, 3, moments).shorted,
        line_status(site, panel, 4, moments).shorted,
    ])
}

/// What is wrong with the cable of a loop of a panel; where there is no loop, nothing.
fn line_status(site: &Site, panel: u8, line: u8, moments: &[Moment]) -> LineStatus
    ensures { result ≡ status_on (loop_of site.now panel line)
        (λ piece. piece_of panel line piece (history moments.now)) }
{
    match site.loop_of(panel, line) {
        Some(plan) => plan_status(plan, panel, line, moments),
        None => LineStatus::default(),
    }
}

fn plan_status(plan: &LoopPlan, panel: u8, line: u8, moments: &[Moment]) -> LineStatus
    ensures { result ≡ status_with plan.now
        (λ piece. piece_of panel line piece (history moments.now)) }
{
    if !was_reported(panel, line, moments) {
        return LineStatus::default();
    }
    let mut cable = LoopLine::new(plan);
    for moment in moments {
        report(&mut cable, panel, line, moment);
    }
    cable.status()
}

// Tells the cable of a loop what befalls the site.
fn report(cable: &mut LoopLine, panel: u8, line: u8, moment: &Moment)
    ensures { TakesReport panel line (moment_of moment.now) cable.old cable.new }
{
    match *moment {
        Moment::Happened(event) => match event {
            Event::Cable {
                panel: of_panel,
                line: of_line,
                piece,
                state,
            } => {
                if of_panel == panel && of_line == line {
                    cable.set_piece(piece, state);
                }
            }
            Event::Point { .. }
            | Event::Supply { .. }
            | Event::Link { .. }
            | Event::Confirmed { .. }
            | Event::Op { .. } => {}
        },
        Moment::Began | Moment::Turned { .. } | Moment::Kept { .. } => {}
    }
}

ghost use Rattle.std.specs.List.{list_any};
ghost use Rattle.plain_history.specs.Reported.{TakesReport, tells_cable as tells_cable_so};

// Whether anything was ever reported of the cable of a loop.
fn was_reported(panel: u8, line: u8, moments: &[Moment]) -> bool
    ensures { result
        ≡ list_any (λ moment. tells_cable_so panel line (moment_of moment)) moments.now }
{
    moments
        .iter()
        .any(|moment| tells_cable(panel, line, moment))
}

fn tells_cable(panel: u8, line: u8, moment: &Moment) -> bool
    ensures { result ≡ tells_cable_so panel line (moment_of moment.now) }
{
    match *moment {
        Moment::Happened(
            Event::Cable {
                panel: of_panel,
                line: of_line,
                ..
            },
        ) => of_panel == panel && of_line == line,
        _ => false,
    }
}
