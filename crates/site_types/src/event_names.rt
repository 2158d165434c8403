//! Whether a site has what an event names.

ghost use Rattle.std.specs.Prelude.{◌≡◌};
ghost use Rattle.site_types.specs.Events.{
  has_event as holds_event,
  has_item,
  has_operands,
  has_piece,
  has_zone,
  is_confirming,
  is_link,
  is_panel,
};

use crate::event::Event;
use crate::item::Item;
use crate::operation::Operation;
use crate::output_kind::OutputKind;
use crate::site::Site;

impl Site {
    /// Whether the site has all that an event names, at the panel that it names. A confirmed output is a
    /// routing or protection output.
    pub fn has_event(&self, event: &Event) -> bool
        ensures { result ≡ holds_event self.now event.now }
    {
        match *event {
            Event::Point { point, .. } => (point as usize) < self.points.len(),
            Event::Cable {
                panel,
                line,
                piece,
                ..
            } => self.has_piece(panel, line, piece),
            Event::Supply { panel, .. } => self.has_panel(panel),
            Event::Link { link, .. } => self.panels >= 2 && link >= 1 && link <= self.panels,
            Event::Confirmed { output } => self.has_confirming(output),
            Event::Op {
                panel,
                operation,
                ..
            } => { self.has_panel(panel) && self.has_operands(panel, operation) }
        }
    }

    /// Whether it is a number of one of the site's panels.
    pub fn has_panel(&self, panel: u8) -> bool
        ensures { result ≡ is_panel self.now panel }
    {
        panel >= 1 && panel <= self.panels
    }

    fn has_piece(&self, panel: u8, line: u8, piece: u8) -> bool
        ensures { result ≡ has_piece self.now panel line piece }
    {
        self.loops.as_slice().iter().any(|plan| plan.panel == panel
            && plan.line == line
            && piece <= plan.last)
    }

    fn has_confirming(&self, output: u16) -> bool
        ensures { result ≡ holds_event self.now (Event.Confirmed output) }
    {
        match self.outputs.get(output as usize) {
            Some(output) => output.kind.is_confirming(),
            None => false,
        }
    }

    fn has_operands(&self, panel: u8, operation: Operation) -> bool
        ensures { result ≡ has_operands self.now panel operation }
    {
        match operation {
            Operation::Cancel(zone) | Operation::Test(zone) | Operation::Untest(zone) => {
                self.has_zone(panel, zone)
            }
            Operation::Disable(item) | Operation::Enable(item) => self.has_item(panel, item),
            _ => true,
        }
    }

    fn has_item(&self, panel: u8, item: Item) -> bool
        ensures { result ≡ has_item self.now panel item }
    {
        match item {
            Item::Point(place) => match self.points.get(place as usize) {
                Some(point) => point.panel == panel,
                None => false,
            },
            Item::Zone(place) => self.has_zone(panel, place),
            Item::Output(place) => match self.outputs.get(place as usize) {
                Some(output) => output.panel == panel,
                None => false,
            },
        }
    }

    fn has_zone(&self, panel: u8, place: u16) -> bool
        ensures { result ≡ has_zone self.now panel place }
    {
        match self.zones.get(place as usize) {
            Some(zone) => zone.panel == panel,
            None => false,
        }
    }
}

impl OutputKind {
    /// Whether a confirmation from outside is asked of such an output.
    pub fn is_confirming(self) -> bool
        ensures { result ≡ is_confirming self }
    {
        matches!(self, OutputKind::Routing | OutputKind::Protection)
    }
}
