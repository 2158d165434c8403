ghost use Rattle.std.specs.Prelude.{◌≡◌, ◌<◌, ◌-◌, ◌^◌, IfOk, OnErr, OnOk, length, map, true};
ghost use Rattle.std.specs.List.{range_with_len};
ghost use Rattle.face_text.specs.Faces.{empty_face};
ghost use Rattle.face_text.specs.Timelines.{empty_faces};
ghost use Rattle.panel_core.specs.Keeping.{has_failed};
ghost use Rattle.panel_core.specs.ShownFaces.{ShowsFace};
ghost use Rattle.panel_core.specs.Stands.{HasPanel};
ghost use Rattle.panel_parts.specs.Stands.{HasPlan};
ghost use Rattle.panel_edges.specs.Contents.{Grows, GrowsByFront};
ghost use Rattle.panel_edges.specs.Faults.{HasCause};
ghost use Rattle.site_run.specs.AlikeFaces.{ShowAlike};
ghost use Rattle.site_run.specs.Acting.{ClosesBadly, ClosesWell, MakesTicks, MayShow, ShowsFaces, TellsTick};
ghost use Rattle.site_run.specs.Acting.{TellsEvent};
ghost use Rattle.site_run.specs.Acting.{HasFaces, LeavesInTick, ShowAllNow, ShowsNext, ShowsNow};
ghost use Rattle.site_run.specs.Acting.{TurnsAll};
ghost use Rattle.site_run.specs.Acting.{failures_with};
ghost use Rattle.site_run.specs.Disks.{KeepsOn, TurnsOn};
ghost use Rattle.site_run.specs.Journals.{IsOpenFor};
ghost use Rattle.site_run.specs.Outside.{disks_of};
ghost use Rattle.site_run.specs.Records.{Progress, at_beginning};
ghost use Rattle.site_run.specs.Stands.{HasOrder, MayClose, MayHappen as MayTell};
ghost use Rattle.site_run.specs.Stands.{OpensTick, Stands, StandsClosed, StandsSome};
ghost use Rattle.run_text.specs.SoFar.{opening_text};
ghost use Rattle.retained_journal.specs.Images.{Stands as StandsOn};
ghost use Rattle.site_types.specs.Valid.{IsValid};
ghost use Rattle.site_types.specs.declared.retained.Retained.{Retained as RetainedOf};
ghost use Rattle.site_types.specs.declared.site.Site.{Site as SiteOf};

use crate::sized::note_sized;
use crate::tick_faces::{TickFaces, are_alike};
use crate::writing::{PAGE_BYTES, TickPage, has_answers, write_opening};
use cause_effect::{Plan, Steps};
use face_text::{Face, Starts};
use panel_core::{OrderForm, Store, System};
use panel_edges::{Disk, Failed, NoMemory, Sink, SoundMemorySink};
use retained_journal::Journal;
use site_types::{Event, Site};
use std::alloc::Global;
use std::marker::Brand;
use std::mem;
use std::sync::ledger::{Blank, Ledger};
use tick_units::{Order, Tick};

/// A site at work, line by line of its record.
#[derive(Drop)]
pub struct Run {
    pub(crate) system: System,
    pub(crate) journal: Journal,
    // What the panels showed after the tick that was run last.
    pub(crate) shown: Vec<Face>,
    // Where what they show next is put.
    pub(crate) next: Vec<Face>,
    // Of which panels both are the same, so that nothing has to be put where nothing changed.
    pub(crate) alike: [bool; 8],
    // Whether the block of a tick is being read, whose turns are yet to be made.
    pub(crate) is_open: bool,
    // The order of its turns, where the record gives one.
    pub(crate) order: Option<Order>,
    pub(crate) canonical: Order,
    // How many ticks were run, and in how many of them Keep's turn failed.
    pub(crate) ticks: u64,
    pub(crate) store_failures: u64,
    // Where the things of each panel begin in the site's lists.
    pub(crate) starts: Starts,
    // Where the text of a tick is put together before it is written.
    pub(crate) page: SoundMemorySink,
}

impl Run {
    /// The site before the first tick, with the journal that was opened for it. All memory of a run is taken here.
    pub fn open(alloc: Global, site: Site, plan: Plan, journal: Journal) -> Result<Run, NoMemory>
        requires valid { IsValid site }
        requires plan { HasPlan site plan }
        requires journal { IsOpenFor site journal.kept journal }
        ensures stands { IfOk result (Stands site journal.kept at_beginning) }
        ensures empty { IfOk result (λ run. run.next.items ≡ empty_faces site) }
        ensures same { IfOk result (λ run. run.journal ≡ journal) }
    {
        let canonical = Order::canonical(site.panels);
        let panels = site.panels;
        note_sized(journal.kept());
        let starts = Starts::of(&site);
        let Ok(system) = System::open(alloc, site, plan, journal.kept()) else {
            return Err(NoMemory);
        };
        let Ok(mut shown) = empty_faces_of(alloc, panels) else {
            return Err(NoMemory);
        };
        let Ok(next) = empty_faces_of(alloc, panels) else {
            return Err(NoMemory);
        };
        let page = SoundMemorySink::new(alloc, PAGE_BYTES)?;
        show(&system, &mut shown);
        Ok(Run {
            system,
            journal,
            shown,
            next,
            alike: [false; 8],
            is_open: false,
            order: None,
            canonical,
            ticks: 0,
            store_failures: 0,
            starts,
            page,
        })
    }

    /// The site that is run.
    pub fn site(&self) -> &Site
        ensures { (site : SiteOf) (kept : RetainedOf) (p : Progress)
            → Stands site kept p self.now → result.now ≡ site }
    {
        self.system.site()
    }

    /// What the panels showed after the tick that was run last, panel 1 first.
    pub fn shown(&self) -> &[Face]
        ensures { result.now ≡ self.now.shown.items }
    {
        self.shown.as_slice()
    }

    /// How many ticks were run.
    pub fn ticks(&self) -> u64
        ensures { result ≡ self.now.ticks }
    {
        self.ticks
    }

    /// In how many of them Keep's turn failed.
    pub fn store_failures(&self) -> u64
        ensures { result ≡ self.now.store_failures }
    {
        self.store_failures
    }

    /// Writes what is told before the first tick.
    pub fn write_opening<K: Sink>(&self, out: &mut K) -> Result<(), Failed>
        requires { length self.now.next.items ≡ length self.now.shown.items }
        ensures ok { OnOk result ((site : SiteOf) (kept : RetainedOf)
            → Stands site kept at_beginning self.now → self.now.next.items ≡ empty_faces site
            → Grows (K.written out.old) (K.written out.new) (opening_text site kept)) }
        ensures err { OnErr result ((site : SiteOf) (kept : RetainedOf)
            → Stands site kept at_beginning self.now → self.now.next.items ≡ empty_faces site
            → GrowsByFront (K.written out.old) (K.written out.new) (opening_text site kept)) }
        ensures cause { HasCause (K.write_faults out.old) (K.write_faults out.new) result }
    {
        write_opening(
            self.system.site(),
            self.next.as_slice(),
            self.shown.as_slice(),
            out,
        )
    }

    /// A tick begins, none of which is open.
    pub fn begin(&mut self, tick: Tick)
        requires { StandsClosed self.old }
        ensures opens { OpensTick tick.0 self.old self.new }
        ensures same { self.new.journal ≡ self.old.journal }
        ensures failures { self.new.store_failures ≡ self.old.store_failures }
    {
        self.system.begin(tick);
        self.is_open = true;
        self.order = None;
    }

    /// The order of the turns of the tick that is open.
    pub fn set_order(&mut self, order: Order)
        ensures stands { HasOrder order self.old self.new }
        ensures same { self.new.journal ≡ self.old.journal }
        ensures failures { self.new.store_failures ≡ self.old.store_failures }
    {
        self.order = Some(order);
    }

    /// Tells an event to the site, if a tick has begun.
    pub fn tell(&mut self, event: Event)
        requires { MayTell event self.old }
        ensures tells { TellsEvent event self.old self.new }
        ensures same { self.new.journal ≡ self.old.journal }
        ensures failures { self.new.store_failures ≡ self.old.store_failures }
    {
        if self.is_open {
            self.system.event(&event);
        }
    }

    /// Makes the turns of the tick whose block was read, if there is one, and writes what changed.
    pub fn close<D: Disk, K: Sink>(&mut self, disk: &mut D, out: &mut K) -> Result<(), Failed>
        requires some { StandsSome self.old }
        requires stands { StandsOn D.honest D.images disk.old self.old.journal }
        ensures ok { OnOk result
            (ClosesWell (disks_of D.honest D.images D.moment D.left_since disk.old disk.new)
            (K.written out.old) (K.written out.new) self.old self.new) }
        ensures err { OnErr result
            (ClosesBadly (disks_of D.honest D.images D.moment D.left_since disk.old disk.new)
            (K.written out.old) (K.written out.new) self.old self.new) }
        ensures disk { KeepsOn D.honest D.images D.faults disk.old disk.new self.old self.new }
        ensures cause { HasCause (K.write_faults out.old) (K.write_faults out.new) result }
    {
        if !self.is_open {
            return Ok(());
        }
        self.make_turns(disk);
        self.write_tick(out)
    }

    /// Writes what changed in the tick whose turns were made last and was answered in it, in one piece where it fits
    /// the page; where there is nothing to tell nothing is written.
    pub fn write_tick<K: Sink>(&mut self, out: &mut K) -> Result<(), Failed>
        requires { HasFaces self.old }
        ensures ok { OnOk result
            (TellsTick (Grows (K.written out.old) (K.written out.new)) self.old) }
        ensures err { OnErr result
            (TellsTick (GrowsByFront (K.written out.old) (K.written out.new)) self.old) }
        ensures rest { self.new ≡ record self.old { page = self.new.page } }
        ensures cause { HasCause (K.write_faults out.old) (K.write_faults out.new) result }
        ensures left { K.left out.new ≡ K.left out.old }
        ensures reads { K.read_faults out.new ≡ K.read_faults out.old }
    {
        if are_alike(&self.alike, self.shown.as_slice().len())
            && !has_answers(self.system.answers())
        {
            return Ok(());
        }
        self.write_page(out)
    }

    // So, with a look at the faces.
    #[inline(never)]
    fn write_page<K: Sink>(&mut self, out: &mut K) -> Result<(), Failed>
        requires { HasFaces self.old }
        ensures ok { OnOk result
            (TellsTick (Grows (K.written out.old) (K.written out.new)) self.old) }
        ensures err { OnErr result
            (TellsTick (GrowsByFront (K.written out.old) (K.written out.new)) self.old) }
        ensures rest { self.new ≡ record self.old { page = self.new.page } }
        ensures cause { HasCause (K.write_faults out.old) (K.write_faults out.new) result }
        ensures left { K.left out.new ≡ K.left out.old }
        ensures reads { K.read_faults out.new ≡ K.read_faults out.old }
    {
        let page = TickPage {
            tick: self.ticks,
            faces: TickFaces {
                site: self.system.site(),
                starts: &self.starts,
                alike: &self.alike,
                before: self.next.as_slice(),
                after: self.shown.as_slice(),
            },
            answers: self.system.answers(),
        };
        page.write(&mut self.page, out)
    }

    /// Makes the turns of the tick whose block was read. What was shown before it is at hand for
    /// [`Run::write_tick`] then.
    pub fn make_turns<D: Disk>(&mut self, disk: &mut D)
        requires may { MayClose self.old }
        requires stands { StandsOn D.honest D.images disk.old self.old.journal }
        ensures makes { MakesTicks
            (disks_of D.honest D.images D.moment D.left_since disk.old disk.new)
            self.old self.new }
        ensures faces { HasFaces self.new }
        ensures disk { KeepsOn D.honest D.images D.faults disk.old disk.new self.old self.new }
    {
        // the counter of steps is let go
        let store = self.turn_all::<Brand, D>(disk, Blank::new(1));
        self.store_failures = with_failure(self.store_failures, store);
        self.is_open = false;
        self.ticks += 1;
        self.show_next();
    }

    // Shows what the panels show after the turns, with what they showed before at hand.
    fn show_next(&mut self)
        requires { HasFaces self.old }
        ensures { ShowsNext self.old self.new }
    {
        show_now(
            &self.system,
            self.shown.as_slice(),
            &mut self.alike,
            &mut self.next,
        );
        mem::swap(&mut self.shown, &mut self.next);
    }

    // Each seat has its turn, in the order that was given, else in the canonical one.
    fn turn_all<L: Ledger, D: Disk>(&mut self, disk: &mut D, blank: Blank) -> Store
        requires may { MayClose self.old }
        requires stands { StandsOn D.honest D.images disk.old self.old.journal }
        requires name { blank.name ≡ L.name }
        requires parts { blank.parts ≡ L.parts }
        requires some { 0 < blank.parts }
        ensures turns { TurnsAll self.old result self.new }
        ensures leaves { LeavesInTick
            (disks_of D.honest D.images D.moment D.left_since disk.old disk.new)
            self.old result self.new }
        ensures disk { TurnsOn D.honest D.images D.faults disk.old disk.new self.old.journal
            self.new.journal result }
    {
        let mut steps: Steps<L> = Steps::new(blank);
        match &self.order {
            Some(order) => self
                .system
                .turns(order, OrderForm::Any, &mut self.journal, disk, &mut steps),
            None => self.system.turns(
                &self.canonical,
                OrderForm::Canonical,
                &mut self.journal,
                disk,
                &mut steps,
            ),
        }
    }
}

/// The number of failed ticks with one more, where Keep's turn failed.
pub fn with_failure(failures: u64, store: Store) -> u64
    requires { failures < 2 ^ 64 - 1 }
    ensures { result ≡ failures_with (has_failed store) failures }
{
    match store {
        Store::Failed => failures + 1,
        Store::Idle | Store::Kept => failures,
    }
}

// The empty faces of so many panels.
fn empty_faces_of(alloc: Global, panels: u8) -> Result<Vec<Face>, tick_units::NoMemory>
    ensures { IfOk result (λ faces. faces.items ≡ map empty_face (range_with_len 1 panels)) }
{
    let mut faces = Vec::with_capacity(alloc, panels as usize)?;
    for before in 0..panels {
        faces.push(Face::empty(before + 1))?;
    }
    Ok(faces)
}

// What the panels show.
fn show(system: &System, faces: &mut Vec<Face>)
    requires { MayShow system.now faces.old.items }
    ensures shows { ShowsFaces system.now faces.old.items faces.new.items }
    ensures room { length faces.new.items ≡ length faces.old.items }
{
    for place in 0..faces.len() {
        faces[place] = system.face(place as u8 + 1);
    }
}

// What the panels show, with what they showed at the end of the tick before. Where a panel is marked as alike, its face
// is what it showed already.
fn show_now(system: &System, shown: &[Face], alike: &mut [bool; 8], faces: &mut Vec<Face>)
    requires may { MayShow system.now faces.old.items }
    requires before { length shown.now ≡ length faces.old.items }
    requires alike { ShowAlike alike.old faces.old.items shown.now }
    ensures shows { ShowAllNow system.now shown.now faces.old.items faces.new.items }
    ensures alike { ShowAlike alike.new faces.new.items shown.now }
    ensures room { length faces.new.items ≡ length faces.old.items }
{
    for place in 0..faces.len() {
        let panel = place as u8 + 1;
        put_face(
            system,
            panel,
            &shown[place],
            &mut alike[place],
            &mut faces[place],
        );
    }
}

// Puts what a panel shows, with what it showed at the end of the tick before, and whether both are known to be the
// same.
fn put_face(system: &System, panel: u8, shown: &Face, alike: &mut bool, face: &mut Face)
    requires panel { HasPanel panel system.now }
    requires alike { alike.old ≡ true → face.old ≡ shown.now }
    ensures shows { ShowsNow system.now panel shown.now face.new }
    ensures alike { alike.new ≡ true → face.new ≡ shown.now }
{
    if system.has_changed(panel) {
        put_new_face(system, panel, face);
        *alike = false;
    } else if !*alike {
        *face = *shown;
        *alike = true;
    }
}

// Puts what a panel shows: here alone room is made for one more face.
fn put_new_face(system: &System, panel: u8, face: &mut Face)
    requires { HasPanel panel system.now }
    ensures { ShowsFace system.now panel face.new }
{
    *face = system.face(panel);
}
