ghost use Rattle.std.specs.Prelude.{◌≡◌, ◌≢◌, ◌<◌, ◌≤◌, List, [], length};
ghost use Rattle.site_types.specs.declared.retained.Retained.{Retained as RetainedOf};
ghost use Rattle.site_types.specs.declared.site.Site.{Site as SiteOf};
ghost use Rattle.panel_rules.specs.Moments.{Moment};

use crate::done_operation::DoneOperation;
use crate::ordered::put_answer;
use crate::replies::rule;
use crate::request::Request;
use access_levels::level_of;
use arrayvec::ArrayVec;
use face_text::{Answers, OpAnswer, OpAnswers, Reply};
use site_types::{Event, Label, MOST_OPERATIONS, Operation, Retained, Site};
use tick_units::Tick;

/// The operations of a site's panels.
#[derive(Drop)]
pub struct Desk {
    /// The tick that began last.
    pub(crate) tick: Tick,
    /// How many operations were asked for over the run.
    pub(crate) number: u64,
    /// How many of them at each panel in this tick.
    pub(crate) counts: [u64; 8],
    /// The first four of each panel in this tick, in order of their lines.
    pub(crate) asked: ArrayVec<Request, 32>,
    /// Those that wait for Keep, in the order in which they were accepted.
    pub(crate) waiting: ArrayVec<Request, 64>,
    /// What was done in this tick, the oldest first.
    pub(crate) done: ArrayVec<DoneOperation, 64>,
    /// What was answered in it.
    pub(crate) answers: Answers,
}

impl Desk {
    ghost use Rattle.operation_desk.specs.Changes.{AnswersWaiting, Asks, BeginsAnew, CanAsk, HasSameRest, HearsEvent};
    ghost use Rattle.operation_desk.specs.Changes.{TakesKeepTurn, TakesOwn, TakesRequest, TakesTurn};
    ghost use Rattle.operation_desk.specs.Ordered.{put_by_number};
    ghost use Rattle.operation_desk.specs.Replies.{numbered_reply, done_with};
    ghost use Rattle.operation_desk.specs.Stands.{CanTakeEvent, CanAnswerAll, CanRule, CanTurn, DesksFor};

    /// Nothing was asked for.
    pub fn new() -> Desk
        ensures { (site : SiteOf) (kept : RetainedOf) → DesksFor site kept [] result }
    {
        Desk {
            tick: Tick(0),
            number: 0,
            counts: [0; 8],
            asked: ArrayVec::new(),
            waiting: ArrayVec::new(),
            done: ArrayVec::new(),
            answers: Answers {
                ops: OpAnswers::new(),
                busy: [0; 8],
                failed: false,
            },
        }
    }

    /// A tick begins.
    pub fn begin(&mut self, tick: Tick)
        ensures { BeginsAnew self.old tick.0 self.new }
    {
        self.tick = tick;
        self.counts = [0; 8];
        self.asked.clear();
        self.done.clear();
        self.answers.ops.clear();
        self.answers.busy = [0; 8];
        self.answers.failed = false;
    }

    /// An event happens; one is that an operation is asked for.
    pub fn event(&mut self, site: &Site, event: &Event)
        requires { CanTakeEvent site.now event.now self.old }
        ensures { HearsEvent site.now event.now self.old self.new }
    {
        if let Event::Op {
            panel,
            code,
            operation,
        } = event
        {
            self.ask(*panel, level_by(code, site), operation);
        }
    }

    /// The turn of a panel's Desk, with the settings that are in force.
    #[inline(always)]
    pub fn turn(&mut self, site: &Site, settings: &Retained, panel: u8)
        requires { CanTurn site.now settings.now panel self.old }
        ensures { TakesTurn site.now settings.now panel self.old self.new }
    {
        if self.asked.is_empty() {
            return;
        }
        self.answer_own(site, settings, panel);
    }

    // The turn of a panel's Desk in a tick in which operations were asked for. It stands apart, so that most turns are
    // one test.
    #[inline(never)]
    fn answer_own(&mut self, site: &Site, settings: &Retained, panel: u8)
        requires { CanTurn site.now settings.now panel self.old }
        ensures { TakesTurn site.now settings.now panel self.old self.new }
    {
        self.take_own(site, settings, panel);
        self.answers.busy[panel as usize - 1] = self.counts[panel as usize - 1].saturating_sub(
            MOST_OPERATIONS as u64,
        );
    }

    /// The turn of Keep, which failed or kept the operations that wait.
    pub fn keep(&mut self, failed: bool)
        requires { CanAnswerAll failed self.old }
        ensures { TakesKeepTurn failed self.old self.new }
    {
        self.answer_waiting(failed);
        self.waiting.clear();
        self.answers.failed = failed;
    }

    /// The operations that wait for Keep, in the order in which they were accepted.
    pub fn waiting(&self) -> &[Request]
        ensures { result.now ≡ self.now.waiting.items }
    {
        self.waiting.as_slice()
    }

    /// What was done in the tick that began last, the oldest first.
    pub fn done(&self) -> &[DoneOperation]
        ensures { result.now ≡ self.now.done.items }
    {
        self.done.as_slice()
    }

    /// What was answered in the tick that began last.
    pub fn answers(&self) -> &Answers
        ensures { result.now ≡ self.now.answers }
    {
        &self.answers
    }

    // An operation is asked for at a panel, with a code that opens a level.
    fn ask(&mut self, panel: u8, level: u8, operation: &Operation)
        requires { CanAsk panel level operation.now self.old }
        ensures { Asks panel level operation.now self.old self.new }
    {
        let earlier = self.counts[panel as usize - 1];
        self.number += 1;
        self.counts[panel as usize - 1] = earlier + 1;
        if earlier < MOST_OPERATIONS as u64 {
            self.asked.push(Request {
                number: self.number,
                tick: self.tick,
                panel,
                earlier,
                level,
                operation: *operation,
            });
        }
    }

    // Takes the first operations of a panel, one after another.
    #[inline(never)]
    fn take_own(&mut self, site: &Site, settings: &Retained, panel: u8)
        requires { CanTurn site.now settings.now panel self.old }
        ensures took { TakesOwn site.now settings.now panel self.old self.new }
        ensures rest { HasSameRest self.old self.new }
    {
        for place in 0..self.asked.len() {
            let request = self.asked.as_slice()[place];
            self.take_of(site, settings, panel, &request);
        }
    }

    // Takes an operation where it is one of a panel.
    fn take_of(&mut self, site: &Site, settings: &Retained, panel: u8, request: &Request)
        requires { request.now.panel ≡ panel → CanRule site.now settings.now request.now self.old }
        ensures own { request.now.panel ≡ panel
            → TakesRequest site.now settings.now request.now self.old self.new }
        ensures other { request.now.panel ≢ panel → self.new ≡ self.old }
        ensures rest { HasSameRest self.old self.new }
    {
        if request.panel == panel {
            self.take(site, settings, request);
        }
    }

    // Gives an operation its answer, or lets it wait for Keep.
    fn take(&mut self, site: &Site, settings: &Retained, request: &Request)
        requires { CanRule site.now settings.now request.now self.old }
        ensures took { TakesRequest site.now settings.now request.now self.old self.new }
        ensures rest { HasSameRest self.old self.new }
    {
        match rule(
            site,
            settings,
            self.waiting.as_slice(),
            self.done.as_slice(),
            request,
        ) {
            None => self.waiting.push(*request),
            Some(reply) => self.answer(request, reply),
        }
    }

    // Gives those that wait their answer.
    fn answer_waiting(&mut self, failed: bool)
        requires { CanAnswerAll failed self.old }
        ensures told { AnswersWaiting failed self.old self.new }
        ensures rest { HasSameRest self.old self.new }
    {
        let reply = keep_reply(failed);
        for place in 0..self.waiting.len() {
            let request = self.waiting.as_slice()[place];
            self.answer(&request, reply);
        }
    }

    // Gives an operation its answer.
    fn answer(&mut self, request: &Request, reply: Reply)
        requires room { length self.old.answers.ops < 64 }
        requires few { length self.old.done.items ≤ length self.old.answers.ops }
        ensures ops { self.new.answers.ops
            ≡ put_by_number (numbered_reply request.now reply) self.old.answers.ops }
        ensures done { self.new.done.items ≡ done_with request.now reply self.old.done.items }
        ensures waiting { self.new.waiting ≡ self.old.waiting }
        ensures rest { HasSameRest self.old self.new }
    {
        put_answer(
            &mut self.answers.ops,
            OpAnswer {
                number: request.number,
                reply,
            },
        );
        self.note_done(request, reply);
    }

    // An operation was done where its answer says so.
    fn note_done(&mut self, request: &Request, reply: Reply)
        requires { length self.old.done.items < 64 }
        ensures done { self.new.done.items ≡ done_with request.now reply self.old.done.items }
        ensures waiting { self.new.waiting ≡ self.old.waiting }
        ensures answers { self.new.answers ≡ self.old.answers }
        ensures rest { HasSameRest self.old self.new }
    {
        if let Reply::Done = reply {
            self.done.push(DoneOperation {
                panel: request.panel,
                operation: request.operation,
            });
        }
    }
}

ghost use Rattle.std.specs.Prelude.{option_map};
ghost use Rattle.access_levels.specs.Levels.{level_of as level_opened};

// The level that a code opens, or none.
fn level_by(code: &Option<Label>, site: &Site) -> u8
    ensures { result ≡ level_opened site.now (option_map (λ label. label.bytes) code.now) }
{
    match code {
        None => level_of(None, site),
        Some(label) => level_of(Some(label.as_str()), site),
    }
}

ghost use Rattle.operation_desk.specs.Replies.{kept_reply};

// The answer of a turn of Keep.
fn keep_reply(failed: bool) -> Reply
    ensures { result ≡ kept_reply failed }
{
    if failed { Reply::Store } else { Reply::Done }
}
