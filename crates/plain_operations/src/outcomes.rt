ghost use Rattle.std.specs.Prelude.{◌≡◌, ◌&&◌, [], ◌∷◌, IfOk, OnOk, false, nat_le, option_map};
ghost use Rattle.site_types.specs.Done.{value_set as value_given};
ghost use Rattle.std.specs.List.{list_any};
ghost use Rattle.site_types.specs.Done.{is_on as is_on_setting, is_setting};
ghost use Rattle.panel_rules.specs.Operations.{after_desk, after_keep, after_reply, and_done as done_where_told};
ghost use Rattle.panel_rules.specs.Operations.{answer_all as answers_to_all, desk_reply, do_all as all_are_done};
ghost use Rattle.panel_rules.specs.Operations.{done_in as done_at, is_unsettled as waits_for};
ghost use Rattle.panel_rules.specs.Operations.{keep_reply as answer_of_keep, no_operations, requests_in};
ghost use Rattle.panel_rules.specs.Operations.{setting_asked, setting_reply as reply_on_setting};
ghost use Rattle.panel_rules.specs.Operations.{stands_so as stands_already};
ghost use Rattle.plain_operations.specs.Desks.{all_answered, all_requests, outcomes_of, reply_of, request_of};
ghost use Rattle.plain_history.specs.Histories.{all_done, done_of};
ghost use Rattle.panel_settings.specs.Settings.{setting_from};

use crate::op_answered::OpAnswered;
use crate::reply::Reply;
use crate::request::Request;
use access_levels::allowed;
use panel_settings::{Setting, is_same, setting_of, value_set};
use plain_history::{Done, Settings, is_on};
use site_types::{MOST_OPERATIONS, Retained, Site};
use std::alloc::Global;
use tick_units::{NoMemory, Tick};

/// What became of operations, in the order in which it became so.
#[derive(Drop)]
pub struct Outcomes {
    pub waiting: Vec<Request>,
    pub answers: Vec<OpAnswered>,
    pub done: Vec<Done>,
}

impl Outcomes {
    /// Nothing was asked for.
    pub fn new(alloc: Global) -> Outcomes
        ensures { outcomes_of result ≡ no_operations }
    {
        Outcomes {
            waiting: Vec::new(alloc),
            answers: Vec::new(alloc),
            done: Vec::new(alloc),
        }
    }

    /// The turn of a panel's Desk: it takes the operations of its panel and tick out of all that were asked
    /// for. Tells whether one was done.
    pub fn desk(
        &mut self,
        site: &Site,
        kept: &Retained,
        requests: &[Request],
        panel: u8,
        tick: Tick,
    ) -> Result<bool, NoMemory>
        ensures became { OnOk result
            (outcomes_of self.new ≡ after_desk site.now kept.now
            (requests_in panel tick.0 (all_requests requests.now)) (outcomes_of self.old)) }
        ensures same { IfOk result (λ changed. changed ≡ false
            → self.new.done.items ≡ self.old.done.items) }
    {
        let mut changed = false;
        for request in requests {
            let done = self.take(site, kept, request, panel, tick)?;
            changed = changed || done;
        }
        Ok(changed)
    }

    /// The turn of Keep answers all that wait. Tells whether an operation was done.
    pub fn keep(&mut self, tick: Tick, failed: bool) -> Result<bool, NoMemory>
        ensures became { OnOk result
            (outcomes_of self.new ≡ after_keep tick.0 failed (outcomes_of self.old)) }
        ensures same { IfOk result (λ changed. changed ≡ false
            → self.new.done.items ≡ self.old.done.items) }
    {
        answer_all(&mut self.answers, &self.waiting, tick, failed)?;
        if !failed {
            do_all(&mut self.done, &self.waiting, tick)?;
        }
        self.waiting.clear();
        Ok(!failed)
    }

    // Takes an operation, where it is one of the panel and of the tick. Tells whether it was done.
    fn take(
        &mut self,
        site: &Site,
        kept: &Retained,
        request: &Request,
        panel: u8,
        tick: Tick,
    ) -> Result<bool, NoMemory>
        ensures became { OnOk result
            (outcomes_of self.new ≡ after_desk site.now kept.now
            (requests_in panel tick.0 (request_of request.now ∷ [])) (outcomes_of self.old)) }
        ensures same { IfOk result (λ changed. changed ≡ false
            → self.new.done.items ≡ self.old.done.items) }
    {
        if request.panel == panel && request.tick.0 == tick.0 {
            let reply = self.reply(site, kept, request);
            self.answer(request, reply)
        } else {
            Ok(false)
        }
    }

    // The answer at Desk's turn; none where the operation is accepted for Keep.
    fn reply(&self, site: &Site, kept: &Retained, request: &Request) -> Option<Reply>
        ensures { option_map reply_of result ≡ desk_reply site.now kept.now (request_of request.now)
            (outcomes_of self.now) }
    {
        if request.earlier >= MOST_OPERATIONS {
            return Some(Reply::Busy);
        }
        if let Err(denied) = allowed(&request.operation, request.level) {
            return Some(Reply::Denied {
                needs: denied.needs,
                has: denied.has,
            });
        }
        match setting_of(request.panel, request.operation) {
            None => Some(Reply::WasDone),
            Some(setting) => self.setting_reply(site, kept, request, setting),
        }
    }

    // What an operation on a setting is answered at once, where its panel took it and its level is enough.
    fn setting_reply(
        &self,
        site: &Site,
        kept: &Retained,
        request: &Request,
        setting: Setting,
    ) -> Option<Reply>
        ensures { option_map reply_of result ≡ reply_on_setting site.now kept.now
            (request_of request.now) (outcomes_of self.now) (Some (setting_from setting)) }
    {
        if self.is_unsettled(setting, request.tick) {
            Some(Reply::Waiting)
        } else if self.stands_so(site, kept, request, setting) {
            Some(Reply::Already)
        } else {
            None
        }
    }

    // Whether an operation on the setting was accepted that isn't in force yet.
    fn is_unsettled(&self, setting: Setting, tick: Tick) -> bool
        ensures { result ≡ waits_for (setting_from setting) tick.0 (outcomes_of self.now) }
    {
        any_waits(&self.waiting, setting) || any_is_fresh(&self.done, setting, tick)
    }

    // Whether the setting has the value already that an operation sets.
    fn stands_so(&self, site: &Site, kept: &Retained, request: &Request, setting: Setting) -> bool
        ensures { result ≡ stands_already site.now kept.now (setting_from setting)
            request.now.tick.0 (value_given request.now.operation) (all_done self.now.done.items) }
    {
        if let Setting::Counter(_) = setting {
            return false;
        }
        let settings = Settings {
            site,
            kept,
            done: self.done.as_slice(),
        };
        settings.in_force(setting, request.tick) == value_set(request.operation)
    }

    // Gives an answer, or accepts the operation for Keep where there is none. Tells whether it was done.
    fn answer(&mut self, request: &Request, reply: Option<Reply>) -> Result<bool, NoMemory>
        ensures became { OnOk result (outcomes_of self.new ≡ after_reply (request_of request.now)
            (outcomes_of self.old) (option_map reply_of reply)) }
        ensures same { IfOk result (λ changed. changed ≡ false
            → self.new.done.items ≡ self.old.done.items) }
    {
        let Some(reply) = reply else {
            self.waiting.push(*request)?;
            return Ok(false);
        };
        self.answers.push(OpAnswered {
            request: *request,
            tick: request.tick,
            reply,
        })?;
        and_done(&mut self.done, request, reply)
    }
}

// Whether one of some operations that wait is on a setting.
fn any_waits(waiting: &[Request], setting: Setting) -> bool
    ensures { result
        ≡ list_any (λ r. is_setting (setting_from setting) (setting_asked (request_of r)))
        waiting.now }
{
    waiting.iter().any(|request| is_of(request, setting))
}

// Whether one of some operations done is on a setting and isn't in force yet.
fn any_is_fresh(done: &[Done], setting: Setting, tick: Tick) -> bool
    ensures { result ≡ list_any (λ d. is_on_setting (setting_from setting) (done_of d)
        && nat_le tick.0 d.tick.0) done.now }
{
    done.iter()
        .any(|one| is_on(setting, one) && tick.0 <= one.tick.0)
}

// Whether an operation that is asked for is on a setting.
fn is_of(request: &Request, setting: Setting) -> bool
    ensures { result ≡ is_setting (setting_from setting) (setting_asked (request_of request.now)) }
{
    match setting_of(request.panel, request.operation) {
        None => false,
        Some(asked) => is_same(setting, asked),
    }
}

// An operation as it is done in a tick.
fn done_in(tick: Tick, request: &Request) -> Done
    ensures { done_of result ≡ done_at tick.0 (request_of request.now) }
{
    Done {
        tick,
        panel: request.panel,
        operation: request.operation,
    }
}

// Does an operation whose answer says so. Tells whether it was done.
fn and_done(done: &mut Vec<Done>, request: &Request, reply: Reply) -> Result<bool, NoMemory>
    ensures became { OnOk result (all_done done.new.items ≡ done_where_told (request_of request.now)
        (reply_of reply) (all_done done.old.items)) }
    ensures same { IfOk result (λ changed. changed ≡ false → done.new.items ≡ done.old.items) }
{
    if let Reply::WasDone = reply {
        done.push(done_in(request.tick, request))?;
        Ok(true)
    } else {
        Ok(false)
    }
}

// The answer of a turn of Keep.
fn keep_reply(failed: bool) -> Reply
    ensures { reply_of result ≡ answer_of_keep failed }
{
    if failed { Reply::Store } else { Reply::WasDone }
}

// Answers all that wait at a turn of Keep.
fn answer_all(
    answers: &mut Vec<OpAnswered>,
    waiting: &[Request],
    tick: Tick,
    failed: bool,
) -> Result<(), NoMemory>
    ensures { OnOk result (all_answered answers.new.items ≡ answers_to_all tick.0 failed
        (all_requests waiting.now) (all_answered answers.old.items)) }
{
    let reply = keep_reply(failed);
    for request in waiting {
        answers.push(OpAnswered {
            request: *request,
            tick,
            reply,
        })?;
    }
    Ok(())
}

// Does all that waits at a turn of Keep.
fn do_all(done: &mut Vec<Done>, waiting: &[Request], tick: Tick) -> Result<(), NoMemory>
    ensures { OnOk result (all_done done.new.items ≡ all_are_done tick.0 (all_requests waiting.now)
        (all_done done.old.items)) }
{
    for request in waiting {
        done.push(done_in(tick, request))?;
    }
    Ok(())
}
