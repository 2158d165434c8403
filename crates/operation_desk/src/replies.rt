//! The answer at Desk's turn by the first row that applies.

ghost use Rattle.std.specs.Prelude.{◌≡◌, ◌&&◌, option_map};
ghost use Rattle.std.specs.List.{list_any};
ghost use Rattle.site_types.specs.Done.{is_setting, operation_setting, value_set as value_given};
ghost use Rattle.operation_desk.specs.Replies.{Rules, has_value, waits_or_done};
ghost use Rattle.panel_settings.specs.Settings.{setting_from};

use crate::done_operation::DoneOperation;
use crate::request::Request;
use access_levels::allowed;
use face_text::Reply;
use panel_settings::{Setting, is_same, setting_of, value_in, value_set};
use site_types::{Operation, Retained, Site};

/// What an operation is answered that is one of the first four of its panel and tick; none where it is accepted for
/// Keep.
pub(crate) fn rule(
    site: &Site,
    settings: &Retained,
    waiting: &[Request],
    done: &[DoneOperation],
    request: &Request,
) -> Option<Reply>
    ensures { Rules site.now settings.now waiting.now done.now request.now result }
{
    if let Err(denied) = allowed(&request.operation, request.level) {
        return Some(Reply::Denied {
            needs: denied.needs,
            has: denied.has,
        });
    }
    let Some(setting) = setting_of(request.panel, request.operation) else {
        return Some(Reply::Done);
    };
    if is_unsettled(waiting, done, setting) {
        Some(Reply::Waiting)
    } else if stands_so(site, settings, request, setting) {
        Some(Reply::Already)
    } else {
        None
    }
}

// Whether an operation on the setting was accepted that isn't in force yet.
fn is_unsettled(waiting: &[Request], done: &[DoneOperation], setting: Setting) -> bool
    ensures { result ≡ waits_or_done (setting_from setting) waiting.now done.now }
{
    any_waits(waiting, setting) || any_was_done(done, setting)
}

// Whether the setting has the value already that an operation sets.
fn stands_so(site: &Site, settings: &Retained, request: &Request, setting: Setting) -> bool
    ensures { result ≡ has_value site.now settings.now (setting_from setting)
        (value_given request.now.operation) }
{
    if let Setting::Counter(_) = setting {
        return false;
    }
    value_in(site, settings, setting) == value_set(request.operation)
}

fn any_waits(waiting: &[Request], setting: Setting) -> bool
    ensures { result ≡ list_any (λ r. is_setting (setting_from setting)
        (operation_setting r.panel r.operation)) waiting.now }
{
    waiting
        .iter()
        .any(|request| is_on(request.panel, request.operation, setting))
}

fn any_was_done(done: &[DoneOperation], setting: Setting) -> bool
    ensures { result ≡ list_any (λ d. is_setting (setting_from setting)
        (operation_setting d.panel d.operation)) done.now }
{
    done.iter()
        .any(|one| is_on(one.panel, one.operation, setting))
}

// Whether an operation at a panel is on a setting.
fn is_on(panel: u8, operation: Operation, setting: Setting) -> bool
    ensures { result ≡ is_setting (setting_from setting) (operation_setting panel operation) }
{
    match setting_of(panel, operation) {
        None => false,
        Some(other) => is_same(setting, other),
    }
}
