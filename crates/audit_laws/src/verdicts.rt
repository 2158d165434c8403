ghost use Rattle.audit_laws.specs.RunsPass.{RunsPass, TextsPass};

/// **What a run writes passes an audit**, whatever was kept, befell and failed, and whatever the orders of turns: its
/// timeline against its ticks as a record tells them, and its text against such a record.
pub fn runs_pass_audits()
    ensures runs { RunsPass }
    ensures texts { TextsPass }
{}
