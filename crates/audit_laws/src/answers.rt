ghost use Rattle.audit_laws.specs.AnswersJudged.{AnswerRuleIsKept};

/// **No answer of a run's text is unfounded**: each is to an operation that was asked for by then, once, and `done`
/// only with the level of its code.
pub fn answer_rule_is_kept()
    ensures { AnswerRuleIsKept }
{}
