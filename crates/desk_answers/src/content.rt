ghost use Rattle.std.specs.Prelude.{◌≡◌, ◌≤◌, length};
ghost use Rattle.desk_answers.specs.AnswerHeads.{content_line};

/// What an answer's body is.
#[derive(Clone, Copy)]
pub enum Content {
    Json,
    Text,
    Table,
}

impl Content {
    // The field of an answer's head that tells it.
    pub(crate) fn line(self) -> &'static str
        ensures text { result.now ≡ content_line self }
        ensures short { length result.now ≤ 48 }
    {
        match self {
            Content::Json => "Content-Type: application/json\r\n",
            Content::Text => "Content-Type: text/plain\r\n",
            Content::Table => "Content-Type: text/csv\r\n",
        }
    }
}
