use sqlite::Error;

/// What kept a call of a keeper from its answer.
#[derive(Clone, Copy, Debug, PartialEq, Eq)]
pub enum Trouble {
    /// The database refused to be opened.
    Opening(Error),
    /// The database refused a text: one that makes a table, or a statement.
    Text(Error),
    /// The database handed out a value that a visit can't hold.
    Value,
}
