/// What a call finds: its words, the files, the record and the journals.
#[derive(Clone, Copy)]
pub(crate) struct Given<'a> {
    pub(crate) words: &'a [String],
    /// The file that is on the shelf under the name in the second word, where there is one.
    pub(crate) site: Option<&'a [u8]>,
    /// The one under the name in the third word, where the words are those of a move, an import or an audit.
    pub(crate) third: Option<&'a [u8]>,
    /// The one under the name in the fourth word, where they are those of an audit.
    pub(crate) fourth: Option<&'a [u8]>,
    pub(crate) record: &'a [u8],
    pub(crate) journal: &'a [u8],
    /// What the file already holds in which a move makes the new journal.
    pub(crate) target: &'a [u8],
}

impl<'a> Given<'a> {
    /// What a program is given, with no more of the record than so many bytes.
    pub(crate) fn cut(self, bytes: usize) -> Given<'a> {
        let (record, _) = self.record.split_at(bytes.min(self.record.len()));
        Given { record, ..self }
    }
}
