/// A line `KIND SUBJECT: REST` of a list of cases. A line may end before its subject or its rest.
#[derive(Clone, Copy)]
pub struct Case<'a> {
    pub kind: &'a str,
    /// The file of its site, or what else is tried.
    pub subject: &'a str,
    pub rest: &'a str,
}

impl<'a> Case<'a> {
    pub fn read(line: &'a str) -> Case<'a> {
        let (head, rest) = line.split_once(": ").unwrap_or((line, ""));
        let (kind, subject) = head.split_once(' ').unwrap_or((head, ""));
        Case {
            kind,
            subject,
            rest,
        }
    }
}
