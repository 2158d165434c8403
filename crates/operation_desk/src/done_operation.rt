use site_types::Operation;

/// An operation that was done in the tick that began last.
#[derive(Clone, Copy, Debug)]
pub struct DoneOperation {
    pub panel: u8,
    pub operation: Operation,
}

impl Default for DoneOperation {
    fn default() -> DoneOperation {
        DoneOperation {
            panel: 0,
            operation: Operation::Mute,
        }
    }
}
