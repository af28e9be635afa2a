/// The verdict on a message (gossipsub v1.1, Extended Validators).
#[derive(Clone, Copy, Debug, PartialEq, Eq)]
pub enum Verdict {
    /// It is delivered and passed on.
    Accept,
    /// It is dropped, and counts against each neighbour that passes it on (P4).
    Reject,
    /// It is dropped, and counts against nobody.
    Ignore,
}
