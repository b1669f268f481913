//! Why a refusal is answered: the words of docs/FORMATS.md.

use pc_calls::Refusal;

/// Why the kernel or an agent answers a refusal.
pub(crate) fn reason(refusal: Refusal) -> &'static str {
    match refusal {
        Refusal::BadCpu =>
            "the CPU, the queue, the queue's target or the asker is not below the count of CPUs",
        Refusal::UnknownThread => "no thread has the name",
        Refusal::Dead => "the thread is dead; a steal meets it where the view has not yet seen so",
        Refusal::NotBlocked => "only a blocked thread waits",
        Refusal::NotReady => "the thread is blocked or dead",
        Refusal::EmptyMask => "the thread could run nowhere",
        Refusal::MaskTooWide => "the mask has a CPU that is not there",
        Refusal::OnForbiddenCpu => "the thread runs on a CPU that the mask leaves out",
        Refusal::BadLevel => "the level is above 7",
        Refusal::IdleCpu => "no thread runs on the CPU that could leave it",
        Refusal::NamesSpent =>
            "as many threads as the limits allow have a name, and names are not given again",
        Refusal::NumbersSpent => "the thread has as many messages as the limits allow",
        Refusal::QueueFull => "the queue holds as many items as it has room for",
        Refusal::PostsSpent => "the queue had as many posts as the limits allow",
        Refusal::Stale(_) =>
            "the caller did not know of the last post, or of the thread's last message; it tells the number of now",
        Refusal::Pending =>
            "the thread's queue holds a message of it, which would be left behind there",
        Refusal::Running(_) =>
            "the thread runs on the named CPU (a steal looks at idle threads alone)",
        Refusal::NotYours(_) => "the thread's home is another queue, which it names",
        Refusal::Forbidden => "the thread's mask leaves the CPU out",
        Refusal::Busy => "a thread runs on the CPU already",
        Refusal::TooMany => "the queue holds fewer items than are to be removed",
        Refusal::NothingReady =>
            "the kernel commits no thread of the run list, which is empty then",
        Refusal::NothingToSteal =>
            "the view reports no thread ready and allowed here that is outside the run list and idle",
        Refusal::NoDelta => "no delta with this index was sent",
        Refusal::WireFault =>
            "the wire did not take the delta; the view has what the queue holds all the same",
        Refusal::TooLate =>
            "an event was taken before, accepted or refused, and a policy stands before the first event",
    }
}

/// Why a session answers no command, or not this one.
#[derive(Clone, Copy, Debug, PartialEq, Eq)]
pub(crate) enum Closed {
    NoEnclave,
    HaveEnclave,
    BadLimits,
}

impl Closed {
    /// Why it is answered.
    pub(crate) fn reason(self) -> &'static str {
        match self {
            Closed::NoEnclave =>
                "no enclave was accepted yet; its line comes before every other command",
            Closed::HaveEnclave => "an enclave was accepted before, and there is only one",
            Closed::BadLimits => "the limit that it names is out of its range",
        }
    }
}
