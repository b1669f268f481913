//! The limits of an enclave.

ghost use Rattle.std.specs.Prelude.{◌≡◌};
ghost use Rattle.pc_calls.specs.Limits.{bad_field, is_outside, most_threads, most_numbers};

use pc_messages::GREATEST_NUMBER;
use thiserror::Error;

/// The most CPUs of an enclave.
pub const MOST_CPUS: u8 = 64;

/// The most threads of an enclave of profile One.
pub const MOST_THREADS: u32 = 4_096;

/// The most threads of an enclave of profile Two.
pub const MOST_THREADS_TWO: u32 = 65_535;

/// The most messages of a thread in profile One. In profile Two it is [`GREATEST_NUMBER`].
pub const MOST_NUMBERS: u32 = 1_000_000;

/// The most items in a queue.
pub const MOST_ROOM: u32 = 65_536;

/// The most posts to a queue.
pub const MOST_POSTS: u32 = u32::MAX;

/// How much an enclave may have. A post past a limit is refused, and changes nothing (own).
#[derive(Clone, Copy, Debug, PartialEq, Eq)]
pub struct Limits {
    /// CPUs: 1 to 64.
    pub cpus: u8,
    /// Threads: from 1 up, by the profile.
    pub threads: u32,
    /// Messages of one thread: from 1 up, by the profile.
    pub numbers: u32,
    /// Items in one queue: 1 to 65,536.
    pub room: u32,
    /// Posts to one queue: 1 to 4,294,967,295.
    pub posts: u32,
}

/// Which ranges limits have to keep (own).
#[derive(Clone, Copy, Debug, PartialEq, Eq)]
pub enum Profile {
    /// Up to 4,096 threads and 1,000,000 messages of each.
    One,
    /// Up to 65,535 threads and 16,000,000 messages of each.
    Two,
}

/// The name of a limit.
#[derive(Clone, Copy, Debug, PartialEq, Eq)]
pub enum LimitField {
    Cpus,
    Threads,
    Numbers,
    Room,
    Posts,
}

/// Why there is no kernel with some limits.
#[derive(Clone, Copy, Debug, PartialEq, Eq, Error)]
pub enum LimitsFault {
    /// This limit is the first that is out of its range.
    #[error("the limit {0:?} is out of range")]
    BadLimits(LimitField),
    /// A growth was refused.
    #[error("out of memory")]
    OutOfMemory,
}

impl Profile {
    /// The greatest count of threads.
    const fn most_threads(self) -> u32
        ensures { result ≡ most_threads self }
    {
        match self {
            Profile::One => MOST_THREADS,
            Profile::Two => MOST_THREADS_TWO,
        }
    }

    /// The greatest number of a message.
    const fn most_numbers(self) -> u32
        ensures { result ≡ most_numbers self }
    {
        match self {
            Profile::One => MOST_NUMBERS,
            Profile::Two => GREATEST_NUMBER,
        }
    }
}

/// Whether the count is not 1 to the greatest.
const fn is_outside(count: u32, greatest: u32) -> bool
    ensures { result ≡ is_outside count greatest }
{
    count < 1 || greatest < count
}

impl Limits {
    /// The first limit that is out of its range.
    pub const fn bad_field(&self, profile: Profile) -> Option<LimitField>
        ensures { result ≡ bad_field profile self.now }
    {
        if is_outside(self.cpus as u32, MOST_CPUS as u32) {
            Some(LimitField::Cpus)
        } else if is_outside(self.threads, profile.most_threads()) {
            Some(LimitField::Threads)
        } else if is_outside(self.numbers, profile.most_numbers()) {
            Some(LimitField::Numbers)
        } else if is_outside(self.room, MOST_ROOM) {
            Some(LimitField::Room)
        } else if is_outside(self.posts, MOST_POSTS) {
            Some(LimitField::Posts)
        } else {
            None
        }
    }
}
