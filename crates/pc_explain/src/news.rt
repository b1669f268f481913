//! Messages that a delta tells, as ranges of numbers.

ghost use Rattle.std.specs.Prelude.{◌≤◌};

use crate::words::Count;
use pc_delta::{Delta, Part};
use pc_messages::Tid;
use pc_view::View;
use std::fmt;

/// The most ranges that are told one by one.
const MOST_RANGES: usize = 4;

/// Messages of a thread that follow each other.
#[derive(Clone, Copy)]
struct Range {
    thread: Tid,
    from: u32,
    to: u32,
}

/// The first few ranges of messages, and how many messages there are beyond them.
#[derive(Drop)]
pub(crate) struct News {
    ranges: [Range; MOST_RANGES],
    told: usize,
    more: u64,
    ghost within: { told ≤ 4 },
}

impl News {
    /// No messages.
    fn none() -> News {
        News {
            ranges: [Range {
                thread: Tid(0),
                from: 0,
                to: 0,
            }; MOST_RANGES],
            told: 0,
            more: 0,
        }
    }

    /// What a delta tells.
    pub(crate) fn all(delta: &Delta) -> News {
        let mut news = News::none();
        for part in delta.parts() {
            match part {
                Part::One(message) => news.add(message.thread, message.number, message.number),
                Part::Folded { thread, upto, .. } => news.add(*thread, 1, *upto),
            }
        }
        news
    }

    /// What a delta tells that a view does not know.
    pub(crate) fn beyond(delta: &Delta, view: &View) -> News {
        let mut news = News::none();
        for part in delta.parts() {
            match part {
                Part::One(message) => {
                    if !view.knows(message.thread, message.number) {
                        news.add(message.thread, message.number, message.number);
                    }
                }
                Part::Folded { thread, upto, .. } => news.add_unknown(view, *thread, *upto),
            }
        }
        news
    }

    /// Adds those of the first messages of a thread, up to a number, that a view does not know.
    fn add_unknown(&mut self, view: &View, thread: Tid, upto: u32) {
        let mut from = view.upto(thread).saturating_add(1);
        if let Some(held) = view.thread(thread) {
            for (number, _) in held.early() {
                if *number > upto {
                    break;
                }
                if from < *number {
                    self.add(thread, from, *number - 1);
                }
                from = number.saturating_add(1);
            }
        }
        if from <= upto {
            self.add(thread, from, upto);
        }
    }

    /// Whether there are no messages.
    pub(crate) fn is_empty(&self) -> bool {
        self.told == 0
    }

    /// Adds messages of a thread.
    fn add(&mut self, thread: Tid, from: u32, to: u32) {
        let range = Range { thread, from, to };
        match self.place_before(&range) {
            Some(place) if place < MOST_RANGES => self.ranges[place].to = to,
            _ if self.told < MOST_RANGES => {
                self.ranges[self.told] = range;
                self.told += 1;
            }
            _ => {
                let messages = u64::from(to.saturating_sub(from)).saturating_add(1);
                self.more = self.more.saturating_add(messages);
            }
        }
    }

    /// Where the range stands that this one goes on from.
    fn place_before(&self, next: &Range) -> Option<usize> {
        let ranges = &self.ranges[..self.told];
        ranges.iter().position(|range| {
            range.thread.index() == next.thread.index()
                && range.to.checked_add(1) == Some(next.from)
        })
    }
}

impl fmt::Display for Range {
    fn fmt<W: fmt::Write>(&self, f: &mut fmt::Formatter<W>) -> fmt::Result {
        let thread = self.thread.index();
        let from = self.from;
        let to = self.to;
        if from == to {
            write!(f, "t{thread} {from}")
        } else {
            write!(f, "t{thread} {from} to {to}")
        }
    }
}

impl fmt::Display for News {
    fn fmt<W: fmt::Write>(&self, f: &mut fmt::Formatter<W>) -> fmt::Result {
        let mut before = "";
        for range in &self.ranges[..self.told] {
            write!(f, "{before}{range}")?;
            before = ", ";
        }
        if self.more > 0 {
            let more = Count(self.more, "message");
            write!(f, ", and {more} more")?;
        }
        Ok(())
    }
}
