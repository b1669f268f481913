//! Calls of agents that sleep on idle CPUs.

use crate::fault::LabFault;
use crate::run::Run;
use crate::stage::Setting;
use crate::times::{lowest_of, word_of};
use pc_delta::Part;
use pc_messages::{Cpu, Tid};

/// The lowest CPU of a word.
fn lowest(word: u64) -> Option<Cpu> {
    if word == 0 {
        None
    } else {
        Some(lowest_of(word))
    }
}

/// The CPUs above one.
fn above(cpu: Cpu) -> u64 {
    !(word_of(cpu) | word_of(cpu).wrapping_sub(1))
}

impl<K: Setting> Run<K> {
    /// The CPUs of a word that are in the group of a CPU.
    fn kin(&self, word: u64, home: Cpu) -> u64 {
        word & self.kin[self.group_of(home) % 64]
    }

    /// Of the agents that sleep on idle CPUs, calls the first above the thread's home for it, or the lowest.
    pub(crate) fn call(&mut self, thread: Tid) {
        let kernel = self.kernel();
        if !kernel.is_waiting(thread) {
            return;
        }
        let (Some(state), Some(home)) = (kernel.reported(thread), kernel.queue_of(thread)) else {
            return;
        };
        let able = self.kin(self.sleepers & state.mask.bits(), home);
        let called = match lowest(able & above(home)) {
            Some(cpu) => Some(cpu),
            None => lowest(able),
        };
        if let Some(cpu) = called {
            self.lane_mut(cpu).called_for = Some(thread);
            self.begin_turn(cpu);
        }
    }

    /// How many parts the delta with this place has.
    fn parts_of(&self, place: usize) -> usize {
        match self.stage.world().sent().get(place) {
            Some(delta) => delta.parts().len(),
            None => 0,
        }
    }

    /// A part of the delta with this place.
    fn part_of(&self, place: usize, part: usize) -> Option<Part> {
        let delta = self.stage.world().sent().get(place)?;
        delta.parts().get(part).copied()
    }

    /// The thread of which a part is the newest message.
    fn newest_in(&self, place: usize, part: usize) -> Option<Tid> {
        let Part::One(message) = self.part_of(place, part)? else {
            return None;
        };
        let status = self.kernel().status(message.thread)?;
        if status.number == message.number {
            Some(message.thread)
        } else {
            None
        }
    }

    /// Calls agents for what the delta with this place reports.
    fn call_for(&mut self, place: usize) {
        for part in 0..self.parts_of(place) {
            if let Some(thread) = self.newest_in(place, part) {
                self.call(thread);
            }
        }
    }

    /// Calls agents for the deltas that waited until this one sleeps.
    pub(crate) fn report_held_back(&mut self, cpu: Cpu) {
        if self.held_back.is_empty() {
            return;
        }
        for index in 0..self.held_back.len() {
            if let Some((sender, place)) = self.held_back.get(index).copied() {
                if sender == cpu {
                    self.call_for(place);
                }
            }
        }
        self.held_back.retain(|held| held.0 != cpu);
    }

    /// Calls the agents again that were refused a steal of the thread as late.
    fn call_again(&mut self, thread: Tid) {
        let Some(asked) = self.refused_at.get_mut(thread.index() as usize) else {
            return;
        };
        let word = *asked;
        *asked = 0;
        let mut left = word & self.sleepers;
        for _ in 0..left.count_ones() {
            let cpu = lowest_of(left);
            left &= left.wrapping_sub(1);
            self.begin_turn(cpu);
        }
    }

    /// The delta with this place can be taken in.
    pub(crate) fn report(&mut self, place: usize) -> Result<(), LabFault> {
        let Some(delta) = self.deltas.get(place) else {
            return Ok(());
        };
        let sender = delta.sender;
        if self.is_in_turn(sender) && self.running(sender).is_none() {
            self.held_back.push((sender, place))?;
        } else {
            self.call_for(place);
        }
        for part in 0..self.parts_of(place) {
            if let Some(part) = self.part_of(place, part) {
                self.call_again(part.thread());
            }
        }
        Ok(())
    }
}
