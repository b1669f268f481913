//! When steps and turns end.

use crate::due::{Due, What};
use pc_messages::Cpu;

/// When a step, a quantum or a turn ends.
#[derive(Clone, Copy)]
struct End {
    tick: u64,
    /// The first tick at which anything can come of it. A quantum that ends earlier begins anew.
    change: u64,
    is_turn: bool,
}

impl End {
    /// No run comes to that tick: a load ends before, and no step is as long.
    const NEVER: End = End {
        tick: u64::MAX,
        change: u64::MAX,
        is_turn: false,
    };

    /// Whether it is done before the other, at a CPU of a greater number.
    fn is_before(&self, other: &End) -> bool {
        self.tick < other.tick || (self.tick == other.tick && !self.is_turn && other.is_turn)
    }
}

/// The ends of steps and turns: of each CPU there is at most one, since a thread stands still during a turn.
///
/// The CPUs play a tournament, so that one end more or less costs as many comparisons as there are rounds.
#[derive(Drop)]
pub(crate) struct Ends {
    ends: [End; 64],
    /// Of each match the place of the CPU whose end is first. The final is match 1, and that match `n` is between
    /// matches `2 n` and `2 n + 1`, of which those from 64 on are the CPUs.
    winners: [u8; 64],
    /// Of each match the first tick at which anything can come of what ends on its CPUs.
    changes: [u64; 64],
}

impl Ends {
    /// Nothing ends.
    pub(crate) fn new() -> Ends {
        let mut ends = Ends {
            ends: [End::NEVER; 64],
            winners: [0; 64],
            changes: [u64::MAX; 64],
        };
        // The final comes last.
        for of in 0..63usize {
            ends.play(63 - of);
        }
        ends
    }

    /// The place of the CPU that has won a match.
    fn winner(&self, of: usize) -> u8 {
        if of >= 64 {
            (of % 64) as u8
        } else {
            self.winners[of % 64]
        }
    }

    /// The end of a CPU with this place.
    fn end_at(&self, place: u8) -> End {
        self.ends[(place % 64) as usize]
    }

    /// Plays a match. Says whether another one is its winner now than before.
    fn play(&mut self, of: usize) -> bool {
        let of = of % 64;
        let one = self.winner(2 * of);
        let other = self.winner(2 * of + 1);
        let is_other = self.end_at(other).is_before(&self.end_at(one));
        let winner = if is_other { other } else { one };
        let is_new = self.winners[of] != winner;
        self.winners[of] = winner;
        is_new
    }

    /// The matches of a CPU are played again, up to the first that another CPU had won and wins again.
    fn play_again(&mut self, place: u8) {
        let mut of = 64 | (place % 64) as usize;
        for _ in 0..6 {
            of /= 2;
            if !self.play(of) && self.winners[of % 64] != place {
                return;
            }
        }
    }

    /// The first tick at which anything can come of what ends on the CPUs of a match.
    fn change_of(&self, of: usize) -> u64 {
        if of >= 64 {
            self.ends[of % 64].change
        } else {
            self.changes[of % 64]
        }
    }

    /// What can come of a CPU's end has changed: so it may have for its matches, up to the first where it has not.
    fn note_change(&mut self, place: u8) {
        let mut of = 64 | (place % 64) as usize;
        for _ in 0..6 {
            of /= 2;
            let change = self.change_of(2 * of).min(self.change_of(2 * of + 1));
            if self.changes[of % 64] == change {
                return;
            }
            self.changes[of % 64] = change;
        }
    }

    /// What ends on the CPU from now on.
    fn set(&mut self, place: u8, end: End) {
        self.ends[(place % 64) as usize] = end;
        self.play_again(place);
        self.note_change(place);
    }

    /// A step or a turn ends on the CPU at a tick, and what was to end there does not.
    pub(crate) fn put(&mut self, cpu: Cpu, tick: u64, is_turn: bool) {
        self.set(
            cpu.index(),
            End {
                tick,
                change: tick,
                is_turn,
            },
        );
    }

    /// A quantum ends on the CPU at a tick, but if nothing else changes, nothing comes of it before another one.
    pub(crate) fn put_quantum(&mut self, cpu: Cpu, tick: u64, change: u64) {
        self.set(
            cpu.index(),
            End {
                tick,
                change,
                is_turn: false,
            },
        );
    }

    /// The first tick at which anything can come of what ends.
    pub(crate) fn first_change(&self) -> u64 {
        self.changes[1]
    }

    /// A turn that was to end on the CPU does not.
    pub(crate) fn drop_turn(&mut self, cpu: Cpu) {
        if self.end_at(cpu.index()).is_turn {
            self.set(cpu.index(), End::NEVER);
        }
    }

    /// What ends first.
    pub(crate) fn first(&self) -> Option<Due> {
        let place = self.winners[1];
        let end = self.end_at(place);
        if end.tick == u64::MAX {
            return None;
        }
        let cpu = Cpu(place);
        Some(Due {
            tick: end.tick,
            what: if end.is_turn {
                What::TurnEnds(cpu)
            } else {
                What::StepEnds(cpu)
            },
        })
    }

    /// Takes out what ends first.
    pub(crate) fn take_first(&mut self) {
        let place = self.winners[1];
        self.set(place, End::NEVER);
    }
}
