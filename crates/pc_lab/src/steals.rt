//! Steals.

use crate::fault::LabFault;
use crate::lane::News;
use crate::run::Run;
use crate::stage::Setting;
use crate::times::{has, word_of};
use pc_calls::{Event, Posted, Refusal, Reply};
use pc_messages::{Cpu, Tid};

impl<K: Setting> Run<K> {
    /// The delta at this place of the list of a group.
    fn news_at(&self, group: usize, place: usize) -> Option<News> {
        self.groups.get(group)?.get(place).copied()
    }

    /// How many deltas a group has.
    fn news_in_all(&self, group: usize) -> usize {
        match self.groups.get(group) {
            Some(news) => news.len(),
            None => 0,
        }
    }

    /// Looks which deltas can be taken in now.
    fn ripen(&mut self) {
        let now = self.stage.tick();
        for place in self.ripe..self.deltas.len() {
            match self.deltas.get(place) {
                Some(delta) if delta.due <= now => self.ripe = place.saturating_add(1),
                _ => return,
            }
        }
    }

    /// The agent takes in what of its group can be taken in now, and has a thread that may run on its CPU.
    fn hear(&mut self, cpu: Cpu) -> Result<(), LabFault> {
        let _: (Option<Posted>, Option<Tid>, Option<Cpu>, Option<Refusal>) = (
            None, None, None, None,
        );
        self.ripen();
        let group = self.group_of(cpu);
        for place in self.lane(cpu).looked..self.news_in_all(group) {
            let Some(news) = self.news_at(group, place) else {
                return Ok(());
            };
            if news.delta as usize >= self.ripe {
                return Ok(());
            }
            self.lane_mut(cpu).looked = place.saturating_add(1);
            if news.sender != cpu && has(news.mask, cpu) {
                self.stage.do_event(Event::Deliver {
                    cpu,
                    delta: news.delta as u64,
                })?;
            }
        }
        Ok(())
    }

    /// A steal was refused as late.
    fn note_late(&mut self, cpu: Cpu) {
        let Some(agent) = self.stage.world().agent(cpu) else {
            return;
        };
        let Some(thread) = agent.candidate(self.kernel()) else {
            return;
        };
        if let Some(asked) = self.refused_at.get_mut(thread.index() as usize) {
            *asked |= word_of(cpu);
        }
    }

    /// A thread was taken over by an agent that was called for a thread.
    fn run_stolen(
        &mut self,
        cpu: Cpu,
        stolen: Tid,
        called_for: Option<Tid>,
    ) -> Result<(), LabFault> {
        let _: (Option<Posted>, Option<Tid>, Option<Cpu>, Option<Refusal>) = (
            None, None, None, None,
        );
        self.pick(cpu)?;
        match called_for {
            Some(thread) if thread != stolen => self.call(thread),
            _ => {}
        }
        Ok(())
    }

    /// The thread for which the agent was called, which it is not from now on.
    fn take_call(&mut self, cpu: Cpu) -> Option<Tid> {
        let lane = self.lane_mut(cpu);
        let called_for = lane.called_for;
        lane.called_for = None;
        called_for
    }

    /// The agent steals, as it is replied.
    fn stolen(&mut self, cpu: Cpu, reply: &Reply) -> Result<(), LabFault> {
        let called_for = self.take_call(cpu);
        match *reply {
            Reply::Associated { thread, .. } => self.run_stolen(cpu, thread, called_for),
            Reply::Refused(Refusal::Dead | Refusal::Stale(_)) => {
                self.note_late(cpu);
                Ok(())
            }
            _ => Ok(()),
        }
    }

    /// The agent steals, and sleeps.
    pub(crate) fn steal(&mut self, cpu: Cpu) -> Result<(), LabFault> {
        let _: (Option<Posted>, Option<Tid>, Option<Cpu>, Option<Refusal>) = (
            None, None, None, None,
        );
        self.hear(cpu)?;
        let reply = self.stage.do_event(Event::Steal { cpu })?;
        self.stolen(cpu, &reply)?;
        self.sleep(cpu)
    }
}
