//! Why a call is refused: the first of its conditions that holds.

ghost use Rattle.std.specs.Prelude.{◌≡◌, ◌<◌, Some, length, slice_get, IfOk};
ghost use Rattle.std.specs.Result.{result_err};
ghost use Rattle.pc_calls.specs.AgentCalls.{associates, commits, sleeps, rouses, configures};
ghost use Rattle.pc_calls.specs.Conditions.{first_of};

use crate::tables::Tables;
use crate::threads::ThreadEntry;
use pc_calls::{Call, EnvCall, Refusal};
use pc_messages::{Cpu, Kind, Level, LevelFault, Mask, MaskFault, Phase, Tid};
use pc_queue::QueueFault;

impl Tables {
    ghost use Rattle.pc_kernel.specs.Inner.LastPosts.{thread_row_of};
    ghost use Rattle.pc_kernel.specs.Reads.{seen, number_read, is_pending, on};
    ghost use Rattle.pc_kernel.specs.Steps.{refused, queue_refusals, post_refusals, mask_refusals, thread_refusals};
    ghost use Rattle.pc_kernel.specs.Steps.{leave_refusals};

    /// Why the first items of a queue are not removed.
    pub(crate) fn consume_fault(&self, cpu: Cpu, count: u32) -> Option<Refusal>
        ensures { result ≡ refused (seen self.now) (Call.Consume cpu count) }
    {
        match self.cpu(cpu) {
            None => Some(Refusal::BadCpu),
            Some(entry) if entry.queue.len() < count => Some(Refusal::TooMany),
            Some(_) => None,
        }
    }

    /// Why a thread gets no other home queue.
    pub(crate) fn associate_fault(&self, thread: Tid, queue: Cpu, number: u32) -> Option<Refusal>
        ensures { result ≡ refused (seen self.now) (associates thread queue number) }
    {
        let entry = match self.thread(thread) {
            None => return Some(Refusal::UnknownThread),
            Some(entry) => entry,
        };
        if queue.index() >= self.cpus() {
            return Some(Refusal::BadCpu);
        }
        match entry.state().phase {
            Phase::Dead => return Some(Refusal::Dead),
            Phase::Ready | Phase::Blocked => {}
        }
        if number != entry.number() {
            return Some(Refusal::Stale(entry.number()));
        }
        if self.is_pending(thread) {
            return Some(Refusal::Pending);
        }
        match entry.on() {
            Some(cpu) => Some(Refusal::Running(cpu)),
            None => None,
        }
    }

    /// Why a thread is not put on the CPU.
    pub(crate) fn commit_fault(&self, cpu: Cpu, thread: Tid, aseq: u32) -> Option<Refusal>
        ensures { result ≡ refused (seen self.now) (commits cpu thread aseq) }
    {
        let core = match self.cpu(cpu) {
            None => return Some(Refusal::BadCpu),
            Some(core) => core,
        };
        let entry = match self.thread(thread) {
            None => return Some(Refusal::UnknownThread),
            Some(entry) => entry,
        };
        if aseq != core.queue.aseq() {
            return Some(Refusal::Stale(core.queue.aseq()));
        }
        match entry.state().phase {
            Phase::Ready => {}
            Phase::Blocked | Phase::Dead => return Some(Refusal::NotReady),
        }
        if entry.home().index() != cpu.index() {
            return Some(Refusal::NotYours(entry.home()));
        }
        match entry.on() {
            Some(other) => return Some(Refusal::Running(other)),
            None => {}
        }
        if !entry.state().mask.allows(cpu) {
            return Some(Refusal::Forbidden);
        }
        match core.running {
            Some(_) => Some(Refusal::Busy),
            None => None,
        }
    }

    /// Why the CPU's agent does not sleep.
    pub(crate) fn sleep_fault(&self, cpu: Cpu, aseq: u32) -> Option<Refusal>
        ensures { result ≡ refused (seen self.now) (sleeps cpu aseq) }
    {
        match self.cpu(cpu) {
            None => Some(Refusal::BadCpu),
            Some(entry) if entry.queue.aseq() != aseq => Some(Refusal::Stale(entry.queue.aseq())),
            Some(_) => None,
        }
    }

    /// Why the CPU's agent is not woken.
    pub(crate) fn rouse_fault(&self, cpu: Cpu) -> Option<Refusal>
        ensures { result ≡ refused (seen self.now) (rouses cpu) }
    {
        if cpu.index() < self.cpus() {
            None
        } else {
            Some(Refusal::BadCpu)
        }
    }

    /// Why a queue gets no such target.
    pub(crate) fn config_fault(&self, queue: Cpu, target: &Option<Cpu>) -> Option<Refusal>
        ensures { result ≡ refused (seen self.now) (configures queue target.now) }
    {
        if queue.index() >= self.cpus() {
            return Some(Refusal::BadCpu);
        }
        match *target {
            Some(cpu) if cpu.index() >= self.cpus() => Some(Refusal::BadCpu),
            _ => None,
        }
    }

    /// Whether the thread's home queue holds a message of it: whether the last post of one is not among those that
    /// are gone.
    fn is_pending(&self, thread: Tid) -> bool
        requires { thread < length self.now.threads }
        ensures { result ≡ is_pending (seen self.now) thread }
    {
        let entry = &self.threads[thread.index() as usize];
        let queue = &self.cpus[entry.home().index() as usize].queue;
        let gone = queue.aseq() - queue.len();
        entry.last_post() > gone
    }

    /// The first message of a new thread, or why there is none.
    pub(crate) fn first_kind(&self, queue: Cpu, mask: u64, ready: bool) -> Result<Kind, Refusal>
        ensures kind { IfOk result (λ kind. kind ≡ Kind.Created ready mask) }
        ensures refused { result_err result ≡ refused (seen self.now) (Call.Env (EnvCall.Create queue ready mask)) }
    {
        if queue.index() >= self.cpus() {
            return Err(Refusal::BadCpu);
        }
        let mask = self.mask(mask)?;
        if self.threads() >= self.limits().threads {
            return Err(Refusal::NamesSpent);
        }
        match self.queue_fault(queue) {
            Some(refusal) => Err(refusal),
            None => Ok(Kind::Created { mask, ready }),
        }
    }

    /// Why a thread is not woken.
    pub(crate) fn wake_fault(&self, thread: Tid) -> Option<Refusal>
        ensures { result ≡ refused (seen self.now) (Call.Env (EnvCall.Wake thread)) }
    {
        match self.thread(thread) {
            None => Some(Refusal::UnknownThread),
            Some(entry) => match entry.state().phase {
                Phase::Dead => Some(Refusal::Dead),
                Phase::Ready => Some(Refusal::NotBlocked),
                Phase::Blocked => self.post_fault(thread),
            },
        }
    }

    /// The thread that can leave the CPU, or why none can.
    pub(super) fn leaver(&self, cpu: Cpu) -> Result<Tid, Refusal>
        ensures runs { IfOk result (λ thread. on (seen self.now) cpu ≡ Some thread) }
        ensures known { IfOk result (λ thread. thread < length self.now.threads) }
        ensures numbers { IfOk result (λ thread. number_read (seen self.now) thread < self.now.limits.numbers) }
        ensures refused { result_err result ≡ first_of (leave_refusals (seen self.now) cpu) }
    {
        self.is_sound();
        match self.cpu(cpu) {
            None => Err(Refusal::BadCpu),
            Some(entry) => match entry.running {
                None => Err(Refusal::IdleCpu),
                Some(thread) => match self.post_fault(thread) {
                    Some(refusal) => Err(refusal),
                    None => Ok(thread),
                },
            },
        }
    }

    /// The message of a thread's new mask, or why there is none.
    pub(crate) fn affinity(&self, thread: Tid, mask: u64) -> Result<Kind, Refusal>
        ensures kind { IfOk result (λ kind. kind ≡ Kind.Affinity mask) }
        ensures refused { result_err result ≡ refused (seen self.now) (Call.Env (EnvCall.SetAffinity thread mask)) }
    {
        let entry = self.living(thread)?;
        let mask = self.mask(mask)?;
        match entry.on() {
            Some(cpu) if !mask.allows(cpu) => return Err(Refusal::OnForbiddenCpu),
            _ => {}
        }
        match self.post_fault(thread) {
            Some(refusal) => Err(refusal),
            None => Ok(Kind::Affinity { mask }),
        }
    }

    /// The message of a thread's new level, or why there is none.
    pub(crate) fn priority(&self, thread: Tid, level: u8) -> Result<Kind, Refusal>
        ensures kind { IfOk result (λ kind. kind ≡ Kind.Priority level) }
        ensures refused { result_err result ≡ refused (seen self.now) (Call.Env (EnvCall.SetPriority thread level)) }
    {
        self.living(thread)?;
        let level = match Level::new(level) {
            Ok(level) => level,
            Err(LevelFault::BadLevel) => return Err(Refusal::BadLevel),
        };
        match self.post_fault(thread) {
            Some(refusal) => Err(refusal),
            None => Ok(Kind::Priority { level }),
        }
    }

    /// The thread's row, where it is known and alive.
    fn living(&self, thread: Tid) -> Result<&ThreadEntry, Refusal>
        ensures row { IfOk result (λ entry. slice_get self.now.threads thread ≡ Some (thread_row_of entry.now)) }
        ensures refused { result_err result ≡ first_of (thread_refusals (seen self.now) thread) }
    {
        match self.thread(thread) {
            None => Err(Refusal::UnknownThread),
            Some(entry) => match entry.state().phase {
                Phase::Dead => Err(Refusal::Dead),
                Phase::Ready | Phase::Blocked => Ok(entry),
            },
        }
    }

    /// The mask with these bits.
    fn mask(&self, bits: u64) -> Result<Mask, Refusal>
        ensures ok { IfOk result (λ mask. mask ≡ bits) }
        ensures refused { result_err result ≡ first_of (mask_refusals (seen self.now) bits) }
    {
        match Mask::new(bits, self.cpus()) {
            Ok(mask) => Ok(mask),
            Err(MaskFault::EmptyMask) => Err(Refusal::EmptyMask),
            Err(MaskFault::MaskTooWide) => Err(Refusal::MaskTooWide),
        }
    }

    /// Why a CPU's tick is not posted.
    pub(crate) fn tick_fault(&self, cpu: Cpu) -> Option<Refusal>
        ensures { result ≡ refused (seen self.now) (Call.Env (EnvCall.Tick cpu)) }
    {
        if cpu.index() >= self.cpus() {
            return Some(Refusal::BadCpu);
        }
        self.queue_fault(cpu)
    }

    /// Why no further message of a thread is posted.
    fn post_fault(&self, thread: Tid) -> Option<Refusal>
        requires { thread < length self.now.threads }
        ensures { result ≡ first_of (post_refusals (seen self.now) thread) }
    {
        let entry = &self.threads[thread.index() as usize];
        if entry.number() >= self.limits.numbers {
            return Some(Refusal::NumbersSpent);
        }
        self.queue_fault(entry.home())
    }

    /// Why nothing is posted to a queue.
    fn queue_fault(&self, queue: Cpu) -> Option<Refusal>
        requires { queue < self.now.limits.cpus }
        ensures { result ≡ first_of (queue_refusals (seen self.now) queue) }
    {
        match self.cpus[queue.index() as usize].queue.refusal() {
            None => None,
            Some(QueueFault::QueueFull) => Some(Refusal::QueueFull),
            Some(QueueFault::PostsSpent) => Some(Refusal::PostsSpent),
            Some(QueueFault::OutOfMemory) => unreachable!(),
        }
    }
}
