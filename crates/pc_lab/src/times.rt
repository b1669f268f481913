//! What the time of a CPU goes to.
//!
//! A CPU has an account, which is brought up to now only where what the CPU does changes, and at the end. So no tick
//! costs anything for the CPUs that go on as before.

ghost use Rattle.std.specs.Prelude.{◌≡◌, ℕ, ◌<◌, ◌≤◌, All, IfOk, length, slice_index_or};
ghost use Rattle.pc_lab.specs.Times.{IsKept, IsWhole};
ghost use Rattle.pc_lab.specs.declared.times.Account.{Account};

use crate::fault::LabFault;
use pc_calls::Event;
use pc_kernel::Kernel;
use pc_messages::Cpu;
use std::alloc::Global;

/// What the time of a CPU went to, in ticks (own).
#[derive(Clone, Copy, Debug, PartialEq, Eq)]
pub struct CpuTime {
    /// A thread ran.
    pub ran: u64,
    /// The CPU's agent was in a turn.
    pub in_turns: u64,
    /// Neither.
    pub idle: u64,
    /// Neither, while a thread waited that may run there.
    pub idle_while_one_waits: u64,
}

/// What the time of a CPU went to up to a tick. Since then the CPU has done what it does.
#[derive(Clone, Copy)]
pub(crate) struct Account {
    pub time: CpuTime,
    pub upto: u64,
}

/// What a CPU does for a while.
#[derive(Clone, Copy)]
pub(crate) enum Doing {
    Turn,
    Running,
    Idling { one_waits: bool },
}

/// Whether a word has the bit of a CPU.
pub(crate) fn has(word: u64, cpu: Cpu) -> bool {
    word >> (cpu.index() % 64) & 1 == 1
}

/// The word of one CPU.
pub(crate) fn word_of(cpu: Cpu) -> u64 {
    1 << (cpu.index() % 64)
}

/// The lowest CPU of a word that has one.
pub(crate) fn lowest_of(word: u64) -> Cpu {
    Cpu((word.trailing_zeros() % 64) as u8)
}

/// The words of CPUs by which their time is told apart.
#[derive(Clone, Copy)]
struct Words {
    /// Those whose agents are in a turn.
    in_turns: u64,
    /// Those for which a thread waits.
    wanted: u64,
}

/// What the time of all CPUs goes to.
#[derive(Drop)]
pub(crate) struct Times {
    pub accounts: Vec<Account>,
    words: Words,
}

/// What a CPU does.
fn work_of(kernel: &Kernel, words: Words, cpu: Cpu) -> Doing {
    if has(words.in_turns, cpu) {
        return Doing::Turn;
    }
    match kernel.running(cpu) {
        Some(_) => Doing::Running,
        None => Doing::Idling {
            one_waits: has(words.wanted, cpu),
        },
    }
}

/// The time of a CPU behind a while in which it did this.
fn spent(time: CpuTime, doing: Doing, tick: u64, now: u64) -> CpuTime
    requires forward { tick ≤ now }
    requires before { IsWhole tick time }
    ensures { IsWhole now result }
{
    let span = now - tick;
    match doing {
        Doing::Turn => CpuTime {
            in_turns: time.in_turns + span,
            ..time
        },
        Doing::Running => CpuTime {
            ran: time.ran + span,
            ..time
        },
        Doing::Idling { one_waits: false } => CpuTime {
            idle: time.idle + span,
            ..time
        },
        Doing::Idling { one_waits: true } => CpuTime {
            idle: time.idle + span,
            idle_while_one_waits: time.idle_while_one_waits + span,
            ..time
        },
    }
}

/// The account of a CPU that has done this since, up to now.
fn brought(account: Account, doing: Doing, now: u64) -> Account
    requires { IsKept now account }
    ensures kept { IsKept now result }
    ensures up { result.upto ≡ now }
{
    Account {
        time: spent(account.time, doing, account.upto, now),
        upto: now,
    }
}

/// The accounts of so many CPUs, of which no time has gone by.
fn new_accounts(alloc: Global, cpus: u8) -> Result<Vec<Account>, LabFault>
    ensures kept { IfOk result (λ accounts. All (IsKept 0) accounts.items) }
    ensures many { IfOk result (λ accounts. length accounts.items ≡ cpus) }
{
    let mut accounts = Vec::new(alloc);
    for _ in 0..cpus {
        accounts.push(Account {
            time: CpuTime {
                ran: 0,
                in_turns: 0,
                idle: 0,
                idle_while_one_waits: 0,
            },
            upto: 0,
        })?;
    }
    Ok(accounts)
}

impl Times {
    /// No time has gone by on so many CPUs, on which nothing is done.
    pub(crate) fn new(alloc: Global, cpus: u8) -> Result<Times, LabFault>
        ensures kept { IfOk result (λ times. All (IsKept 0) times.accounts.items) }
        ensures many { IfOk result (λ times. length times.accounts.items ≡ cpus) }
    {
        let accounts = new_accounts(alloc, cpus)?;
        Ok(Times {
            accounts,
            words: Words {
                in_turns: 0,
                wanted: 0,
            },
        })
    }

    /// Whether the CPU's agent is in a turn.
    pub(crate) fn is_in_turn(&self, cpu: Cpu) -> bool {
        has(self.words.in_turns, cpu)
    }

    /// Brings the account of a CPU up to now, before what it does changes.
    fn settle(&mut self, kernel: &Kernel, cpu: Cpu, now: u64)
        requires { All (IsKept now) self.old.accounts.items }
        ensures kept { All (IsKept now) self.new.accounts.items }
        ensures many { length self.new.accounts.items ≡ length self.old.accounts.items }
        ensures up { (d : Account) → cpu < length self.new.accounts.items
            → (slice_index_or self.new.accounts.items cpu d).upto ≡ now }
    {
        let place = cpu.index() as usize;
        if place >= self.accounts.len() {
            return;
        }
        let doing = work_of(kernel, self.words, cpu);
        self.accounts[place] = brought(self.accounts[place], doing, now);
    }

    /// The CPU's agent is in a turn from now on.
    pub(crate) fn enter_turn(&mut self, kernel: &Kernel, cpu: Cpu, now: u64)
        requires { All (IsKept now) self.old.accounts.items }
        ensures kept { All (IsKept now) self.new.accounts.items }
        ensures many { length self.new.accounts.items ≡ length self.old.accounts.items }
    {
        self.settle(kernel, cpu, now);
        self.words.in_turns |= word_of(cpu);
    }

    /// The CPU's agent is in no turn from now on.
    pub(crate) fn leave_turn(&mut self, kernel: &Kernel, cpu: Cpu, now: u64)
        requires { All (IsKept now) self.old.accounts.items }
        ensures kept { All (IsKept now) self.new.accounts.items }
        ensures many { length self.new.accounts.items ≡ length self.old.accounts.items }
    {
        self.settle(kernel, cpu, now);
        self.words.in_turns &= !word_of(cpu);
    }

    /// Brings the account up to now of the CPU on which another thread, or none, may run behind the event.
    pub(crate) fn settle_for(&mut self, kernel: &Kernel, event: &Event, now: u64)
        requires { All (IsKept now) self.old.accounts.items }
        ensures kept { All (IsKept now) self.new.accounts.items }
        ensures many { length self.new.accounts.items ≡ length self.old.accounts.items }
    {
        if let Some(cpu) = event.effect().changed_cpu() {
            self.settle(kernel, cpu, now);
        }
    }

    /// Threads wait for these CPUs from now on, and for no others. So what changes of idle CPUs is settled before.
    pub(crate) fn want(&mut self, kernel: &Kernel, wanted: u64, now: u64)
        requires { All (IsKept now) self.old.accounts.items }
        ensures kept { All (IsKept now) self.new.accounts.items }
        ensures many { length self.new.accounts.items ≡ length self.old.accounts.items }
    {
        if wanted == self.words.wanted {
            return;
        }
        let mut left = (wanted ^ self.words.wanted) & !self.words.in_turns;
        for _ in 0..left.count_ones() {
            let cpu = lowest_of(left);
            left &= left.wrapping_sub(1);
            if kernel.running(cpu).is_none() {
                self.settle(kernel, cpu, now);
            }
        }
        self.words.wanted = wanted;
    }

    /// What the time of each CPU went to, up to now.
    pub(crate) fn up_to(
        &self,
        alloc: Global,
        kernel: &Kernel,
        now: u64,
    ) -> Result<Vec<CpuTime>, LabFault>
        requires { All (IsKept now) self.now.accounts.items }
        ensures whole { IfOk result (λ times. All (IsWhole now) times.items) }
        ensures many { IfOk result (λ times. length times.items ≡ length self.now.accounts.items) }
    {
        let mut times = Vec::new(alloc);
        let mut cpu = 0;
        for account in &self.accounts {
            let account = brought(*account, work_of(kernel, self.words, Cpu(cpu)), now);
            times.push(account.time)?;
            cpu = cpu.wrapping_add(1);
        }
        Ok(times)
    }
}
