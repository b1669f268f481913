//! The machine that answers a script's commands: no world before an accepted `enclave`, and one from then on.

ghost use Rattle.std.specs.Prelude.{◌≡◌, List, [], ◌∷◌, ◌++◌, None, IsTrue, OnOk, OnErr};
ghost use Rattle.pc_script.specs.declared.command.Command.{Command};
ghost use Rattle.pc_script.specs.declared.response.Response.{Response};
ghost use Rattle.pc_session.specs.Session.{IsSession, PlainEnclave, RanOut, TakesMemory, TakesMemoryIn};
ghost use Rattle.pc_session.specs.Session.{TakesMemoryToRead};
ghost use Rattle.pc_session.specs.Reads.{IsRead};
ghost use Rattle.pc_world.specs.PlainWorld.{PlainWorld};
ghost use Rattle.pc_calls.specs.declared.limits.Profile.{Profile};
ghost use Rattle.pc_world.specs.Shows.{Does, LeavesWhenRanOut, ShowsWorld};
ghost use Rattle.pc_world.specs.Steps.{Step};
ghost use Rattle.pc_session.specs.Inner.Sessions.{Answers, IsReplied, Steps, is_session};
ghost use Rattle.pc_session.specs.Standing.{LeadsToWorld, ShowsEnclave, StandsAfter, lent};

use crate::reads::{answer_of, put_asleep, put_status};
use pc_calls::{Event, LimitsFault, Profile, Refusal, Reply};
use pc_messages::Cpu;
use pc_policy::{AgentPolicy, PolicyName};
use pc_script::{Command, Machine, Read, Response};
use pc_world::World;
use std::alloc::{AllocError, Global};

/// A world, and whether no event was taken in it yet.
#[derive(Drop)]
struct Enclave {
    world: World,
    is_untouched: bool,
}

/// What a script's commands are answered by.
#[derive(Drop)]
pub struct Session {
    alloc: Global,
    /// By which the limits of an enclave are judged.
    profile: Profile,
    enclave: Option<Enclave>,
}

/// Answers a command that meets no world.
///
/// This stands apart, as all does that another command than an event needs: an event is answered where the walk over
/// the lines is, and nothing of the others is made ready for it.
#[inline(never)]
fn open(
    alloc: Global,
    profile: Profile,
    enclave: &mut Option<Enclave>,
    command: &Command,
    response: &mut Response,
) -> Result<(), AllocError>
    requires { enclave.old ≡ None }
    ensures ok { OnOk result (Steps profile command.now enclave.old enclave.new response.new) }
    ensures no_memory { OnErr result (TakesMemory profile None command.now) }
    ensures kept { OnErr result (response.new ≡ response.old) }
{
    let Command::Enclave(limits) = command else {
        *response = Response::NoEnclave;
        return Ok(());
    };
    match World::new_in(alloc, profile, *limits) {
        Ok(world) => {
            *enclave = Some(Enclave {
                world,
                is_untouched: true,
            });
            *response = Response::Opened;
        }
        Err(LimitsFault::BadLimits(field)) => *response = Response::BadLimits(field),
        Err(LimitsFault::OutOfMemory) => return Err(AllocError),
    }
    Ok(())
}

/// Answers an `enclave` that meets a world.
#[inline(never)]
fn refuse_another(response: &mut Response)
    ensures { response.new ≡ Response.HaveEnclave }
{
    *response = Response::HaveEnclave;
}

/// Answers a policy. Where no event was taken yet, a world with the same limits is opened in the place of the old one,
/// which nothing has changed.
#[inline(never)]
fn rule(
    alloc: Global,
    profile: Profile,
    enclave: &mut Enclave,
    policy: &PolicyName,
    response: &mut Response,
) -> Result<(), AllocError>
    ensures ok { OnOk result (Answers (Command.Policy policy.now) enclave.old enclave.new response.new) }
    ensures no_memory { OnErr result (IsTrue enclave.old.is_untouched) }
    ensures kept { OnErr result ((response.new ≡ response.old) × (enclave.new ≡ enclave.old)) }
{
    if !enclave.is_untouched {
        *response = Response::Refused(Refusal::TooLate);
        return Ok(());
    }
    let limits = enclave.world.kernel().limits();
    let policies = AgentPolicy::for_each(alloc, *policy, limits.cpus)?;
    match World::new_by(alloc, profile, limits, policies.as_slice()) {
        Ok(world) => {
            enclave.world = world;
            *response = Response::Ruled(*policy);
            Ok(())
        }
        // The limits were within their ranges when the old world was opened, so memory is wanting.
        Err(_) => Err(AllocError),
    }
}

/// Has the world take an event, and puts its reply in the place of a response of any kind.
#[inline(never)]
fn step_anew(world: &mut World, event: &Event, response: &mut Response) -> Result<(), AllocError>
    ensures ok { OnOk result (IsReplied (Does (λ w. Step w event.now) world.old world.new) response.new) }
    ensures no_memory { OnErr result (LeavesWhenRanOut event.now world.old world.new) }
    ensures kept { OnErr result (response.new ≡ response.old) }
{
    let mut reply = Reply::Done;
    match world.step_in_place(event, &mut reply) {
        Ok(()) => {
            *response = Response::Event(reply);
            Ok(())
        }
        Err(_) => Err(AllocError),
    }
}

/// Has the world take an event, and puts its reply in the place of the response. Most stand where another reply stood,
/// of which nothing has to be let go.
#[inline(always)]
fn step(world: &mut World, event: &Event, response: &mut Response) -> Result<(), AllocError>
    ensures ok { OnOk result (IsReplied (Does (λ w. Step w event.now) world.old world.new) response.new) }
    ensures no_memory { OnErr result (LeavesWhenRanOut event.now world.old world.new) }
    ensures kept { OnErr result (response.new ≡ response.old) }
{
    match response {
        Response::Event(place) => match world.step_in_place(event, place) {
            Ok(()) => Ok(()),
            Err(_) => Err(AllocError),
        },
        _ => step_anew(world, event, response),
    }
}

/// Mends a CPU, which counts as an event.
#[inline(never)]
fn mend(met: &mut Enclave, cpu: Cpu, response: &mut Response) -> Result<(), AllocError>
    ensures ok { OnOk result (Answers (Command.Mend cpu) met.old met.new response.new) }
    ensures no_memory { OnErr result
        ((e : PlainEnclave) → ShowsEnclave met.old e → TakesMemoryIn e (Command.Mend cpu)) }
    ensures kept { OnErr result (response.new ≡ response.old) }
{
    met.is_untouched = false;
    match met.world.mend(cpu) {
        Ok(reply) => {
            *response = Response::Event(reply);
            Ok(())
        }
        Err(_) => Err(AllocError),
    }
}

/// Puts what a question is answered into the place of a response of any kind.
#[inline(never)]
fn tell_anew(
    alloc: Global,
    world: &World,
    read: Read,
    response: &mut Response,
) -> Result<(), AllocError>
    ensures ok { OnOk result ((w : PlainWorld) → ShowsWorld world.now w → IsRead w read response.new) }
    ensures no_memory { OnErr result ((w : PlainWorld) → ShowsWorld world.now w → TakesMemoryToRead w read) }
    ensures kept { OnErr result (response.new ≡ response.old) }
{
    *response = answer_of(alloc, world, read)?;
    Ok(())
}

/// Answers a question. Most are of status words, and of agents that sleep.
#[inline(never)]
fn tell(alloc: Global, world: &World, read: Read, response: &mut Response) -> Result<(), AllocError>
    ensures ok { OnOk result ((w : PlainWorld) → ShowsWorld world.now w → IsRead w read response.new) }
    ensures no_memory { OnErr result ((w : PlainWorld) → ShowsWorld world.now w → TakesMemoryToRead w read) }
    ensures kept { OnErr result (response.new ≡ response.old) }
{
    match read {
        Read::Status { thread } => {
            put_status(world.kernel(), thread, response);
            Ok(())
        }
        Read::Asleep { cpu } => {
            put_asleep(world, cpu, response);
            Ok(())
        }
        _ => tell_anew(alloc, world, read, response),
    }
}

/// Answers a command that meets a world.
#[inline(always)]
fn act(
    alloc: Global,
    profile: Profile,
    enclave: &mut Enclave,
    command: &Command,
    response: &mut Response,
) -> Result<(), AllocError>
    ensures ok { OnOk result (Answers command.now enclave.old enclave.new response.new) }
    ensures no_memory { OnErr result
        ((e : PlainEnclave) → ShowsEnclave enclave.old e → TakesMemoryIn e command.now) }
    ensures kept { OnErr result (response.new ≡ response.old) }
{
    match command {
        Command::Enclave(_) => refuse_another(response),
        Command::Event(event) => {
            enclave.is_untouched = false;
            step(&mut enclave.world, event, response)?;
        }
        Command::Read(read) => tell(alloc, &enclave.world, *read, response)?,
        Command::Policy(policy) => rule(alloc, profile, enclave, policy, response)?,
        Command::Mend { cpu } => mend(enclave, *cpu, response)?,
    }
    Ok(())
}

impl Machine for Session {
    ghost IsRun = { IsSession };

    ghost StandsAfter = { λ profile session. StandsAfter profile session.profile session.enclave };

    ghost RanOut = { RanOut };

    fn start(alloc: Global, profile: Profile) -> Session {
        Session {
            alloc,
            profile,
            enclave: None,
        }
    }

    #[inline(always)]
    fn answer(&mut self, command: &Command, response: &mut Response) -> Result<(), AllocError> {
        match &mut self.enclave {
            None => open(
                self.alloc,
                self.profile,
                &mut self.enclave,
                command,
                response,
            ),
            Some(enclave) => act(self.alloc, self.profile, enclave, command, response),
        }
    }

    ghost is_run_after = { λ profile session commands told stands. is_session profile session.profile session.enclave
        commands told stands };
}

impl Session {
    /// The world; none before an accepted `enclave`.
    pub fn world(&self) -> Option<&World>
        ensures { (profile : Profile) (commands : List Command) (told : List Response)
            → StandsAfter profile self.now.profile self.now.enclave commands told
            → LeadsToWorld profile commands told (lent result) }
    {
        match &self.enclave {
            Some(enclave) => Some(&enclave.world),
            None => None,
        }
    }
}
