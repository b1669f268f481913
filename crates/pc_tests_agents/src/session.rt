//! A session answers each sort of command, with ample memory.

use pc_calls::Profile;
use pc_messages::Cpu;
use pc_script::{
    Machine, Outcome, Read as Question, Response, ScriptFault, Version, Wish, asked, run_script,
};
use pc_session::{Session, answer_of};
use pc_world::World;
use std::alloc::Global;

/// Each sort of command, and what it is answered.
const SCRIPT: &[u8] = b"version 3
enclave 2 65535 100 16 1000
policy levels exact
create 0 3 ready
mend 0
publish 0
status t0
asleep 0
show 0
same 0 1
complete 0 t0
";

const ANSWERS: &[u8] = b"ok
ok
ok
ok t0 n1 q0 a1 wake -
ok t0 c0
ok d2 items 0
t0 n1 ready c0
no
t0 upto 1 ready mask 3 ran 0 early -
end
differ
yes
";

// Without contracts, as the functions below, so that a test's proof does not carry those of sessions.
fn replayed(alloc: Global, script: &[u8], written: &mut Vec<u8>) -> Result<Outcome, ScriptFault> {
    let mut reader = script;
    run_script::<Session, _, _>(alloc, &mut reader, written)
}

fn is_answered(alloc: Global) -> bool {
    let mut written: Vec<u8> = Vec::new(alloc);
    replayed(alloc, SCRIPT, &mut written) == Ok(Outcome::Finished) && written.as_slice() == ANSWERS
}

#[test]
fn each_sort_of_command_is_answered(rt: HostRuntime) {
    assert!(rt; is_answered(rt.alloc()));
}

/// Whether the command of a line is answered.
fn takes(session: &mut Session, line: &[u8]) -> bool {
    let Wish::Answer(command) = asked(Version::Three, line) else {
        return false;
    };
    let mut response = Response::NoEnclave;
    session.answer(&command, &mut response).is_ok()
}

/// A session that took these lines.
fn session_of(alloc: Global, lines: &[&'static [u8]]) -> Option<Session> {
    let mut session = Session::start(alloc, Profile::Two);
    for line in lines {
        if !takes(&mut session, line) {
            return None;
        }
    }
    Some(session)
}

fn shown(alloc: Global, world: &World) -> Option<usize> {
    match answer_of(alloc, world, Question::Show { cpu: Cpu(0) }) {
        Ok(Response::View(threads)) => Some(threads.as_slice().len()),
        _ => None,
    }
}

/// How many threads the first agent knows behind these lines.
fn known(alloc: Global, lines: &[&'static [u8]]) -> Option<usize> {
    let session = session_of(alloc, lines)?;
    shown(alloc, session.world()?)
}

#[test]
fn a_question_is_answered_of_the_world(rt: HostRuntime) {
    static LINES: [&[u8]; 3] = [
        b"enclave 2 8 100 16 1000",
        b"create 0 3 ready",
        b"publish 0",
    ];
    assert_eq!(rt; known(rt.alloc(), &LINES), Some(1));
}
