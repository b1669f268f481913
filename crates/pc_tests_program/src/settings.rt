//! Settings are read, with ample memory. Their faults cases of `tests/cases` have.

use pc_program::{SettingsFault, read_config};
use pc_threads::{Config, Restart, Step};
use std::alloc::Global;
use std::test::Fail;

const TEXT: &str = "\
cpus = 64
[[thread]]
queue = 63
mask = 9223372036854775807
steps = [\"preempt 4294967295\", \"yield 0\", \"block 7\", \"die 10\"]
[[restart]]
cpu = 5
turn = 1000000
";

const STEPS: &[Step] = &[
    Step::Preempt(u32::MAX),
    Step::Yield(0),
    Step::Block(7),
    Step::Die(10),
];

const RESTARTS: &[Restart] = &[Restart {
    cpu: 5,
    turn: 1_000_000,
}];

// Without contracts, so that a test's proof does not carry those of settings.
fn is_read(alloc: Global) -> Result<bool, SettingsFault> {
    let config = read_config(alloc, TEXT)?;
    Ok(has_steps(&config) && config.restarts() == RESTARTS)
}

fn has_steps(config: &Config) -> bool {
    match config.threads() {
        [thread] => thread.steps.as_slice() == STEPS,
        _ => false,
    }
}

#[test]
fn settings_are_read(rt: HostRuntime) -> Result<(), Fail> {
    assert!(rt; is_read(rt.alloc())?);
    Ok(())
}
