//! Runs by several seeds over memory, with ample memory: they are tallied.

use pc_program::{AgentPolicy, Ending, Seeds, Tallied, tally_flushed};
use std::io::BufWriter;
use std::test::Fail;

const TEXT: &str = "\
cpus = 2
[[thread]]
queue = 0
mask = 3
steps = [\"yield 2\", \"block 3\", \"die 1\"]
";

const SEEDS: Seeds = Seeds { first: 7, many: 3 };

// Without contracts, so that a test's proof does not carry those of runs.
fn are_tallied(rt: &HostRuntime) -> Result<bool, Fail> {
    let alloc = rt.alloc();
    let policy = AgentPolicy::usual();
    let mut writer = BufWriter::new(alloc, Vec::new(alloc))?;
    let Tallied { ending, tally } = tally_flushed(
        rt,
        alloc,
        TEXT,
        &policy,
        SEEDS,
        None,
        &mut writer,
    );
    let text = writer.get_ref().as_slice();
    Ok(
        ending == Ending::Finished
            && tally.reported == 3
            && text == b"runs 3\nreported 3\n".as_slice(),
    )
}

#[test]
fn runs_by_seeds_are_tallied(rt: HostRuntime) -> Result<(), Fail> {
    assert!(rt; are_tallied(&rt)?);
    Ok(())
}
