//! Texts of loads are read, with ample memory. Their faults are those of `tests/lab_faults`.

use pc_calls::Leaving;
use pc_load::{Load, LoadStep, ThreadLoad, Variants};
use pc_settings::{
    Field, LoadTextFault, TableKind, UnknownKey, read_load, read_variants, write_unknown_keys,
};
use std::alloc::{AllocError, Global};

/// A thread with each key, and two variants. A step of 3 ticks goes with the next one.
const TEXT: &str = "cpus = 1\nuntil = 100\n\
    [[thread]]\nqueue = 0\nmask = 1\nstart = 5\nlevel = 7\nsleeps = [8]\n\
    steps = [\"preempt 3\", \"block 4\", \"yield 1\", \"die 2\"]\n\
    [[variant]]\nname = \"fifo\"\norder = \"fifo\"\nsteals = \"exact\"\nquantum = 1\ngroup = 2\ndelay = 3\n\
    cost = 4\nurgent = true\nkeep = true\n\
    [[variant]]\nname = \"plain\"\n";

/// Keys that are not known: of the text, of a thread, of a restart and of a variant. Others are known.
const UNKNOWN: &str = "cpus = 1\nuntil = 2\ncpos = 3\n\
    [[thread]]\n[[thread]]\nmosk = 1\nlevel = 2\n\"a\\tb\" = 3\n\
    [[restart]]\nturm = 1\n\
    [[variant]]\nquantom = 1000\ncost = 2\n";

/// What is said of them.
const WARNINGS: &str = "pc-sim: warning: cpos: no such key; the nearest is cpus\n\
    pc-sim: warning: thread 1: a\\x09b: no such key\n\
    pc-sim: warning: thread 1: mosk: no such key; the nearest is mask\n\
    pc-sim: warning: restart 0: turm: no such key; the nearest is turn\n\
    pc-sim: warning: variant 0: quantom: no such key; the nearest is quantum\n";

// Without contracts, as the functions below, so that a test's proof does not carry those of loads.
fn are_joined(alloc: Global, thread: &ThreadLoad) -> Result<bool, AllocError> {
    let steps = thread.joined_steps(alloc, false)?;
    Ok(steps.first() == Some(&STEP))
}

/// The first step that the lab runs.
const STEP: LoadStep = LoadStep {
    leaving: Leaving::Block,
    ticks: 7,
};

fn is_joined(alloc: Global, load: &Load) -> Result<bool, AllocError> {
    match load.threads().first() {
        Some(thread) => are_joined(alloc, thread),
        None => Ok(false),
    }
}

fn are_two(variants: &Variants) -> bool {
    variants.as_slice().len() == 2
}

fn is_read(alloc: Global) -> Result<bool, AllocError> {
    match read_load(alloc, TEXT) {
        Ok((load, variants)) => Ok(is_joined(alloc, &load)? && are_two(&variants)),
        Err(_) => Ok(false),
    }
}

fn are_read_alone(alloc: Global) -> bool {
    match read_variants(alloc, TEXT) {
        Ok(variants) => are_two(&variants),
        Err(_) => false,
    }
}

fn are_warned_of(alloc: Global) -> bool {
    let mut written = Vec::new(alloc);
    match write_unknown_keys(alloc, UNKNOWN, &mut written) {
        Ok(()) => written.as_slice() == WARNINGS.as_bytes(),
        Err(_) => false,
    }
}

fn is_first(unknown: &UnknownKey) -> bool {
    unknown.table == TableKind::Top && unknown.place == 0 && unknown.nearest == Some(Field::Cpus)
}

fn are_refused(alloc: Global) -> bool {
    match (read_load(alloc, UNKNOWN), read_variants(alloc, UNKNOWN)) {
        (Err(LoadTextFault::UnknownKey(load)), Err(LoadTextFault::UnknownKey(variants))) => {
            is_first(&load) && load == variants
        }
        _ => false,
    }
}

#[test]
fn unknown_keys_are_told(rt: HostRuntime) {
    assert!(rt; are_warned_of(rt.alloc()));
    assert!(rt; are_refused(rt.alloc()));
}

#[test]
fn loads_and_variants_are_read(rt: HostRuntime) {
    assert_eq!(rt; is_read(rt.alloc()), Ok(true));
    assert!(rt; are_read_alone(rt.alloc()));
}
