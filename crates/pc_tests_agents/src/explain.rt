//! Scripts are explained, with ample memory. What is said of each line, cases of `tests/cases` have.

use pc_explain::{explain_script, explain_session};
use pc_script::{Conversed, Helper, Outcome, ScriptFault};
use std::alloc::Global;
use std::io::{self, BufWriter};

/// Nobody is helped.
#[derive(Drop)]
struct Nobody;

impl Helper for Nobody {
    fn help(&mut self) {}

    fn first_fault(&mut self, _number: u64, _line: &[u8]) {}
}

const SCRIPT: &[u8] = b"sleep 0 0\n";

const WANTED: &[u8] = b"# 1: sleep 0 0
refused NoEnclave
#    Refused: no enclave was accepted yet; its line comes before every other command.
";

// Without contracts, as the functions below, so that a test's proof does not carry those of scripts.
fn explained(alloc: Global, script: &[u8], written: &mut Vec<u8>) -> Result<Outcome, ScriptFault> {
    let mut reader = script;
    explain_script(alloc, &mut reader, written)
}

fn talked(alloc: Global, writer: &mut BufWriter<Vec<u8>>) -> Result<Conversed, ScriptFault> {
    let mut reader = SCRIPT;
    explain_session(alloc, &mut reader, &mut Nobody, writer)
}

fn is_explained(alloc: Global) -> bool {
    let mut written: Vec<u8> = Vec::new(alloc);
    explained(alloc, SCRIPT, &mut written) == Ok(Outcome::Finished) && written.as_slice() == WANTED
}

fn is_explained_in_a_session(alloc: Global) -> io::Result<bool> {
    let mut writer = BufWriter::new(alloc, Vec::new(alloc))?;
    let wanted = Conversed {
        had_fault: false,
        is_whole: true,
    };
    let ended = talked(alloc, &mut writer);
    Ok(ended == Ok(wanted) && writer.get_ref().as_slice() == WANTED)
}

#[test]
fn a_script_is_explained(rt: HostRuntime) {
    assert!(rt; is_explained(rt.alloc()));
    assert!(rt; matches!(is_explained_in_a_session(rt.alloc()), Ok(true)));
}
