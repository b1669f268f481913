//! The lab over memory, with ample memory: it tells a table, a picture and a script.

use pc_trial::{LabEnding, LabOutput, Progress, try_load, try_variants};
use std::alloc::Global;
use std::io::{BufWriter, Stderr};
use std::test::Fail;

/// A CPU for which there is nothing to do: its agent sleeps.
const IDLE: &str = "\
# lab, variant plain: order levels, steals least, quantum 0, group 64, delay 0, cost 0, urgent false, keep false
enclave 1 1 1000000 65536 4294967295
# at 0
sleep 0 0
";

const LOAD: &str = "cpus = 1";

const VARIANTS: &str = "[[variant]]\nname = \"plain\"";

/// Whether the lab ends well, of the load's own variants or those of another text, and what it writes begins so.
fn tells(
    alloc: Global,
    with_variants: bool,
    wanted: &LabOutput,
    front: &'static str,
) -> Result<bool, Fail> {
    let mut load = LOAD.as_bytes();
    let mut others = VARIANTS.as_bytes();
    let mut nobody = Progress::<Stderr>::new(None);
    let mut trouble = Vec::new(alloc);
    let mut writer = BufWriter::new(alloc, Vec::new(alloc))?;
    let ended = if with_variants {
        try_variants(
            alloc,
            &mut load,
            &mut others,
            wanted,
            &mut nobody,
            &mut trouble,
            &mut writer,
        )
    } else {
        try_load(
            alloc,
            &mut load,
            wanted,
            &mut nobody,
            &mut trouble,
            &mut writer,
        )
    };
    let text = writer.get_ref().as_slice();
    Ok(ended == LabEnding::Finished && text.starts_with(front.as_bytes()))
}

#[test]
fn the_lab_tells_what_is_asked_for(rt: HostRuntime) -> Result<(), Fail> {
    let alloc = rt.alloc();
    let table = LabOutput::of(true, false, false, None);
    let picture = LabOutput::of(false, false, true, None);
    let script = LabOutput::of(true, true, true, Some(String::from_str(alloc, "plain")?));
    for with_variants in [false, true] {
        assert!(rt; tells(alloc, with_variants, &table, "variant ")?);
        assert!(rt; tells(alloc, with_variants, &picture, "<svg ")?);
        assert!(rt; tells(alloc, with_variants, &script, IDLE)?);
    }
    Ok(())
}
