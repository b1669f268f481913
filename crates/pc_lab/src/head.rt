//! What stands before the events of a script.

ghost use Rattle.std.specs.Prelude.{◌≡◌, ◌++◌, codes, IfOk, OnOk};
ghost use Rattle.pc_load.specs.Variants.{variant_text};
ghost use Rattle.pc_lab.specs.Heads.{command_line, head_text, opening_text};
ghost use Rattle.pc_lab.specs.Limits.{limits_for};

use crate::fault::LabFault;
use crate::player::limits_of;
use pc_calls::Limits;
use pc_load::{Load, Variant};
use pc_policy::PolicyName;
use pc_script::Command;
use std::alloc::Global;
use std::io::Write;

/// Adds the comment that tells a variant.
fn write_comment(text: &mut Vec<u8>, variant: &Variant) -> Result<(), LabFault>
    ensures { OnOk result (text.new.items ≡ text.old.items ++ (variant_text variant.now ++ codes "\n")) }
{
    match write!(text, "{variant}\n") {
        Ok(()) => Ok(()),
        Err(_) => Err(LabFault::OutOfMemory),
    }
}

/// Adds a command's line.
fn write_command(text: &mut Vec<u8>, command: &Command) -> Result<(), LabFault>
    ensures { OnOk result (text.new.items ≡ text.old.items ++ command_line command.now) }
{
    match write!(text, "{command}\n") {
        Ok(()) => Ok(()),
        Err(_) => Err(LabFault::OutOfMemory),
    }
}

/// Adds the line that names the version.
fn write_version(text: &mut Vec<u8>) -> Result<(), LabFault>
    ensures { OnOk result (text.new.items ≡ text.old.items ++ codes "version 3\n") }
{
    match write!(text, "version 3\n") {
        Ok(()) => Ok(()),
        Err(_) => Err(LabFault::OutOfMemory),
    }
}

/// Adds the commands by which a session opens the world.
fn write_opening(text: &mut Vec<u8>, limits: Limits, policy: &PolicyName) -> Result<(), LabFault>
    ensures { OnOk result (text.new.items ≡ text.old.items ++ opening_text limits policy.now) }
{
    let enclave = Command::Enclave(limits);
    if (*policy).is_usual() {
        return write_command(text, &enclave);
    }
    let policy = Command::Policy(*policy);
    write_version(text)?;
    write_command(text, &enclave)?;
    write_command(text, &policy)
}

/// What stands before the events of the script of a run: a comment that tells the variant, and the commands by which a
/// session opens the world that is played on (own).
///
/// # Errors
/// [`LabFault::OutOfMemory`].
pub fn head_of(alloc: Global, load: &Load, variant: &Variant) -> Result<Vec<u8>, LabFault>
    ensures { IfOk result (λ text. text.items ≡ head_text (limits_for load.now) variant.now) }
{
    let mut text = Vec::new(alloc);
    write_comment(&mut text, variant)?;
    write_opening(&mut text, limits_of(load), &variant.policy)?;
    Ok(text)
}
