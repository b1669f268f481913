//! What answers a script's commands.

ghost use Rattle.std.specs.Prelude.{◌≡◌, List, [], ◌∷◌, ◌++◌, OnOk, OnErr};
ghost use Rattle.pc_calls.specs.declared.limits.Profile.{Profile};
ghost use Rattle.pc_script.specs.declared.command.Command.{Command};
ghost use Rattle.pc_script.specs.declared.response.Response.{Response};

use crate::command::Command;
use crate::response::Response;
use pc_calls::Profile;
use std::alloc::{AllocError, Global};

/// What answers commands, one after another, as a script of some profile asks for them.
///
/// `IsRun` is what a list of commands and the list of their responses have to do with each other. `StandsAfter`
/// says that a machine was started, took these commands and gave these responses. `RanOut` says that one which did so
/// found no memory for the answer to the command after them.
pub trait Machine: Drop {
    ghost IsRun: { Profile → List Command → List Response → Type 0 };

    ghost StandsAfter: { Profile → Self → List Command → List Response → Type 0 };

    ghost RanOut: { Profile → List Command → List Response → Command → Type 0 };

    /// A machine that took no command yet.
    fn start(alloc: Global, profile: Profile) -> Self
    where
        Self: Sized,
        ensures { StandsAfter profile result [] [] };

    /// Takes a command, and puts what it is answered in the place of the response, whatever that was. So neither is
    /// copied on its way. After an error the response is what it was, and the machine isn't used again.
    fn answer(&mut self, command: &Command, response: &mut Response) -> Result<(), AllocError>
        ensures ok { OnOk result ((profile : Profile) (commands : List Command) (responses : List Response)
            → StandsAfter profile self.old commands responses
            → StandsAfter profile self.new (commands ++ command.now ∷ []) (responses ++ response.new ∷ [])) }
        ensures no_memory { OnErr result ((profile : Profile) (commands : List Command) (responses : List Response)
            → StandsAfter profile self.old commands responses → RanOut profile commands responses command.now) }
        ensures kept { OnErr result (response.new ≡ response.old) };

    ghost is_run_after: { (profile : Profile) (machine : Self) (commands : List Command) (responses : List Response)
        → StandsAfter profile machine commands responses → IsRun profile commands responses };
}
