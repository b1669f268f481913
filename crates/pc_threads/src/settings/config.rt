//! What is asked of a run: its CPUs, its threads with all their steps, and which agents restart.

ghost use Rattle.std.specs.Prelude.{pos, ◌≡◌, Some, None, IfOk, IfErr, map};
ghost use Rattle.pc_threads.specs.Settings.{IsSound, SoundSettingsHaveNoFault, asked, faults_of, first_fault, plan_of};

use crate::settings::faults::{ConfigFault, fault_on};
use crate::settings::plans::ThreadPlan;
use crate::settings::restarts::Restart;
use pc_load::count_of_cpus;
use std::marker::Model;

/// What is asked of a run, and can be done (own).
#[derive(Debug, Drop)]
pub struct Config {
    pub(crate) cpus: u8,
    pub(crate) threads: Vec<ThreadPlan>,
    pub(crate) restarts: Vec<Restart>,
}

impl Model for Config {
    ghost use Rattle.std.specs.Prelude.{pos, ◌≡◌, None};
    ghost use Rattle.pc_threads.specs.Settings.{Settings, asked, faults_of, first_fault};

    ghost Value = { Settings };

    ghost view = { λ c. asked (pos c.cpus) c.threads.items c.restarts.items };

    ghost invariant = { λ c. first_fault (faults_of (asked (pos c.cpus) c.threads.items c.restarts.items)) ≡ None };
}

impl Config {
    /// The settings of so many CPUs, these threads and these restarts. It takes no memory.
    pub fn new(
        cpus: i64,
        threads: Vec<ThreadPlan>,
        restarts: Vec<Restart>,
    ) -> Result<Config, ConfigFault>
        ensures ok { IfOk result (λ _. first_fault (faults_of (asked cpus threads.items restarts.items)) ≡ None) }
        ensures keeps { IfOk result (λ config. config ≡ asked cpus threads.items restarts.items) }
        ensures answers { IfErr result (λ fault.
            first_fault (faults_of (asked cpus threads.items restarts.items)) ≡ Some fault) }
    {
        let Some(cpus) = count_of_cpus(cpus) else {
            return Err(ConfigFault::BadCpus);
        };
        if let Some(fault) = fault_on(cpus, threads.as_slice(), restarts.as_slice()) {
            return Err(fault);
        }
        Ok(Config {
            cpus,
            threads,
            restarts,
        })
    }

    /// The settings are as they have to be. It does nothing.
    pub fn is_sound(&self)
        ensures { IsSound self.now }
    {
        sound_settings_have_no_fault();
        let _ = &self.cpus;
    }

    /// The count of CPUs, 1 to 64.
    pub fn cpus(&self) -> u8
        ensures { pos result ≡ self.now.cpus }
    {
        self.cpus
    }

    /// The threads in the order in which they are created.
    pub fn threads(&self) -> &[ThreadPlan]
        ensures { map plan_of result.now ≡ self.now.threads }
    {
        self.threads.as_slice()
    }

    /// The restarts.
    pub fn restarts(&self) -> &[Restart]
        ensures { result.now ≡ self.now.restarts }
    {
        self.restarts.as_slice()
    }
}

/// Settings have no fault exactly where each of their parts is as it has to be. It does nothing.
pub fn sound_settings_have_no_fault()
    ensures { SoundSettingsHaveNoFault }
{}
