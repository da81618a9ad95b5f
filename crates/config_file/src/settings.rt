ghost use Rattle.std.specs.Prelude.{◌≡◌};
ghost use Rattle.config_file.specs.Settings.{settings_of};
ghost use Rattle.config_file.specs.Faults.{is_memory};
ghost use Rattle.texts.specs.Calls.{Answers};

use crate::layers::{for_profile, profile};
use crate::{ConfigFault, Profiles};
use aws_world::{Env, Target};
use std::alloc::Global;
use texts::{List, Text};

/// How a result is printed.
#[derive(Clone, Copy, Debug, PartialEq, Eq)]
pub enum Output {
    Json,
    Text,
    Table,
}

/// What requests are signed with.
#[derive(Debug, Drop)]
pub struct Keys {
    pub access: Text,
    pub secret: Text,
    pub session: Option<Text>,
}

/// The settings of a command.
#[derive(Debug, Drop)]
pub struct Settings {
    pub region: Option<Text>,
    pub output: Output,
    pub keys: Option<Keys>,
    /// The most attempts of a call.
    pub attempts: u32,
    pub fips: bool,
    pub dual_stack: bool,
    pub endpoint_url: Option<Text>,
    /// Where requests for an https endpoint go, without TLS.
    pub gateway: Option<Target>,
    /// The expression that picks what is printed.
    pub query: Option<Text>,
}

impl Settings {
    /// The settings of a line's options, the environment and the profiles. The first fault is answered:
    /// that of the profile, then that of a value in the order of the fields.
    pub fn resolve(
        alloc: Global,
        pairs: &List<(Text, Text)>,
        env: &Env,
        profiles: &Profiles,
    ) -> Result<Settings, ConfigFault>
        ensures { Answers is_memory (λ settings. settings) result
            (settings_of pairs.now env.now.pairs profiles.now) }
    {
        let line = pairs.as_slice();
        let profile = profile(alloc, line, env, profiles)?;
        for_profile(alloc, line, env, profiles, profile)
    }
}
