ghost use Rattle.std.specs.Prelude.{◌≡◌};
ghost use Rattle.std.specs.Option.{option_copied};
ghost use Rattle.std.specs.Str.{chars};
ghost use Rattle.config_file.specs.Files.{profiles_of};
ghost use Rattle.config_file.specs.Lookups.{has_profile, value_at};
ghost use Rattle.config_file.specs.Faults.{is_memory};
ghost use Rattle.texts.specs.Calls.{Answers};

use crate::lookups::{is_in, value_in};
use crate::reading::sections;
use crate::{ConfigFault, FileKind};
use std::alloc::Global;
use texts::{List, Text};

/// The most bytes that a settings file may have.
pub const MOST_FILE_BYTES: usize = 1_048_576;

/// A section of a settings file. Those of one profile are read as one, and of a key that stands in
/// them more than once the last value counts.
#[derive(Debug, Drop)]
pub struct Section {
    /// The profile; None in a section that is ignored.
    pub profile: Option<Text>,
    /// The keys, in small letters, and their values.
    pub keys: List<(Text, Text)>,
}

/// The sections of the two settings files, in their order.
#[derive(Debug, Drop)]
pub struct Profiles {
    pub config: List<Section>,
    pub credentials: List<Section>,
}

impl Profiles {
    /// Reads the bytes of the two settings files, or answers the first faulty line; that of the config
    /// file comes first. A file that isn't there is read as an empty one.
    pub fn read(alloc: Global, config: &[u8], credentials: &[u8]) -> Result<Profiles, ConfigFault>
        ensures { Answers is_memory (λ profiles. profiles) result (profiles_of config.now credentials.now) }
    {
        let config = sections(alloc, FileKind::Config, config)?;
        let credentials = sections(alloc, FileKind::Credentials, credentials)?;
        Ok(Profiles {
            config,
            credentials,
        })
    }

    /// The value that a profile has at a key: that of the credentials file, else that of the config
    /// file.
    pub fn value(&self, profile: &str, key: &str) -> Option<&Text>
        ensures { option_copied result ≡ value_at (chars profile.now) (chars key.now) self.now }
    {
        value_in(self.credentials.as_slice(), profile, key).or(value_in(
            self.config.as_slice(),
            profile,
            key,
        ))
    }

    /// Whether a profile is in one of the files.
    pub fn has(&self, profile: &str) -> bool
        ensures { result ≡ has_profile (chars profile.now) self.now }
    {
        is_in(self.credentials.as_slice(), profile) || is_in(self.config.as_slice(), profile)
    }
}
