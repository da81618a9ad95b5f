//! The settings of a command: profiles from the two settings files, and settings by layers.
#![tactic(auto)]

mod fault;
mod heads;
mod laws;
mod layers;
mod line;
mod lookups;
mod named;
mod places;
mod profiles;
mod reading;
mod settings;
mod trimmed;
mod values;

pub use fault::{ConfigFault, FileKind};
pub use laws::{line_has_one_form, order_is_free, outcome_is_there, remarks_change_nothing};
pub use line::{Line, Place};
pub use places::{config_path, credentials_path};
pub use profiles::{MOST_FILE_BYTES, Profiles, Section};
pub use settings::{Keys, Output, Settings};
