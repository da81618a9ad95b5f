//! Each setting from the first layer that has a value: the line, the environment, the profile.
ghost use Rattle.std.specs.Prelude.{◌≡◌, None, IfOk, IsTrue};
ghost use Rattle.std.specs.Option.{option_copied};
ghost use Rattle.std.specs.Str.{chars};
ghost use Rattle.config_file.specs.declared.fault.ConfigFault.TheVariants as fault;
ghost use Rattle.config_file.specs.Settings.{named_profile, known_profile, output_of, both_keys, env_keys, file_keys, keys_for, attempts_of, flag_of, gateway_of, settings_for};
ghost use Rattle.texts.specs.Ascii.{is_ascii_text};
ghost use Rattle.config_file.specs.Faults.{is_memory};
ghost use Rattle.texts.specs.Calls.{Answers, Unless};

use crate::named::{option, set_value, value, variable};
use crate::values::{flag_in, number_up_to, output_named, target_in};
use crate::{ConfigFault, Keys, Output, Profiles, Section, Settings};
use aws_world::{Env, Target};
use std::alloc::Global;
use texts::{OutOfMemory, Text};

/// The profile where none is named.
const DEFAULT_PROFILE: &str = "default";

/// The attempts of a call, where no layer has another number.
const DEFAULT_ATTEMPTS: u16 = 3;

/// The most attempts of a call.
const MOST_ATTEMPTS: u16 = 1000;

/// The profile that counts. One that is named must be in one of the files.
pub fn profile<'a>(
    alloc: Global,
    line: &'a [(Text, Text)],
    env: &'a Env,
    profiles: &Profiles,
) -> Result<&'a str, ConfigFault>
    ensures { Answers is_memory (λ profile. chars profile.now) result
        (known_profile profiles.now (named_profile line.now env.now.pairs)) }
{
    let Some(name) = option(line, "profile").or(variable(env, "AWS_PROFILE")) else {
        return Ok(DEFAULT_PROFILE);
    };
    if profiles.has(name.as_str()) {
        Ok(name.as_str())
    } else {
        Err(ConfigFault::ProfileAbsent(name.copy(alloc)?))
    }
}

/// The settings for a profile.
pub fn for_profile(
    alloc: Global,
    line: &[(Text, Text)],
    env: &Env,
    profiles: &Profiles,
    profile: &str,
) -> Result<Settings, ConfigFault>
    ensures { Answers is_memory (λ settings. settings) result
        (settings_for line.now env.now.pairs profiles.now (chars profile.now)) }
{
    let output = output(alloc, line, env, profiles, profile)?;
    let attempts = attempts(alloc, env, profiles, profile)?;
    let fips = flag(
        alloc,
        "use_fips_endpoint",
        variable(env, "AWS_USE_FIPS_ENDPOINT"),
        value(profiles, profile, "use_fips_endpoint"),
    )?;
    let dual_stack = flag(
        alloc,
        "use_dualstack_endpoint",
        variable(env, "AWS_USE_DUALSTACK_ENDPOINT"),
        value(profiles, profile, "use_dualstack_endpoint"),
    )?;
    let gateway = gateway(alloc, env)?;
    let region = option(line, "region")
        .or(variable(env, "AWS_DEFAULT_REGION"))
        .or(value(profiles, profile, "region"));
    Ok(Settings {
        region: copied(alloc, region)?,
        output,
        keys: keys(alloc, line, env, profiles, profile)?,
        attempts,
        fips,
        dual_stack,
        endpoint_url: copied(alloc, option(line, "endpoint-url"))?,
        gateway,
        query: copied(alloc, option(line, "query"))?,
    })
}

fn output(
    alloc: Global,
    line: &[(Text, Text)],
    env: &Env,
    profiles: &Profiles,
    profile: &str,
) -> Result<Output, ConfigFault>
    ensures { Answers is_memory (λ output. output) result
        (output_of line.now env.now.pairs profiles.now (chars profile.now)) }
{
    let Some(name) = option(line, "output")
        .or(variable(env, "AWS_DEFAULT_OUTPUT"))
        .or(value(profiles, profile, "output"))
    else {
        return Ok(Output::Json);
    };
    match output_named(name) {
        Some(output) => Ok(output),
        None => Err(bad_setting(alloc, "output")),
    }
}

fn attempts(
    alloc: Global,
    env: &Env,
    profiles: &Profiles,
    profile: &str,
) -> Result<u32, ConfigFault>
    ensures { Answers is_memory (λ attempts. attempts) result
        (attempts_of env.now.pairs profiles.now (chars profile.now)) }
{
    let Some(number) = variable(env, "AWS_MAX_ATTEMPTS").or(value(
        profiles,
        profile,
        "max_attempts",
    )) else {
        return Ok(u32::from(DEFAULT_ATTEMPTS));
    };
    match number_up_to(MOST_ATTEMPTS, number.as_str()) {
        Some(attempts) => Ok(u32::from(attempts)),
        None => Err(bad_setting(alloc, "max_attempts")),
    }
}

/// A setting that is on or off, of which the environment comes before the profile.
fn flag(
    alloc: Global,
    setting: &str,
    variable: Option<&Text>,
    value: Option<&Text>,
) -> Result<bool, ConfigFault>
    requires { IsTrue (is_ascii_text setting.now) }
    ensures { Answers is_memory (λ flag. flag) result
        (flag_of setting.now (option_copied variable.entry) (option_copied value.entry)) }
{
    let Some(text) = variable.or(value) else {
        return Ok(false);
    };
    match flag_in(text.as_str()) {
        Some(flag) => Ok(flag),
        None => Err(bad_setting(alloc, setting)),
    }
}

fn gateway(alloc: Global, env: &Env) -> Result<Option<Target>, ConfigFault>
    ensures { Answers is_memory (λ gateway. gateway) result (gateway_of env.now.pairs) }
{
    let Some(address) = variable(env, "AWS_PLAIN_GATEWAY") else {
        return Ok(None);
    };
    match target_in(alloc, address.as_str())? {
        Some(target) => Ok(Some(target)),
        None => Err(bad_setting(alloc, "gateway")),
    }
}

/// The keys of the first layer that has both: the environment, unless the line names a profile; the
/// credentials file; the config file.
fn keys(
    alloc: Global,
    line: &[(Text, Text)],
    env: &Env,
    profiles: &Profiles,
    profile: &str,
) -> Result<Option<Keys>, OutOfMemory>
    ensures { IfOk result (λ keys. keys ≡ keys_for line.now env.now.pairs profiles.now (chars profile.now)) }
{
    if option(line, "profile").is_none() {
        if let Some(keys) = env_keys(alloc, env)? {
            return Ok(Some(keys));
        }
    }
    match file_keys(alloc, profiles.credentials.as_slice(), profile)? {
        Some(keys) => Ok(Some(keys)),
        None => file_keys(alloc, profiles.config.as_slice(), profile),
    }
}

fn env_keys(alloc: Global, env: &Env) -> Result<Option<Keys>, OutOfMemory>
    ensures { IfOk result (λ keys. keys ≡ env_keys None env.now.pairs) }
{
    both_keys(
        alloc,
        variable(env, "AWS_ACCESS_KEY_ID"),
        variable(env, "AWS_SECRET_ACCESS_KEY"),
        variable(env, "AWS_SESSION_TOKEN"),
    )
}

/// The keys that a file has for a profile, of which an empty one counts as none.
fn file_keys(
    alloc: Global,
    sections: &[Section],
    profile: &str,
) -> Result<Option<Keys>, OutOfMemory>
    ensures { IfOk result (λ keys. keys ≡ file_keys (chars profile.now) sections.now) }
{
    both_keys(
        alloc,
        set_value(sections, profile, "aws_access_key_id"),
        set_value(sections, profile, "aws_secret_access_key"),
        set_value(sections, profile, "aws_session_token"),
    )
}

/// The keys of a layer that has both.
fn both_keys(
    alloc: Global,
    access: Option<&Text>,
    secret: Option<&Text>,
    session: Option<&Text>,
) -> Result<Option<Keys>, OutOfMemory>
    ensures { IfOk result (λ keys. keys
        ≡ both_keys (option_copied access.entry) (option_copied secret.entry) (option_copied session.entry)) }
{
    let (Some(access), Some(secret)) = (access, secret) else {
        return Ok(None);
    };
    Ok(Some(Keys {
        access: access.copy(alloc)?,
        secret: secret.copy(alloc)?,
        session: copied(alloc, session)?,
    }))
}

fn copied(alloc: Global, text: Option<&Text>) -> Result<Option<Text>, OutOfMemory>
    ensures { IfOk result (λ made. made ≡ option_copied text.entry) }
{
    match text {
        Some(text) => Ok(Some(text.copy(alloc)?)),
        None => Ok(None),
    }
}

/// That the value of a setting is none of its values.
#[tactic(auto, using(texts::proofs::Texts::chars_ascii))]
fn bad_setting(alloc: Global, setting: &str) -> ConfigFault
    requires { IsTrue (is_ascii_text setting.now) }
    ensures { Unless (is_memory result) (result ≡ fault.BadSetting setting.now) }
{
    match Text::from_str(alloc, setting) {
        Ok(setting) => ConfigFault::BadSetting(setting),
        Err(_) => ConfigFault::OutOfMemory,
    }
}
