//! Where the settings files are looked for.
ghost use Rattle.std.specs.Prelude.{◌≡◌, IfOk, IsTrue};
ghost use Rattle.std.specs.Option.{option_copied};
ghost use Rattle.config_file.specs.Places.{at_home, path_from, config_path_in, credentials_path_in};
ghost use Rattle.texts.specs.Ascii.{is_ascii_text};

use crate::named::variable;
use aws_world::Env;
use std::alloc::Global;
use texts::{OutOfMemory, Text};

/// The path of the config file: `AWS_CONFIG_FILE`, else `.aws/config` below the home folder. None
/// where neither is set.
pub fn config_path(alloc: Global, env: &Env) -> Result<Option<Text>, OutOfMemory>
    ensures { IfOk result (λ path. path ≡ config_path_in env.now.pairs) }
{
    path_from(
        alloc,
        variable(env, "HOME"),
        variable(env, "AWS_CONFIG_FILE"),
        "/.aws/config",
    )
}

/// The path of the credentials file: `AWS_SHARED_CREDENTIALS_FILE`, else `.aws/credentials` below the
/// home folder. None where neither is set.
pub fn credentials_path(alloc: Global, env: &Env) -> Result<Option<Text>, OutOfMemory>
    ensures { IfOk result (λ path. path ≡ credentials_path_in env.now.pairs) }
{
    path_from(
        alloc,
        variable(env, "HOME"),
        variable(env, "AWS_SHARED_CREDENTIALS_FILE"),
        "/.aws/credentials",
    )
}

/// The path that is named, else that below the home folder.
fn path_from(
    alloc: Global,
    home: Option<&Text>,
    named: Option<&Text>,
    below: &str,
) -> Result<Option<Text>, OutOfMemory>
    requires { IsTrue (is_ascii_text below.now) }
    ensures { IfOk result (λ path. path ≡ path_from (option_copied home.entry) (option_copied named.entry) below.now) }
{
    if let Some(path) = named {
        return Ok(Some(at_home(alloc, home, path)?));
    }
    let Some(home) = home else {
        return Ok(None);
    };
    let mut path = home.copy(alloc)?;
    path.push_ascii(below)?;
    Ok(Some(path))
}

/// A path with `~/` in front as one below the home folder, where there is one.
fn at_home(alloc: Global, home: Option<&Text>, path: &Text) -> Result<Text, OutOfMemory>
    ensures { IfOk result (λ made. made ≡ at_home (option_copied home.entry) path.now) }
{
    let (Some(home), Some(rest)) = (home, path.as_str().strip_prefix("~/")) else {
        return path.copy(alloc);
    };
    let mut made = home.copy(alloc)?;
    made.push('/')?;
    made.push_str(rest)?;
    Ok(made)
}
