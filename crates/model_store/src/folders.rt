//! The folders of models.
ghost use Rattle.std.specs.Prelude.{◌≡◌, ◌++◌, IfOk, OnOk, IsTrue};
ghost use Rattle.std.specs.Option.{option_copied};
ghost use Rattle.aws_world.specs.Env.{value_of};
ghost use Rattle.texts.specs.Ascii.{is_ascii_text};
ghost use Rattle.model_store.specs.Folders.{folders_of, folders_named, folder_at_home, folders_in, part_of};

use aws_world::Env;
use std::alloc::Global;
use texts::{List, OutOfMemory, Text};

/// The folders of models, in the order in which they are searched: the parts of `AWS_DATA_PATH` between
/// its colons that aren't empty, then `.aws/models` below the home folder, where `HOME` is set.
pub fn model_folders(alloc: Global, env: &Env) -> Result<List<Text>, OutOfMemory>
    ensures { IfOk result (λ folders. folders ≡ folders_of env.now.pairs) }
{
    let mut folders = named_folders(alloc, variable(env, "AWS_DATA_PATH"))?;
    push_home(alloc, &mut folders, variable(env, "HOME"))?;
    Ok(folders)
}

/// The value of a variable of the environment.
#[tactic(auto, using(texts::proofs::Texts::chars_ascii))]
fn variable<'a>(env: &'a Env, name: &str) -> Option<&'a Text>
    requires { IsTrue (is_ascii_text name.now) }
    ensures { option_copied result ≡ value_of name.now env.now.pairs }
{
    env.get(name)
}

/// The folders that a variable names, where it is set.
fn named_folders(alloc: Global, named: Option<&Text>) -> Result<List<Text>, OutOfMemory>
    ensures { IfOk result (λ folders. folders ≡ folders_named (option_copied named.entry)) }
{
    match named {
        Some(folders) => parts(alloc, folders.as_str()),
        None => Ok(List::new(alloc)),
    }
}

/// The parts of a text between its colons that aren't empty.
fn parts(alloc: Global, text: &str) -> Result<List<Text>, OutOfMemory>
    ensures { IfOk result (λ made. made ≡ folders_in text.now) }
{
    let mut made = List::new(alloc);
    for part in text.split(':') {
        push_part(alloc, &mut made, part)?;
    }
    Ok(made)
}

/// Puts a part at the end, where it isn't empty.
fn push_part(alloc: Global, made: &mut List<Text>, part: &str) -> Result<(), OutOfMemory>
    ensures { OnOk result (made.new ≡ made.old ++ part_of part.now) }
{
    if part.is_empty() {
        return Ok(());
    }
    made.push(Text::from_str(alloc, part)?)
}

/// Puts the folder below the home folder at the end, where there is one.
fn push_home(
    alloc: Global,
    folders: &mut List<Text>,
    home: Option<&Text>,
) -> Result<(), OutOfMemory>
    ensures { OnOk result (folders.new ≡ folders.old ++ folder_at_home (option_copied home.entry)) }
{
    let Some(home) = home else {
        return Ok(());
    };
    let mut folder = home.copy(alloc)?;
    folder.push_ascii("/.aws/models")?;
    folders.push(folder)
}
