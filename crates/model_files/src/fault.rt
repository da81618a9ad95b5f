ghost use Rattle.std.specs.Prelude.{◌≡◌, IsTrue, IfOk, Some};
ghost use Rattle.std.specs.Str.{chars};
ghost use Rattle.texts.specs.Ascii.{is_ascii_text};
ghost use Rattle.texts.specs.Calls.{Answers};
ghost use Rattle.model_files.specs.declared.fault.ModelFault.TheVariants as fault;
ghost use Rattle.model_files.specs.Faults.{below, moved, inside, IsFault, is_memory};
ghost use Rattle.model_files.specs.FaultText.{place_text, place_bytes, fault_text};

use json_doc::{OutOfMemory, Text};
use std::alloc::{AllocError, AllocFailed, Global};
use std::error::Error;
use std::fmt;

/// Where in a file a fault is.
#[derive(Debug, Drop)]
pub enum Place {
    /// The whole document.
    Whole,
    /// The keys and positions that lead there, joined by dots. An empty key counts.
    At(Text),
}

impl Place {
    /// The keys and positions that lead there, joined by dots: nothing for the whole document. It
    /// takes no memory.
    pub fn text(self, alloc: Global) -> Text
        ensures { result ≡ place_text self }
    {
        match self {
            Place::Whole => Text::new(alloc),
            Place::At(text) => text,
        }
    }
}

impl fmt::Display for Place {
    ghost output = { λ place. Some (place_bytes place) };

    fn fmt<W: fmt::Write>(&self, f: &mut fmt::Formatter<W>) -> fmt::Result {
        match self {
            Place::Whole => f.write_str(""),
            Place::At(text) => write!(f, "{text}"),
        }
    }
}

/// The first fault of a model file, with its place.
#[derive(Debug, Drop)]
pub enum ModelFault {
    /// A needed key isn't there.
    Missing(Place),
    /// A shape is named that the model lacks.
    UnknownShape(Place),
    /// A value is of another kind, or none of the choices.
    WrongKind(Place),
    /// An earlier operation has the same command name.
    Collides(Place),
    OutOfMemory,
}

impl fmt::Display for ModelFault {
    ghost output = { λ fault. Some (fault_text fault) };

    fn fmt<W: fmt::Write>(&self, f: &mut fmt::Formatter<W>) -> fmt::Result {
        match self {
            ModelFault::Missing(place) => write!(f, "nothing at {place}"),
            ModelFault::UnknownShape(place) => write!(f, "no such shape at {place}"),
            ModelFault::WrongKind(place) => write!(f, "wrong value at {place}"),
            ModelFault::Collides(place) => write!(f, "second command of the name at {place}"),
            ModelFault::OutOfMemory => f.write_str("out of memory"),
        }
    }
}

impl Error for ModelFault {}

impl From<OutOfMemory> for ModelFault {
    ghost from_gives = { λ _ e. e ≡ fault.OutOfMemory };

    fn from(_error: OutOfMemory) -> ModelFault {
        ModelFault::OutOfMemory
    }
}

impl From<AllocError> for ModelFault {
    ghost from_gives = { λ _ e. e ≡ fault.OutOfMemory };

    fn from(_error: AllocError) -> ModelFault {
        ModelFault::OutOfMemory
    }
}

impl<T: Drop> From<AllocFailed<T>> for ModelFault {
    ghost from_gives = { λ _ e. e ≡ fault.OutOfMemory };

    fn from(_error: AllocFailed<T>) -> ModelFault {
        ModelFault::OutOfMemory
    }
}

/// What is read from what stands at the key, with its fault as one of the object that holds the
/// key.
pub fn inside<T>(alloc: Global, key: &str, read: Result<T, ModelFault>) -> Result<T, ModelFault>
    ensures value { Answers is_memory (λ x. x) result (inside (chars key.now) read) }
    ensures ascii { IsTrue (is_ascii_text key.now) → Answers is_memory (λ x. x) result (inside key.now read) }
{
    match read {
        Ok(value) => Ok(value),
        Err(fault) => Err(move_below(alloc, key, fault)),
    }
}

/// A fault of what stands at the key, as a fault of the object that holds the key.
#[tactic(auto, using(texts::proofs::Texts::chars_ascii))]
pub fn move_below(alloc: Global, key: &str, fault: ModelFault) -> ModelFault
    ensures value { IsFault result (moved (chars key.now) fault) }
    ensures ascii { IsTrue (is_ascii_text key.now) → IsFault result (moved key.now fault) }
{
    match fault {
        ModelFault::Missing(place) => match place_below(alloc, key, &place) {
            Ok(place) => ModelFault::Missing(place),
            Err(_) => ModelFault::OutOfMemory,
        },
        ModelFault::UnknownShape(place) => match place_below(alloc, key, &place) {
            Ok(place) => ModelFault::UnknownShape(place),
            Err(_) => ModelFault::OutOfMemory,
        },
        ModelFault::WrongKind(place) => match place_below(alloc, key, &place) {
            Ok(place) => ModelFault::WrongKind(place),
            Err(_) => ModelFault::OutOfMemory,
        },
        ModelFault::Collides(place) => match place_below(alloc, key, &place) {
            Ok(place) => ModelFault::Collides(place),
            Err(_) => ModelFault::OutOfMemory,
        },
        ModelFault::OutOfMemory => ModelFault::OutOfMemory,
    }
}

/// The place at this place below the key.
#[tactic(auto, using(texts::proofs::Texts::chars_ascii))]
fn place_below(alloc: Global, key: &str, place: &Place) -> Result<Place, OutOfMemory>
    ensures value { IfOk result (λ made. made ≡ below (chars key.now) place.now) }
    ensures ascii { IsTrue (is_ascii_text key.now) → IfOk result (λ made. made ≡ below key.now place.now) }
{
    let mut below = Text::from_str(alloc, key)?;
    let Place::At(text) = place else {
        return Ok(Place::At(below));
    };
    below.push_ascii(".")?;
    below.push_str(text.as_str())?;
    Ok(Place::At(below))
}
