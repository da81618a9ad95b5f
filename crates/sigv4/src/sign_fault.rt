ghost use Rattle.std.specs.Prelude.{◌≡◌, Some};
ghost use Rattle.sigv4.specs.declared.sign_fault.SignFault.TheVariants.{OutOfMemory as out_of_memory};
ghost use Rattle.sigv4.specs.FaultText.{fault_text};

use std::error::Error;
use std::fmt;
use texts::OutOfMemory;

/// Why a request was not signed.
#[derive(Clone, Copy, Debug, PartialEq, Eq)]
pub enum SignFault {
    /// The moment, in seconds since 1970, lies before 1970 or after the year 9999.
    BadClock(i64),
    OutOfMemory,
}

impl From<OutOfMemory> for SignFault {
    ghost from_gives = { λ _ fault. fault ≡ out_of_memory };

    fn from(_error: OutOfMemory) -> SignFault {
        SignFault::OutOfMemory
    }
}

impl fmt::Display for SignFault {
    ghost output = { λ fault. Some (fault_text fault) };

    fn fmt<W: fmt::Write>(&self, f: &mut fmt::Formatter<W>) -> fmt::Result {
        match self {
            SignFault::BadClock(now) => write!(f, "No date for the moment {now}"),
            SignFault::OutOfMemory => f.write_str("Out of memory"),
        }
    }
}

impl Error for SignFault {}
