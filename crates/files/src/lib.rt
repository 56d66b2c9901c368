//! What a program is run on: files, of which some may be missing.
#![tactic(auto)]

ghost use Rattle.std.specs.Prelude.{◌≡◌, ◌≢◌, Ok, Err, Some, None, IfOk, IfErr};
ghost use Rattle.std.specs.IoError.{error_kind};
ghost use Rattle.std.specs.declared.io.ErrorKind.TheVariants.{NotFound};

use std::io::{self, ErrorKind};

/// What a read gave, or none where the file is missing; every other fault stays an error, by an arm of its own, as the arm before it has a test.
pub fn found<T>(read: io::Result<T>) -> io::Result<Option<T>>
    ensures given { IfOk read (λ v. result ≡ Ok (Some v)) }
    ensures missing { IfErr read (λ e. error_kind e ≡ NotFound → result ≡ Ok None) }
    ensures fault { IfErr read (λ e. error_kind e ≢ NotFound → result ≡ Err e) }
{
    match read {
        Ok(value) => Ok(Some(value)),
        Err(e) if e.kind() == ErrorKind::NotFound => Ok(None),
        Err(e) => Err(e),
    }
}
