// What an attempt to open a file found.

ghost use Rattle.std.specs.Prelude.{◌≡◌, ◌≢◌, IfErr, IfOk, IsErr, None, Some, Ok};
ghost use Rattle.std.specs.IoError.{error_kind};

use crate::shelves::Failed;
use std::io::{self, ErrorKind};

/// The file, or `None` where the system says that there is none. Any other error of the system is a fault.
pub(crate) fn found<F: Drop>(opened: io::Result<F>) -> Result<Option<F>, Failed>
    ensures open { IfOk opened (λ file. result ≡ Ok (Some file)) }
    ensures absent { IfErr opened (λ e. error_kind e ≡ ErrorKind.NotFound → result ≡ Ok None) }
    ensures failed { IfErr opened (λ e. error_kind e ≢ ErrorKind.NotFound → IsErr result) }
{
    match opened {
        Ok(file) => Ok(Some(file)),
        Err(e) if e.kind() == ErrorKind::NotFound => Ok(None),
        Err(_) => Err(Failed),
    }
}
