//! OIL: grammar and standard objects. A draft of a file, printed anew.

ghost use Rattle.std.specs.Prelude.{IfOk, IfSome};
ghost use Rattle.std.specs.String.{string_bytes};
ghost use Rattle.oil_printer.specs.Plain.{IsPlain};

use crate::print::print_oil;
use oil_reader::{OilFault, read_oil};
use std::alloc::{AllocError, Global};

/// Prints the file that a draft means. `None` where the reader refuses the draft. The only error is
/// want of memory.
pub fn reprint_oil(alloc: Global, draft: &[u8]) -> Result<Option<String>, AllocError>
    ensures { IfOk result (λ printed. IfSome printed (λ text. IsPlain (string_bytes text))) }
{
    match read_oil(alloc, draft) {
        Ok(file) => {
            let text = print_oil(alloc, &file)?;
            Ok(Some(text))
        }
        Err(OilFault::Memory) => Err(AllocError),
        Err(_) => Ok(None),
    }
}
