//! What is written of a system by itself.

use crate::explaining::{asm, oil};
use crate::inputs::{Texts, system_of};
use crate::verdict::Verdict;
use cli_requests::Request;
use explain_systems::show;
use std::alloc::Global;
use std::io::Write;
use system_gen::class_of;
use tracer::RunFault;

/// Writes the listing of a system. The verdict has what is surely a mistake.
pub fn write_shown<O: Write>(
    alloc: Global,
    request: &Request<'_>,
    texts: &Texts,
    out: &mut O,
) -> Result<Verdict<'static>, RunFault> {
    let system = system_of(alloc, texts)?;
    let (oil, asm) = (oil(request, texts), asm(request, texts));
    let shown = show(
        alloc,
        &system,
        class_of(&system),
        oil,
        asm,
        request.is_explained,
    )?;
    out.write_all(&shown.listing)?;
    Ok(Verdict::Warned(shown.warnings))
}
