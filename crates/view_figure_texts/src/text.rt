//! The text of figures, in each of its forms.

ghost use Rattle.std.specs.Prelude.{◌≡◌, IfOk};
ghost use Rattle.view_figure_texts.specs.Csv.{csv_text as told_values};

use crate::csv_text::csv_text;
use crate::form::Form;
use crate::json_text::json_text;
use crate::table::table_text;
use osek_base::System;
use std::alloc::{AllocError, Global};
use view_figures::Figures;

/// The text of figures in a form, with the names of the system that they are of.
pub fn figures_text(
    alloc: Global,
    system: &System,
    figures: &Figures,
    form: Form,
) -> Result<Vec<u8>, AllocError>
    ensures csv { form ≡ Form.Csv
        → IfOk result (λ text. text.items ≡ told_values system.now figures.now) }
{
    match form {
        Form::Table => table_text(alloc, system, figures),
        Form::Csv => csv_text(alloc, system, figures),
        Form::Json => json_text(alloc, system, figures),
    }
}
