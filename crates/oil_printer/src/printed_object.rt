//! OIL: standard objects. What is printed as an object.

ghost use Rattle.std.specs.Prelude.{◌≡◌, ◌++◌, map, OnOk};
ghost use Rattle.std.specs.List.{flat_map};
ghost use Rattle.std.specs.String.{string_bytes};
ghost use Rattle.oil_reader.specs.Grammar.{Object};
ghost use Rattle.oil_printer.specs.Layout.{object_text};

use std::alloc::AllocError;

/// What is printed as an object of a file: the objects of one kind, and the name of an APPMODE.
pub trait PrintedObject {
    /// The object of the grammar.
    ghost object_of: { Self → Object };

    /// Appends its text.
    fn push(&self, text: &mut String) -> Result<(), AllocError>
        ensures { OnOk result
            (string_bytes text.new ≡ string_bytes text.old ++ object_text (object_of self.now)) };
}

/// Appends the texts of some objects, in their order.
pub fn push_all<T: PrintedObject>(text: &mut String, objects: &[T]) -> Result<(), AllocError>
    ensures { OnOk result
        (string_bytes text.new
        ≡ string_bytes text.old ++ flat_map object_text (map T.object_of objects.now)) }
{
    for object in objects {
        object.push(text)?;
    }
    Ok(())
}
