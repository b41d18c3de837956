//! The places of a list that is filled again and again.

ghost use Rattle.std.specs.Prelude.{◌≡◌, OnOk, length};

use std::alloc::AllocError;

/// Gives a list as many places as another one has, to be filled then. One that has as many stays as
/// it is, which takes no time.
#[inline(always)]
pub(crate) fn give_places<T: Copy + Drop>(list: &mut Vec<T>, others: &[T]) -> Result<(), AllocError>
    ensures { OnOk result (length list.new.items ≡ length others.now) }
{
    if list.len() == others.len() {
        return Ok(());
    }
    make_places(list, others)
}

/// Makes a list anew, with as many places as another one has.
#[inline(never)]
fn make_places<T: Copy + Drop>(list: &mut Vec<T>, others: &[T]) -> Result<(), AllocError>
    ensures { OnOk result (length list.new.items ≡ length others.now) }
{
    list.clear();
    list.extend_from_slice(others)
}
