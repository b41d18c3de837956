//! The content of a list becomes that of another.

ghost use Rattle.std.specs.Prelude.{◌≡◌, ◌≤◌, length};

use arrayvec::ArrayVec;

/// The content becomes some items.
pub fn replace<T: Copy + Default + Drop, const N: usize>(items: &mut ArrayVec<T, N>, others: &[T])
    requires { length others.now ≤ N }
    ensures { items.new.items ≡ others.now }
{
    if items.is_empty() && others.is_empty() {
        return;
    }
    items.clear();
    match items.try_extend_from_slice(others) {
        Ok(()) => {}
        Err(_) => unreachable!(),
    }
}
