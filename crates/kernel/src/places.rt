//! The places of a list that is filled again and again.

ghost use Rattle.std.specs.Prelude.{◌≡◌, ◌≤◌, length};

use arrayvec::ArrayVec;

/// Gives a list so many places, to be filled then. One that has as many stays as it is, which takes
/// no time.
pub fn give_places<T: Default + Drop, const CAP: usize>(list: &mut ArrayVec<T, CAP>, count: usize)
    requires { count ≤ CAP }
    ensures { length list.new.items ≡ count }
{
    if list.len() != count {
        list.clear();
        for _made in 0..count {
            list.push(T::default());
        }
    }
}
