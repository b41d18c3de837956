//! What the keys of machines tell, by the laws of keys of states.

ghost use Rattle.search_states.specs.Told.{MachineKeysTell};

use search_keys::{keys_tell, runs_are_in_range};

/// Two machines of one system whose keys are equal are alike in what is needed, where runs have
/// come to both and no more is needed than the system has. It does nothing: its clause is the law.
pub fn machine_keys_tell()
    ensures { MachineKeysTell }
{
    keys_tell();
    runs_are_in_range();
}
