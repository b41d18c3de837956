//! OIL: names of objects. The names of one kind of object, with their numbers.

ghost use Rattle.std.specs.Prelude.{◌≡◌, ◌≤◌, ◌-◌, IsTrue, IfOk, length};
ghost use Rattle.osek_base.specs.Names.{is_named, are_distinct_names};
ghost use Rattle.system_gen.specs.Numbers.{number};

use crate::keyed_by_names::KeyedByNames;
use indexmap::IndexSet;
use osek_base::Name;
use std::alloc::{AllocError, Global};
use std::marker::Model;

/// The names of one kind of object, none twice. The place of a name is the number of its object.
#[derive(Drop)]
pub struct NameTable<'a> {
    names: IndexSet<&'a str, KeyedByNames>,
}

impl<'a> Model for NameTable<'a> {
    ghost use Rattle.std.specs.Prelude.{List, ℕ, map};
    ghost use Rattle.std.specs.Map.Iter.{deref};

    ghost Value = { List (List ℕ) };

    ghost view = { λ t. map deref t.names.keys };
}

impl<'a> NameTable<'a> {
    /// The table of these names, none of which stands twice.
    pub fn new(alloc: Global, names: &'a [Name]) -> Result<Self, AllocError>
        requires { IsTrue (are_distinct_names names.now) }
        ensures { IfOk result (λ table. table ≡ names.now) }
    {
        let hashers = KeyedByNames::new(names);
        let mut set = IndexSet::with_capacity_and_hasher(alloc, names.len(), hashers)?;
        for name in names {
            set.insert(name.as_str())?;
        }
        Ok(NameTable { names: set })
    }

    /// Whether there is an object of that name.
    pub fn has(&self, name: &Name) -> bool
        ensures { result ≡ is_named name.now self.now }
    {
        self.names.contains(name.as_str())
    }

    /// The number of the object of that name, 0 where there is none.
    pub fn number(&self, name: &Name) -> usize
        ensures value { result ≡ number self.now name.now }
        ensures low { result ≤ length self.now - 1 }
    {
        match self.names.get_index_of(name.as_str()) {
            Some(number) => number,
            None => 0,
        }
    }
}
