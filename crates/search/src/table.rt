//! The nodes of a search.

ghost use Rattle.std.specs.Prelude.{◌≡◌, ℕ, ◌<◌, length};
ghost use Rattle.search.specs.Numbers.{AreBelow};

use crate::agenda::Agenda;
use crate::index::Index;
use crate::joining::{Joined, is_covered, join_among};
use crate::steps::Steps;
use std::alloc::{AllocError, Global};

/// What became of a node that was to be admitted.
#[derive(Clone, Copy)]
pub enum Admitted {
    /// A node covers it.
    Covered,
    /// The node of this number, which is open, covers it: it is that one, or was joined with it.
    At(usize),
    /// There are as many nodes as may be.
    Full,
}

/// Nodes by number, in the order in which they were found. Those are open that are still to be
/// visited.
#[derive(Drop)]
pub struct Table<N> {
    nodes: Vec<N>,
    agenda: Agenda,
    index: Index,
    ghost inside: { AreBelow (length nodes.items) agenda },
}

impl<N: Drop> Table<N> {
    ghost use Rattle.std.specs.Prelude.{◌≡◌, ◌≢◌, ℕ, ◌<◌, List, [], ◌∷◌, Any, Some, IsTrue, IfOk, IfSome, OnOk, ◌++◌, ◌≤◌, length, drop, slice_get};
    ghost use Rattle.search.specs.Numbers.{is_in, put_in};
    ghost use Rattle.search.specs.declared.table.Admitted.TheVariants.{Full};
    ghost use Rattle.search.specs.Admitted.{Admits, IsAt, OthersStay};
    ghost use Rattle.search.specs.Rules.{StaysNoted};

    /// No node.
    pub fn new(alloc: Global) -> Self
        ensures nodes { result.nodes.items ≡ [] }
        ensures open { result.agenda ≡ [] }
    {
        Table {
            nodes: Vec::new(alloc),
            agenda: Agenda::new(alloc),
            index: Index::new(alloc),
        }
    }

    /// How many nodes there are.
    pub fn len(&self) -> usize
        ensures { result ≡ length self.now.nodes.items }
    {
        self.nodes.len()
    }

    /// How many of them are open.
    pub fn open_len(&self) -> usize
        ensures { result ≡ length self.now.agenda }
    {
        self.agenda.len()
    }

    /// The node of a number.
    pub fn node(&self, number: usize) -> &N
        requires { number < length self.now.nodes.items }
        ensures { slice_get self.now.nodes.items number ≡ Some result.now }
    {
        &self.nodes[number]
    }

    /// Whether the node of a number is open.
    pub fn is_open(&self, number: usize) -> bool
        ensures { result ≡ is_in number self.now.agenda }
    {
        self.agenda.contains(number)
    }

    /// The number of the node that has been open for longest.
    pub fn first_open(&self) -> Option<usize>
        ensures first { result ≡ slice_get self.now.agenda 0 }
        ensures inside { IfSome result (λ number. number < length self.now.nodes.items) }
    {
        self.agenda.first()
    }

    /// Closes the node that has been open for longest.
    pub fn close_first(&mut self)
        ensures nodes { self.new.nodes.items ≡ self.old.nodes.items }
        ensures agenda { self.new.agenda ≡ drop 1 self.old.agenda }
    {
        self.agenda.take();
    }

    /// Whether some node is known to cover another, which has such a hash.
    pub fn covers<S: Steps<Node = N>>(&self, steps: &S, hash: u64, node: &N) -> bool
        ensures { IsTrue result → Any (λ x. (S.rules (S.setting steps.now)).covers x node.now)
            self.now.nodes.items }
    {
        let first = self.index.first(hash);
        is_covered(&self.nodes, &self.index, steps, first, node)
    }

    /// Sees to it that some node covers another, which has such a hash, unless there are as many
    /// nodes as a limit allows. One that can be joined with it is joined and opened; else it is
    /// added, and is open.
    pub fn admit<S: Steps<Node = N>>(
        &mut self,
        alloc: Global,
        steps: &S,
        hash: u64,
        node: N,
        limit: usize,
    ) -> Result<Admitted, AllocError>
        ensures admits { IfOk result (λ done. done ≢ Full → Admits (S.rules (S.setting steps.now))
            self.old.nodes.items self.old.agenda self.new.nodes.items self.new.agenda node) }
        ensures inside { IfOk result (λ done. IsAt (length self.new.nodes.items) done) }
        ensures others { IfOk result (OthersStay self.old.nodes.items self.new.nodes.items) }
        ensures full { IfOk result (λ done. done ≡ Full → limit ≤ length self.new.nodes.items) }
    {
        let first = self.index.first(hash);
        match join_among(alloc, &mut self.nodes, &self.index, steps, first, node)? {
            Joined::At(number) => {
                self.agenda.put(number)?;
                Ok(Admitted::At(number))
            }
            Joined::Apart(apart) => {
                let number = self.nodes.len();
                if number >= limit {
                    return Ok(Admitted::Full);
                }
                self.add(hash, apart)?;
                Ok(Admitted::At(number))
            }
        }
    }

    /// Gives the node of a number what a visit needs.
    pub fn keep<S: Steps<Node = N>>(
        &mut self,
        alloc: Global,
        steps: &mut S,
        number: usize,
    ) -> Result<(), AllocError>
        requires { number < length self.old.nodes.items }
        ensures setting { S.setting steps.new ≡ S.setting steps.old }
        ensures notes { StaysNoted S.is_noted steps.old steps.new }
        ensures nodes { self.new.nodes.items ≡ self.old.nodes.items }
        ensures agenda { self.new.agenda ≡ self.old.agenda }
    {
        steps.keep(alloc, &mut self.nodes[number])
    }

    /// Takes that back, if the node of a number is closed.
    pub fn settle<S: Steps<Node = N>>(&mut self, steps: &mut S, number: usize)
        ensures setting { S.setting steps.new ≡ S.setting steps.old }
        ensures notes { StaysNoted S.is_noted steps.old steps.new }
        ensures nodes { self.new.nodes.items ≡ self.old.nodes.items }
        ensures agenda { self.new.agenda ≡ self.old.agenda }
    {
        if number < self.nodes.len() && !self.is_open(number) {
            steps.settle(&mut self.nodes[number]);
        }
    }

    /// Adds a node, which is open.
    fn add(&mut self, hash: u64, node: N) -> Result<(), AllocError>
        ensures nodes { OnOk result (self.new.nodes.items ≡ self.old.nodes.items ++ node ∷ []) }
        ensures agenda { OnOk result
            (self.new.agenda ≡ put_in (length self.old.nodes.items) self.old.agenda) }
    {
        let number = self.nodes.len();
        self.index.add(hash)?;
        self.nodes.push(node)?;
        self.agenda.put(number)
    }
}
