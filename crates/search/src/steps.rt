//! What a search goes through.

ghost use Rattle.std.specs.Prelude.{◌≡◌, ℕ, IsTrue, IfOk, IfSome, IfNone, OnSome};
ghost use Rattle.search.specs.Rules.{Rules, AreKept, CoversBoth, IsNextChoice, NoMoreMay, Repeats, StaysNoted};

use crate::outcome::Progress;
use std::alloc::{AllocError, Global};

/// Nodes, and what comes of a node under a choice.
///
/// A node stands for many states: for one, with labels that are bounds of what is known of it, as
/// "has lasted for so many steps at least". One node *covers* another where it stands for all that
/// the other stands for. A choice is a number; where some things may happen in a step or not, it is
/// the set of those that do, and [`subset_from`](crate::subset_from) tells which set is next.
///
/// What is seen in a step is *noted* in `self`, as a maximum that only grows. What else `self` has
/// is its setting, by which the rules go, and never changes.
pub trait Steps: Drop {
    /// What is kept of a state, with its labels.
    type Node: Drop;

    /// All that the rules depend on.
    ghost Setting: { Type 0 };

    /// That of a value.
    ghost setting: { Self → Setting };

    /// Which nodes may be the first, which choices may be made in a node, which nodes stand for
    /// what comes of one, and which nodes cover others.
    ghost rules: { Setting → Rules Self.Node };

    /// What is seen where a choice is made in a node is noted.
    ghost is_noted: { Self → Self.Node → ℕ → Type 0 };

    /// The first node, or none where one of its labels can't be kept.
    fn first(&mut self, alloc: Global) -> Result<Option<Self::Node>, AllocError>
        ensures setting { setting self.new ≡ setting self.old }
        ensures notes { StaysNoted is_noted self.old self.new }
        ensures first { IfOk result (λ found. IfSome found (rules (setting self.old)).is_first) };

    /// The next choice from a number on that may be made in a node.
    fn choice_from(&self, node: &Self::Node, from: u64) -> Option<u64>
        ensures next { IfSome result (IsNextChoice (rules (setting self.now)) node.now from) }
        ensures none { IfNone result (NoMoreMay (rules (setting self.now)) node.now from) };

    /// The lower choice that a choice repeats, if one is found: what comes of the lower one comes of
    /// this one too, and where what is seen with the lower one is noted, so is now what is seen with
    /// this one. It needn't be tried then.
    fn repeats(
        &mut self,
        alloc: Global,
        node: &Self::Node,
        choice: u64,
    ) -> Result<Option<u64>, AllocError>
        requires { (rules (setting self.old)).may node.now choice }
        ensures setting { setting self.new ≡ setting self.old }
        ensures notes { StaysNoted is_noted self.old self.new }
        ensures repeats { IfOk result (λ found.
            IfSome found (Repeats (rules (setting self.old)) (is_noted self.new) node.now choice)) };

    /// What comes of a node under a choice, or nothing where a label of it can't be kept.
    fn next(
        &mut self,
        alloc: Global,
        from: &Self::Node,
        choice: u64,
    ) -> Result<Option<Self::Node>, AllocError>
        requires { (rules (setting self.old)).may from.now choice }
        ensures setting { setting self.new ≡ setting self.old }
        ensures notes { StaysNoted is_noted self.old self.new }
        ensures next { IfOk result (λ found.
            IfSome found ((rules (setting self.old)).is_next from.now choice)) }
        ensures noted { IfOk result (λ found. OnSome found (is_noted self.new from.now choice)) };

    /// Whether a node covers another. It may miss some that do, and then more nodes are kept.
    fn covers(&self, one: &Self::Node, other: &Self::Node) -> bool
        ensures { IsTrue result → (rules (setting self.now)).covers one.now other.now };

    /// Makes a node cover another too, or hands that back where none can be found that covers both.
    fn join(
        &self,
        alloc: Global,
        node: &mut Self::Node,
        other: Self::Node,
    ) -> Result<Option<Self::Node>, AllocError>
        ensures joined { IfOk result (λ back.
            IfNone back (CoversBoth (rules (setting self.now)) node.new node.old other)) }
        ensures apart { IfOk result (λ back.
            IfSome back (λ same. (same ≡ other) × (node.new ≡ node.old))) };

    /// Gives a node that is kept, and is still to be visited, what a visit needs and its clauses
    /// don't see. It is the node that the last [`first`](Steps::first) or [`next`](Steps::next)
    /// answered, or one with which that was joined.
    fn keep(&mut self, alloc: Global, node: &mut Self::Node) -> Result<(), AllocError>
        ensures setting { setting self.new ≡ setting self.old }
        ensures notes { StaysNoted is_noted self.old self.new }
        ensures same { node.new ≡ node.old };

    /// Takes a node back that isn't kept, as another one covers it: its room can be used again.
    fn take_back(&mut self, node: Self::Node)
        ensures setting { setting self.new ≡ setting self.old }
        ensures notes { StaysNoted is_noted self.old self.new };

    /// Takes that back from a node that was visited.
    fn settle(&mut self, node: &mut Self::Node)
        ensures setting { setting self.new ≡ setting self.old }
        ensures notes { StaysNoted is_noted self.old self.new }
        ensures same { node.new ≡ node.old };

    /// Is told after each visit how far the search has come.
    fn watch(&mut self, progress: Progress)
        ensures setting { setting self.new ≡ setting self.old }
        ensures notes { StaysNoted is_noted self.old self.new };

    /// A number that nodes share which cover each other or can be joined, as far as may be: a node
    /// is compared with those of its number alone. Nothing else depends on it.
    fn hash(&self, node: &Self::Node) -> u64;

    /// Where a node stands for something, so does each that covers it; and what covers it, covers
    /// what it covers. It does nothing: its clause is the law.
    fn kept(&self)
        ensures { AreKept (rules (setting self.now)) };
}
