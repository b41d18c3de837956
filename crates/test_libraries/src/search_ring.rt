//! A search that is worked out by hand: a walk round five places, and how long a round lasts.

use search::{Limits, Obstacle, Outcome, Progress, Steps, search};
use std::alloc::{AllocError, Global};
use std::test::Fail;

/// A place of the ring, and for how many steps the round has lasted, at most.
#[derive(Clone, Copy)]
struct Place {
    number: u8,
    age: u32,
}

/// A walk that goes two places on, or one. At the fifth place a new round begins.
#[derive(Drop)]
struct RingWalk {
    /// How many steps the longest round had.
    longest: u32,
    /// How many visits it was told of.
    told: u64,
}

impl Steps for RingWalk {
    ghost use Rattle.std.specs.Prelude.{◌≡◌, ◌+◌, ◌-◌, ◌%◌, ◌<◌, ◌≤◌, if◌then◌else◌, nat_lt};

    type Node = Place;

    ghost Setting = { Unit {0} };

    ghost setting = { λ _. tt };

    ghost rules = { λ _. record {
      is_first = λ x. x.number ≡ 0;
      may = λ x choice. choice < 2;
      is_next = λ x choice y.
          (y.number ≡ (x.number + (2 - choice)) % 5)
          × ((if nat_lt (x.number + (2 - choice)) 5 then x.age + 1 else 0) ≤ y.age);
      covers = λ x y. (x.number ≡ y.number) × (y.age ≤ x.age);
    } };

    ghost is_noted = { λ s x choice. 5 ≤ x.number + (2 - choice) → x.age + 1 ≤ s.longest };

    fn first(&mut self, _alloc: Global) -> Result<Option<Place>, AllocError> {
        Ok(Some(Place { number: 0, age: 0 }))
    }

    fn choice_from(&self, _node: &Place, from: u64) -> Option<u64> {
        if from < 2 { Some(from) } else { None }
    }

    fn repeats(
        &mut self,
        _alloc: Global,
        _node: &Place,
        _choice: u64,
    ) -> Result<Option<u64>, AllocError> {
        Ok(None)
    }

    fn next(
        &mut self,
        _alloc: Global,
        from: &Place,
        choice: u64,
    ) -> Result<Option<Place>, AllocError> {
        let Some(age) = from.age.checked_add(1) else {
            return Ok(None);
        };
        let reached = u32::from(from.number) + (2 - choice as u32);
        let number = (reached % 5) as u8;
        if reached < 5 {
            return Ok(Some(Place { number, age }));
        }
        self.longest = self.longest.max(age);
        Ok(Some(Place { number, age: 0 }))
    }

    fn covers(&self, one: &Place, other: &Place) -> bool {
        one.number == other.number && one.age >= other.age
    }

    fn join(
        &self,
        _alloc: Global,
        node: &mut Place,
        other: Place,
    ) -> Result<Option<Place>, AllocError> {
        if node.number != other.number {
            return Ok(Some(other));
        }
        node.age = node.age.max(other.age);
        Ok(None)
    }

    fn keep(&mut self, _alloc: Global, _node: &mut Place) -> Result<(), AllocError> {
        Ok(())
    }

    fn take_back(&mut self, _node: Place) {}

    fn settle(&mut self, _node: &mut Place) {}

    fn watch(&mut self, progress: Progress) {
        self.told = progress.visits;
    }

    fn hash(&self, node: &Place) -> u64 {
        u64::from(node.number)
    }

    fn kept(&self) {}
}

/// How the search ends within limits, the longest round, and how many visits the walk was told of.
fn searched(alloc: Global, nodes: usize, visits: u64) -> Result<(Outcome, u32, u64), AllocError> {
    let mut walk = RingWalk {
        longest: 0,
        told: 0,
    };
    let outcome = search(alloc, &mut walk, Limits { nodes, visits })?;
    Ok((outcome, walk.longest, walk.told))
}

fn progress(nodes: usize, open_nodes: usize, visits: u64, steps: u64, levels: u64) -> Progress {
    Progress {
        nodes,
        open_nodes,
        visits,
        steps,
        levels,
    }
}

/// The places are visited in the order 0, 2, 1, 4, 3, 2, 4, 3, 4: where one step leads to a place
/// that two lead to as well, its round has lasted longer, and it is visited again. Only steps of
/// one make the longest round. Levels are 0, then 2 and 1, then 4, 3 and 2, then 4 and 3, then 4.
#[test]
fn a_walk_round_five_places(rt: HostRuntime) -> Result<(), Fail> {
    let ends = [
        (5, 9, Outcome::Decided(progress(5, 0, 9, 18, 5)), 5, 9),
        (
            5,
            3,
            Outcome::Undecided(Obstacle::Visits, progress(5, 3, 3, 6, 2)),
            0,
            3,
        ),
        (
            4,
            9,
            Outcome::Undecided(Obstacle::Nodes, progress(4, 3, 1, 4, 1)),
            0,
            1,
        ),
    ];
    for (nodes, visits, outcome, longest, told) in ends {
        let end = searched(rt.alloc(), nodes, visits)?;
        assert!(rt; end == (outcome, longest, told));
    }
    Ok(())
}
