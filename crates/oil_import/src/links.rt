//! Linked resources: each becomes a resource of its own, and whoever lists one of those that are
//! linked lists all, so that their ceilings are one.

use crate::braces::inside;
use crate::items::{Item, Written, value_in};
use std::alloc::{AllocError, Global};

/// The property of a linked resource.
pub(crate) const LINKED: &str = "LINKED";

/// A linked resource, and the one that it is linked to.
#[derive(Clone, Copy)]
struct Link<'a> {
    name: &'a str,
    to: &'a str,
}

/// The links of a file.
#[derive(Drop)]
pub(crate) struct Links<'a> {
    list: Vec<Link<'a>>,
    /// Resources that are internal, which can't be linked.
    internal: Vec<&'a str>,
}

/// Whether a name is among some.
fn is_among(names: &[&str], name: &str) -> bool {
    for other in names {
        if *other == name {
            return true;
        }
    }
    false
}

impl<'a> Links<'a> {
    /// Those of the objects among items, which lie at that depth.
    pub(crate) fn new(alloc: Global, items: &[Item<'a>], depth: usize) -> Result<Self, AllocError> {
        let mut links = Links {
            list: Vec::new(alloc),
            internal: Vec::new(alloc),
        };
        for (number, item) in items.iter().enumerate() {
            if let ("RESOURCE", Written::Name(name)) = (item.word, item.written) {
                if item.depth == depth {
                    links.add(name, inside(items, number, depth), depth)?;
                }
            }
        }
        Ok(links)
    }

    fn add(&mut self, name: &'a str, items: &[Item<'a>], depth: usize) -> Result<(), AllocError> {
        let (own, of_block) = (depth.saturating_add(1), depth.saturating_add(2));
        match value_in(items, own, "RESOURCEPROPERTY") {
            Some("INTERNAL") => self.internal.push(name)?,
            Some(LINKED) => {
                if let Some(to) = value_in(items, of_block, "LINKEDRESOURCE") {
                    self.list.push(Link { name, to })?;
                }
            }
            _ => {}
        }
        Ok(())
    }

    fn next(&self, name: &str) -> Option<&'a str> {
        for link in &self.list {
            if link.name == name {
                return Some(link.to);
            }
        }
        None
    }

    /// The resource that one is linked to in the end. None of one that isn't linked, or that is
    /// linked to an internal one, or in a circle.
    pub(crate) fn root(&self, name: &str) -> Option<&'a str> {
        let mut root = self.next(name)?;
        for _link in &self.list {
            match self.next(root) {
                Some(next) => root = next,
                None if self.internal.contains(&root) => return None,
                None => return Some(root),
            }
        }
        None
    }

    /// Whether two resources are linked to one, or one to the other.
    pub(crate) fn are_linked(&self, name: &str, other: &str) -> bool {
        match (self.root(name), self.root(other)) {
            (Some(root), Some(of_other)) => root == of_other,
            (Some(root), None) => root == other,
            (None, Some(root)) => root == name,
            (None, None) => false,
        }
    }

    /// The resources that are linked to one of those listed, and aren't listed, each once.
    pub(crate) fn besides(
        &self,
        alloc: Global,
        listed: &[&str],
    ) -> Result<Vec<&'a str>, AllocError> {
        let mut found: Vec<&'a str> = Vec::new(alloc);
        for link in &self.list {
            for name in [link.name, link.to] {
                let is_wanted = listed.iter().any(|other| self.are_linked(name, *other));
                if is_wanted && !is_among(listed, name) && !found.contains(&name) {
                    found.push(name)?;
                }
            }
        }
        Ok(found)
    }
}
