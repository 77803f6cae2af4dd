//! Items by their groups.

ghost use Rattle.std.specs.Prelude.{◌≡◌, ◌<◌, ℕ, List, IfOk, length, slice_index, slice_set, vec_len};
ghost use Rattle.tigertopo_pictures.specs.Groups.{AreGroups, GoesThrough, is_one};

use std::alloc::{AllocError, Global};
use std::marker::Model;

/// Numbered items, each of one group or of none: the first item of each group, and beside each item the next one of its group.
/// Behind the last item of a group stands a number that no item has.
#[derive(Drop)]
pub struct Groups {
    first: Vec<usize>,
    next: Vec<usize>,
}

impl Model for Groups {
    ghost use Rattle.std.specs.Prelude.{◌<◌, ℕ, length, slice_index};
    ghost use Rattle.tigertopo_pictures.specs.Groups.{Linked};

    ghost Value = { Linked };

    ghost view = { λ g. record { first = g.first.items; next = g.next.items } };

    ghost invariant = { λ g. (n : ℕ) → n < length g.next.items → n < slice_index g.next.items n };
}

impl Groups {
    /// The groups of items, of which `groups` says in which each is. Groups are numbered from 0 below `count`.
    pub fn new(alloc: Global, groups: &[Option<u32>], count: u32) -> Result<Groups, AllocError>
        ensures { IfOk result (AreGroups count groups.now) }
    {
        let end = groups.len();
        let mut first = vec![in alloc; end; count as usize]?;
        let mut next = vec![in alloc; end; groups.len()]?;
        let mut item = groups.len();
        while item > 0 {
            item -= 1;
            match groups[item] {
                Some(group) if group < count => put_first(&mut first, &mut next, group, item),
                _ => {}
            }
        }
        Ok(Groups { first, next })
    }

    /// How many items there are.
    pub fn items(&self) -> usize
        ensures { result ≡ length self.now.next }
    {
        self.next.len()
    }

    /// The first item of a group.
    pub fn first(&self, group: u32) -> usize
        requires { group < length self.now.first }
        ensures { result ≡ slice_index self.now.first group }
    {
        self.first[group as usize]
    }

    /// Whether a group has one item and no other.
    pub fn has_one(&self, group: u32) -> bool
        requires { group < length self.now.first }
        ensures { (ns : List ℕ) → GoesThrough self.now.next (slice_index self.now.first group) ns → result ≡ is_one ns }
    {
        let first = self.first(group);
        if first < self.items() {
            self.next(first) >= self.items()
        } else {
            false
        }
    }

    /// The next item of the same group.
    pub fn next(&self, item: usize) -> usize
        requires { item < length self.now.next }
        ensures next { result ≡ slice_index self.now.next item }
        ensures later { item < result }
    {
        self.next[item]
    }
}

// Puts an item before those of its group.
fn put_first(first: &mut Vec<usize>, next: &mut Vec<usize>, group: u32, item: usize)
    requires group { group < vec_len first.old }
    requires item { item < vec_len next.old }
    ensures first { first.new.items ≡ slice_set first.old.items group item }
    ensures next { next.new.items ≡ slice_set next.old.items item (slice_index first.old.items group) }
{
    next[item] = first[group as usize];
    first[group as usize] = item;
}
