//! Trees whose nodes own their children.
ghost use Rattle.std.specs.Prelude.{◌≡◌, IfOk};
ghost use Rattle.tl_tree.specs.Keeping.Branches.{forest_of};

use crate::walk::{Below, Tree, Trees};
use std::alloc::{AllocError, Global};
use tl_geom::Rect;

/// Some trees in order, each with the others behind it in a box, and an inner node's children in another.
#[derive(Drop)]
pub enum Branch {
    End,
    Leaf(Rect, Vec<u32>, Box<Branch>),
    Inner(Rect, Box<Branch>, Box<Branch>),
}

impl Trees for &Branch {
    ghost forest = { λ branch. forest_of branch.now };

    fn split_first(&self) -> Option<(Tree<'_, Self>, Self)> {
        match *self {
            Branch::End => None,
            Branch::Leaf(rect, items, others) => {
                let below = Below::Items(items.as_slice());
                Some((Tree { rect: *rect, below }, others))
            }
            Branch::Inner(rect, children, others) => {
                let below = Below::Children(&**children);
                Some((Tree { rect: *rect, below }, others))
            }
        }
    }

    fn are_few(&self) -> bool {
        matches!(*self, Branch::End)
    }
}

/// The same trees, each node with its children in boxes.
#[cycle(copy)]
pub fn copy_trees<W: Trees>(alloc: Global, trees: &W) -> Result<Branch, AllocError>
    ensures { IfOk result (λ branch. forest_of branch ≡ W.forest trees.now) }
{
    let Some((tree, rest)) = trees.split_first() else {
        return Ok(Branch::End);
    };
    let others = match copy_boxed(alloc, &rest) {
        Ok(others) => others,
        Err(refused) => return Err(refused),
    };
    match &tree.below {
        Below::Items(some) => match Vec::from_slice(alloc, some) {
            Ok(items) => Ok(Branch::Leaf(tree.rect, items, others)),
            Err(refused) => Err(refused),
        },
        Below::Children(children) => match copy_boxed(alloc, children) {
            Ok(children) => Ok(Branch::Inner(tree.rect, children, others)),
            Err(refused) => Err(refused),
        },
    }
}

/// The same trees in a box.
#[cycle(copy)]
fn copy_boxed<W: Trees>(alloc: Global, trees: &W) -> Result<Box<Branch>, AllocError>
    ensures { IfOk result (λ branch. forest_of branch.value ≡ W.forest trees.now) }
{
    match copy_trees(alloc, trees) {
        Ok(branch) => Ok(Box::new(alloc, branch)?),
        Err(refused) => Err(refused),
    }
}
