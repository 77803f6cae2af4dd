//! Trees over the segments of a county's streets, packed and searched.

ghost use Rattle.std.specs.Prelude.{◌<◌, ◌^◌, length};
ghost use Rattle.tl_tree_index.specs.Preorder.{IsPreorder};

use crate::answer::Answer;
use crate::county::county;
use crate::failure::Failure;
use crate::steps::{now, say_taken};
use crate::streets::Streets;
use tl_tree::{BoxIndex, BoxTree, FlatTree, Items, Search, TreeNode};
use tl_tree_index::pack;

/// Makes the rectangles of the segments and sorts them by their west sides.
fn sort_rectangles(rt: &HostRuntime, streets: &Streets) -> Result<(), Failure> {
    let begun = now(rt);
    let Ok(mut rects) = streets.rectangles(rt.alloc()) else {
        return Err(Failure::Memory);
    };
    if rects.sort_by_key(|rect| rect.xmin).is_err() {
        return Err(Failure::Memory);
    }
    say_taken(rt, "rectangles made and sorted", begun);
    Ok(())
}

/// Looks for a conflict, and gives how many pairs were tested where there is none.
fn count_tests<X: BoxIndex>(rt: &HostRuntime, index: &X, streets: &Streets) -> Result<u64, Failure>
    requires { X.fits index.now (⟦<Streets as Items>⟧.count streets.now) (⟦<Streets as Items>⟧.bounds_of streets.now) }
{
    let begun = now(rt);
    let found = index.first_conflict(streets, u64::MAX);
    say_taken(rt, "conflicts searched", begun);
    match found {
        Search::Clear => Ok(streets.tests()),
        _ => Err(Failure::Tree),
    }
}

/// Takes nodes as a flat tree, checks it and searches with it.
fn search_flat(rt: &HostRuntime, streets: &Streets, nodes: &[TreeNode]) -> Result<u64, Failure>
    requires whole { IsPreorder nodes.now }
    requires numbered { length nodes.now < 2 ^ 32 }
{
    let begun = now(rt);
    let Ok(tree) = FlatTree::from_nodes(rt.alloc(), nodes) else {
        return Err(Failure::Memory);
    };
    say_taken(rt, "tree taken", begun);
    let begun = now(rt);
    let fault = tree.check(rt.alloc(), streets);
    say_taken(rt, "tree checked", begun);
    match fault {
        Ok(None) => count_tests(rt, &tree, streets),
        Ok(Some(_)) => Err(Failure::Tree),
        Err(_) => Err(Failure::Memory),
    }
}

/// Puts nodes into boxes, and searches with them.
fn search_boxes(rt: &HostRuntime, streets: &Streets, nodes: &[TreeNode]) -> Result<u64, Failure>
    requires whole { IsPreorder nodes.now }
    requires numbered { length nodes.now < 2 ^ 32 }
{
    let Ok(tree) = BoxTree::from_nodes(rt.alloc(), nodes) else {
        return Err(Failure::Memory);
    };
    match tree.check(rt.alloc(), streets) {
        Ok(None) => count_tests(rt, &tree, streets),
        Ok(Some(_)) => Err(Failure::Tree),
        Err(_) => Err(Failure::Memory),
    }
}

/// Searches with nodes as a flat tree, and in boxes.
fn search_nodes(rt: &HostRuntime, streets: &Streets, nodes: &[TreeNode]) -> Result<Answer, Failure>
    requires whole { IsPreorder nodes.now }
    requires numbered { length nodes.now < 2 ^ 32 }
{
    let flat = search_flat(rt, streets, nodes)?;
    let boxes = search_boxes(rt, streets, nodes)?;
    Ok(Answer::Searched {
        segments: streets.count(),
        flat,
        boxes,
    })
}

/// Packs the streets into a tree, and searches with it.
fn search_packed(rt: &HostRuntime, streets: &Streets) -> Result<Answer, Failure> {
    let begun = now(rt);
    let Ok(nodes) = pack(rt.alloc(), streets) else {
        return Err(Failure::Memory);
    };
    say_taken(rt, "tree packed", begun);
    search_nodes(rt, streets, &nodes)
}

/// Makes the streets of a county, at least so many segments, and trees over them.
pub fn search(rt: &HostRuntime, segments: u32) -> Result<Answer, Failure> {
    let Ok(streets) = county(rt.alloc(), segments) else {
        return Err(Failure::Memory);
    };
    match sort_rectangles(rt, &streets) {
        Ok(()) => search_packed(rt, &streets),
        Err(stop) => Err(stop),
    }
}
