//! The colours of a map's polygons, of which neighbours have different ones.

ghost use Rattle.std.specs.Prelude.{◌≡◌, ◌≢◌, ◌⊎◌, ◌*◌, ◌<◌, ◌≤◌, ℕ, List, Option, Some, IfOk, OnOk, length, slice_index, vec_len};
ghost use Rattle.tigertopo_pictures.specs.Groups.{AreGroups, GoesThrough};
ghost use Rattle.tigertopo_pictures.specs.Svg.Colours.{AreColours, AreLefts, IsAdded, IsTaken, Reaches, right_polygon as right_polygon_of};

use crate::groups::Groups;
use crate::walks::polygon_of;
use std::alloc::{AllocError, Global};
use tl_map_county::{Map, reverse_dart};

/// The colours of a map's polygons, by numbers from 0: of each the least that no neighbour with a lower number has. The error is that
/// memory was refused.
pub fn colours_of(alloc: Global, map: &Map) -> Result<Vec<u32>, AllocError>
    ensures { IfOk result (λ colours. AreColours map.now.chains (length map.now.polygons) colours.items) }
{
    let lefts = left_polygons(alloc, map)?;
    let darts = Groups::new(alloc, lefts.as_slice(), map.polygons())?;
    let mut colours = Vec::new(alloc);
    let mut marks = Vec::new(alloc);
    for polygon in 0..map.polygons() {
        mark_taken(map, &darts, polygon, colours.as_slice(), &mut marks);
        add_colour(polygon, &mut colours, &mut marks)?;
    }
    Ok(colours)
}

// The polygon on the left of each dart.
fn left_polygons(alloc: Global, map: &Map) -> Result<Vec<Option<u32>>, AllocError>
    ensures { IfOk result (λ lefts. AreLefts map.now.chains lefts.items) }
{
    let mut lefts = Vec::with_capacity(alloc, map.darts() as usize)?;
    for dart in 0..map.darts() {
        lefts.push(polygon_of(map, map.dart_left(dart)))?;
    }
    Ok(lefts)
}

// The polygon on the right of a dart.
fn right_polygon(map: &Map, dart: u32) -> Option<u32>
    requires { dart < 2 * length map.now.chains }
    ensures { result ≡ right_polygon_of map.now.chains dart }
{
    // So the reverse of a dart is one of the map's.
    let _darts = map.darts();
    polygon_of(map, map.dart_left(reverse_dart(dart)))
}

// Marks with this polygon the colours of its neighbours that have one. `marks` says of each colour for which polygon it was marked last.
fn mark_taken(map: &Map, darts: &Groups, polygon: u32, colours: &[u32], marks: &mut Vec<u32>)
    requires polygon { polygon < length map.now.polygons }
    requires darts { (lefts : List (Option ℕ)) × AreLefts map.now.chains lefts × AreGroups (length map.now.polygons) lefts darts.now }
    requires coloured { length colours.now ≡ polygon }
    requires known { (q : ℕ) → q < length colours.now → slice_index colours.now q < vec_len marks.old }
    requires earlier { (c : ℕ) → c < vec_len marks.old → slice_index marks.old.items c < polygon }
    ensures len { vec_len marks.new ≡ vec_len marks.old }
    ensures marked { (c : ℕ) → IsTaken map.now.chains colours.now polygon c → slice_index marks.new.items c ≡ polygon }
    ensures taken { (c : ℕ) → c < vec_len marks.new → slice_index marks.new.items c ≡ polygon → IsTaken map.now.chains colours.now polygon c }
    ensures bound { (c : ℕ) → c < vec_len marks.new → slice_index marks.new.items c ≤ polygon }
{
    // So a dart is a number below 2^32.
    let _darts = map.darts();
    let mut at = darts.first(polygon);
    while at < darts.items() {
        mark(map, at as u32, polygon, colours, marks);
        at = darts.next(at);
    }
}

// Marks with this polygon the colour of the one on the right of a dart, if that has one.
fn mark(map: &Map, dart: u32, polygon: u32, colours: &[u32], marks: &mut Vec<u32>)
    requires dart { dart < 2 * length map.now.chains }
    requires known { (q : ℕ) → q < length colours.now → slice_index colours.now q < vec_len marks.old }
    ensures len { vec_len marks.new ≡ vec_len marks.old }
    ensures marked { (c : ℕ) → Reaches map.now.chains colours.now dart c → slice_index marks.new.items c ≡ polygon }
    ensures others { (c : ℕ) → (slice_index marks.new.items c ≡ slice_index marks.old.items c)
        ⊎ (Reaches map.now.chains colours.now dart c × (slice_index marks.new.items c ≡ polygon)) }
{
    if let Some(other) = right_polygon(map, dart) {
        if (other as usize) < colours.len() {
            let colour = colours[other as usize] as usize;
            marks[colour] = polygon;
        }
    }
}

// Gives a polygon the first colour that isn't marked with it.
fn add_colour(polygon: u32, colours: &mut Vec<u32>, marks: &mut Vec<u32>) -> Result<(), AllocError>
    requires { vec_len marks.old ≤ polygon }
    ensures { OnOk result (IsAdded polygon colours.old.items marks.old.items colours.new.items marks.new.items) }
{
    let colour = first_free(marks.as_slice(), polygon);
    if colour == marks.len() {
        marks.push(polygon)?;
    }
    colours.push(colour as u32)?;
    Ok(())
}

// The first colour that isn't marked with a polygon.
fn first_free(marks: &[u32], polygon: u32) -> usize
    ensures within { result ≤ length marks.now }
    ensures free { result < length marks.now → slice_index marks.now result ≢ polygon }
    ensures first { (c : ℕ) → c < result → slice_index marks.now c ≡ polygon }
{
    let mut colour = 0;
    while colour < marks.len() && marks[colour] == polygon {
        colour += 1;
    }
    colour
}
