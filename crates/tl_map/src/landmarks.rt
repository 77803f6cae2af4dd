//! Landmarks and the polygons that are linked to them.

ghost use Rattle.std.specs.Prelude.{◌≡◌, ◌<◌, ◌≤◌, ◌^◌, ◌++◌, [], ℕ, List, IfOk, IfErr, OnOk, MatchResult, All, length};
ghost use Rattle.std.specs.Prelude.{map, nat_eq, Any, MatchOption};
ghost use Rattle.tl_map.specs.Keeping.Unbuilt.{StopsFor};
ghost use Rattle.tl_map_rules.specs.declared.entry.LandmarkEntry.{LandmarkEntry};
ghost use Rattle.tl_record_key.specs.declared.key.PolyKey.{PolyKey};
ghost use Rattle.tl_map.specs.Keeping.Index.{Indexes};
ghost use Rattle.tl_map.specs.Keeping.Landmarks.{ListsLandmarks, IsLink, IndexesLands, IsLinkUnknown};
ghost use Rattle.tl_map.specs.Keeping.Landmarks.{AreAllLinks, AreByLandmark, AreRows};
ghost use Rattle.tl_map.specs.Keeping.Landmarks.{AreLinkRows, AreLinked, AreUnlinked};
ghost use Rattle.tl_map_rules.specs.MapOf.{firsts, same_key};
ghost use Rattle.indexmap.specs.IndexMap.{IsUnique, keys};
ghost use Rattle.tl_map_county.specs.declared.limits.TheConstants.{LANDMARK_LIMIT};
ghost use Rattle.tl_map.specs.declared.landmarks.Link.{Link};
ghost use Rattle.std.specs.List.Sorted.{IsNonDecreasingBy};

use crate::unbuilt::Unbuilt;
use indexmap::IndexMap;
use std::alloc::{AllocError, Global};
use std::hash::RandomState;
use tl_geom::Point;
use tl_map_county::{Keyed, LANDMARK_LIMIT, LandmarkRow, LinkedLandmarks, run_end};
use tl_map_rules::{LandmarkEntry, LinkEntry};
use tl_record::PolyKey;

/// The first record of each LAND, by their order: the LAND with the record's point.
pub fn first_landmarks(
    alloc: Global,
    hasher: RandomState,
    entries: &[LandmarkEntry],
) -> Result<IndexMap<u64, Option<Point>, RandomState>, Unbuilt>
    ensures ok { IfOk result (ListsLandmarks entries.now) }
    ensures stops { IfErr result (StopsFor (LANDMARK_LIMIT < length (firsts (λ (e : LandmarkEntry). e.land) entries.now))) }
{
    let mut firsts = IndexMap::with_hasher(alloc, hasher);
    for entry in entries {
        if !firsts.contains_key(&entry.land) {
            if firsts.len() == LANDMARK_LIMIT as usize {
                return Err(Unbuilt::Faulty);
            }
            firsts.insert(entry.land, entry.point)?;
        }
    }
    Ok(firsts)
}

/// The LANDs of an index with their points, in its order.
fn points_of(
    alloc: Global,
    firsts: &IndexMap<u64, Option<Point>, RandomState>,
) -> Result<Vec<(u64, Option<Point>)>, AllocError>
    ensures { IfOk result (λ points. points.items ≡ firsts.now.entries) }
{
    let count = firsts.len();
    let mut points = Vec::with_capacity(alloc, count)?;
    for number in 0..count {
        match firsts.get_index(number) {
            Some((land, point)) => points.push((*land, *point))?,
            None => unreachable!(),
        }
    }
    Ok(points)
}

/// A polygon that is linked to a landmark, both by number.
#[derive(Clone, Copy)]
pub struct Link {
    pub landmark: u32,
    pub polygon: u32,
}

impl Keyed for Link {
    ghost key_of = { λ link. link.landmark };

    /// The number of its landmark.
    fn key(&self) -> u64 {
        u64::from(self.landmark)
    }
}

/// The numbers of a link's landmark and polygon, if both are there.
fn resolve_link(
    polygons: &IndexMap<PolyKey, Point, RandomState>,
    landmarks: &IndexMap<u64, Option<Point>, RandomState>,
    link: LinkEntry,
) -> Option<Link>
    requires polygons { length polygons.now.entries < 2 ^ 32 }
    requires landmarks { length landmarks.now.entries < 2 ^ 32 }
    ensures { (ks : List PolyKey) (lands : List ℕ) → Indexes ks polygons.now → IndexesLands lands landmarks.now →
        MatchOption result (IsLinkUnknown ks lands link) (IsLink ks lands link) }
{
    let landmark = landmarks.get_index_of(&link.land)?;
    let polygon = polygons.get_index_of(&link.key)?;
    Some(Link {
        landmark: landmark as u32,
        polygon: polygon as u32,
    })
}

/// The links by the numbers of landmarks and polygons, in file order, if all of these are there.
fn resolve_links(
    alloc: Global,
    polygons: &IndexMap<PolyKey, Point, RandomState>,
    landmarks: &IndexMap<u64, Option<Point>, RandomState>,
    links: &[LinkEntry],
) -> Result<Vec<Link>, Unbuilt>
    requires polygons { length polygons.now.entries < 2 ^ 32 }
    requires landmarks { length landmarks.now.entries < 2 ^ 32 }
    ensures ok { (ks : List PolyKey) (lands : List ℕ) → Indexes ks polygons.now → IndexesLands lands landmarks.now →
        IfOk result (λ made. AreAllLinks ks lands links.now made.items) }
    ensures stops { (ks : List PolyKey) (lands : List ℕ) → Indexes ks polygons.now →
        IndexesLands lands landmarks.now → IfErr result (StopsFor (Any (IsLinkUnknown ks lands) links.now)) }
{
    let mut made = Vec::with_capacity(alloc, links.len())?;
    for link in links {
        let Some(resolved) = resolve_link(polygons, landmarks, *link) else {
            return Err(Unbuilt::Faulty);
        };
        made.push(resolved)?;
    }
    Ok(made)
}

/// Sorts links by landmark, where those of one landmark keep their order.
fn sort_links(links: &mut Vec<Link>) -> Result<(), AllocError>
    ensures { OnOk result (AreByLandmark links.old.items links.new.items) }
{
    links.sort_by_key(|link| link.landmark)?;
    Ok(())
}

/// Appends each polygon of the links where it stands first. A polygon that is appended gets the mark.
fn append_once(
    linked: &mut Vec<u32>,
    marks: &mut [u32],
    mark: u32,
    run: &[Link],
) -> Result<(), AllocError>
    requires inside { All (λ m. m.polygon < length marks.old) run.now }
    requires fresh { All (λ n. n < mark) marks.old }
    ensures linked { OnOk result (linked.new.items ≡
        linked.old.items ++ firsts (λ p. p) (map (λ m. m.polygon) run.now)) }
    ensures marks { OnOk result (All (λ n. n ≤ mark) marks.new) }
    ensures length { OnOk result (length marks.new ≡ length marks.old) }
{
    for link in run {
        let place = link.polygon as usize;
        if marks[place] != mark {
            marks[place] = mark;
            linked.push(link.polygon)?;
        }
    }
    Ok(())
}

/// For each of so many landmarks the polygons of its links, which are sorted by landmark, in one list.
fn list_linked(
    alloc: Global,
    landmarks: u32,
    links: &[Link],
    polygons: usize,
) -> Result<(Vec<LandmarkRow>, Vec<u32>), AllocError>
    requires few { landmarks ≤ LANDMARK_LIMIT }
    requires rising { IsNonDecreasingBy (λ (m : Link). m.landmark) links.now }
    requires inside { All (λ m. m.polygon < polygons) links.now }
    ensures { IfOk result (λ l. AreRows links.now landmarks l.1.items l.0.items) }
{
    let mut marks = vec![in alloc; 0u32; polygons]?;
    let mut rows = Vec::with_capacity(alloc, landmarks as usize)?;
    let mut linked = Vec::new(alloc);
    append_rows(&mut rows, &mut linked, &mut marks, landmarks, links)?;
    Ok((rows, linked))
}

/// Appends a row for each of so many landmarks, and the polygons of its links, which are sorted by landmark. A polygon's
/// mark tells the last landmark that it was appended for, counted from 1.
fn append_rows(
    rows: &mut Vec<LandmarkRow>,
    linked: &mut Vec<u32>,
    marks: &mut [u32],
    landmarks: u32,
    links: &[Link],
) -> Result<(), AllocError>
    requires few { landmarks ≤ LANDMARK_LIMIT }
    requires rising { IsNonDecreasingBy (λ (m : Link). m.landmark) links.now }
    requires inside { All (λ m. m.polygon < length marks.old) links.now }
    requires fresh { All (λ n. n ≤ 0) marks.old }
    requires none { rows.old.items ≡ [] }
    ensures { OnOk result (AreRows links.now landmarks linked.new.items rows.new.items) }
{
    let mut start = 0;
    for landmark in 0..landmarks {
        let end = run_end(links, start, u64::from(landmark));
        let first = linked.len();
        append_once(linked, marks, landmark + 1, &links[start..end])?;
        rows.push(LandmarkRow {
            first,
            count: linked.len() - first,
        })?;
        start = end;
    }
    Ok(())
}

/// For each landmark the polygons of its links, in one list.
fn link_landmarks(
    alloc: Global,
    polygons: &IndexMap<PolyKey, Point, RandomState>,
    landmarks: &IndexMap<u64, Option<Point>, RandomState>,
    links: &[LinkEntry],
) -> Result<(Vec<LandmarkRow>, Vec<u32>), Unbuilt>
    requires polygons { length polygons.now.entries < 2 ^ 32 }
    requires few { length landmarks.now.entries ≤ LANDMARK_LIMIT }
    requires keys { IsUnique same_key polygons.now }
    requires lands { IsUnique nat_eq landmarks.now }
    ensures { MatchResult result (λ l. AreLinkRows (keys polygons.now) (keys landmarks.now) links.now
        (length landmarks.now.entries) l.1.items l.0.items) (StopsFor (Any (IsLinkUnknown (keys polygons.now) (keys landmarks.now)) links.now)) }
{
    let mut made = resolve_links(alloc, polygons, landmarks, links)?;
    sort_links(&mut made)?;
    let rows = list_linked(alloc, landmarks.len() as u32, &made, polygons.len())?;
    Ok(rows)
}

/// The landmarks of an index with the polygons that are linked to them.
fn link_indexed(
    alloc: Global,
    polygons: &IndexMap<PolyKey, Point, RandomState>,
    landmarks: &IndexMap<u64, Option<Point>, RandomState>,
    links: &[LinkEntry],
) -> Result<LinkedLandmarks, Unbuilt>
    requires polygons { length polygons.now.entries < 2 ^ 32 }
    requires few { length landmarks.now.entries ≤ LANDMARK_LIMIT }
    requires keys { IsUnique same_key polygons.now }
    requires lands { IsUnique nat_eq landmarks.now }
    ensures { MatchResult result (λ l. (l.points.items ≡ landmarks.now.entries) × AreLinkRows (keys polygons.now) (keys landmarks.now) links.now
        (length landmarks.now.entries) l.linked.items l.rows.items) (StopsFor (Any (IsLinkUnknown (keys polygons.now) (keys landmarks.now)) links.now)) }
{
    let (rows, linked) = link_landmarks(alloc, polygons, landmarks, links)?;
    let points = points_of(alloc, landmarks)?;
    Ok(LinkedLandmarks {
        points,
        rows,
        linked,
    })
}

/// The landmarks of the records with the polygons that are linked to them.
pub fn build_landmarks(
    alloc: Global,
    hasher: RandomState,
    index: &IndexMap<PolyKey, Point, RandomState>,
    entries: &[LandmarkEntry],
    links: &[LinkEntry],
) -> Result<LinkedLandmarks, Unbuilt>
    requires few { length index.now.entries < 2 ^ 32 }
    requires unique { IsUnique same_key index.now }
    ensures { MatchResult result (AreLinked (keys index.now) entries.now links.now)
        (StopsFor (AreUnlinked (keys index.now) entries.now links.now)) }
{
    let firsts = first_landmarks(alloc, hasher, entries)?;
    link_indexed(alloc, index, &firsts, links)
}
