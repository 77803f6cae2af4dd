//! Theorems, and no code: parts are enough. A map that is joined from parts, as a state is from counties, is sound and its faces are true
//! exactly where this holds of each part, and of the map of their joined borders. So the question is decided in pieces, side by side.
//!
//! What it is for some chains of a map to be told with their sides by other names is said in `specs/Told`; so a part is told, and so is the
//! border between the parts. `specs/Homes` says which part a polygon is of, what each part tells, and which chains are the border's;
//! `specs/Joined` when a map is joined from parts; `specs/Borders` what a part's own border is, and when such borders are joined; `specs/Sound`
//! what is asked of each map, as `audit --faces` asks it.
//!
//! [`laws`] states it, with what leads there: at each place the polygons of a part count together what its name counts in the border; what a
//! chain names lies on it, too; where sides are true, and counts stay along lines that meet no chain, sides agree about nodes; and then
//! every boundary is closed rings.

pub mod laws;
