//! Whether two records of one chain fit, as two counties tell it, and the one that stands for both.

ghost use Rattle.std.specs.Prelude.{◌≡◌};
ghost use Rattle.tl_record.specs.Joining.{same_point, fits, ids_agree, sides_complete, first_given, one_of_two};

use tl_geom::Point;
use tl_record::{PAIRS, PolyKey, Record};

fn same_point(p: &Point, q: &Point) -> bool
    ensures { result ≡ same_point p.now q.now }
{
    p.x == q.x && p.y == q.y
}

ghost use Rattle.std.specs.Cmp.Lexicographic.{pointwise};
ghost use Rattle.std.specs.Option.{option_eq};

/// Are the pairs equal?
fn same_pairs(pairs: &[Option<Point>; PAIRS], others: &[Option<Point>; PAIRS]) -> bool
    ensures { result ≡ pointwise (option_eq same_point) pairs.now others.now }
{
    pairs == others
}

/// Zero-cell ids differ where both are given.
fn ids_agree(id: Option<u64>, other: Option<u64>) -> bool
    ensures { result ≡ ids_agree id other }
{
    match (id, other) {
        (Some(id), Some(other)) => id == other,
        _ => true,
    }
}

/// Does one name the left side alone, and the other the right side alone?
fn sides_complete(
    left: &Option<PolyKey>,
    right: &Option<PolyKey>,
    other_left: &Option<PolyKey>,
    other_right: &Option<PolyKey>,
) -> bool
    ensures { result ≡ sides_complete left.now right.now other_left.now other_right.now }
{
    match (left, right, other_left, other_right) {
        (Some(_), None, None, Some(_)) => true,
        (None, Some(_), Some(_), None) => true,
        _ => false,
    }
}

/// Do two records of one chain fit, as two counties tell it?
pub fn fits(first: &Record, second: &Record) -> bool
    ensures { result ≡ fits first.now second.now }
{
    match (first, second) {
        (
            Record::Chain { from, to, .. },
            Record::Chain {
                from: start,
                to: end,
                ..
            },
        ) => same_point(from, start) && same_point(to, end),
        (Record::Shape { pairs, .. }, Record::Shape { pairs: others, .. }) => {
            same_pairs(pairs, others)
        }
        (
            Record::Sides {
                start_cell,
                end_cell,
                left,
                right,
                ..
            },
            Record::Sides {
                start_cell: other_start,
                end_cell: other_end,
                left: other_left,
                right: other_right,
                ..
            },
        ) => {
            sides_complete(left, right, other_left, other_right)
                && ids_agree(*start_cell, *other_start)
                && ids_agree(*end_cell, *other_end)
        }
        _ => false,
    }
}

/// What is given, by the first or else by the second.
fn first_given<T: Copy>(given: Option<T>, other: Option<T>) -> Option<T>
    ensures { result ≡ first_given given other }
{
    match given {
        Some(given) => Some(given),
        None => other,
    }
}

/// One record of two that fit: a type I record with both sides, or the second, which is equal to the first.
pub fn one_of_two(first: &Record, second: &Record) -> Record
    ensures { result ≡ one_of_two first.now second.now }
{
    match (first, second) {
        (
            Record::Sides {
                tlid,
                start_cell,
                end_cell,
                left,
                right,
            },
            Record::Sides {
                start_cell: other_start,
                end_cell: other_end,
                left: other_left,
                right: other_right,
                ..
            },
        ) => Record::Sides {
            tlid: *tlid,
            start_cell: first_given(*start_cell, *other_start),
            end_cell: first_given(*end_cell, *other_end),
            left: first_given(*left, *other_left),
            right: first_given(*right, *other_right),
        },
        _ => *second,
    }
}
