//! The next dart about its node of each dart.

ghost use Rattle.std.specs.Prelude.{◌≡◌, ◌≢◌, ◌<◌, ◌↔◌, IsTrue, IsNone, IfSome};
ghost use Rattle.tl_map_county.specs.Darts.{dart_left};
ghost use Rattle.tl_check_sides.specs.Sides.{dart_count, dart_right, IsNext, SidesAgree, Follows};
ghost use Rattle.tl_check_sides.specs.Keeping.Rounded.{KeepNext};

use crate::fault::Disagreement;
use tl_map_county::{Map, reverse_dart};

/// Of each dart of a map the next one about the node where it starts.
#[derive(Drop)]
pub struct Next {
    next: Vec<u32>,
}

impl Next {
    /// Of each dart the next one.
    pub(crate) fn new(next: Vec<u32>) -> Next
        ensures { result.next.items ≡ next.items }
    {
        Next { next }
    }

    /// Two darts whose sides disagree, if sides don't agree.
    pub fn disagreement(&self, map: &Map) -> Option<Disagreement>
        requires { KeepNext map.now.chains self.now }
        // `None` is answered only where sides agree.
        ensures none { IsNone result → SidesAgree map.now.chains }
        // The second is next after the first about its node, and what is on the left of the first isn't what is on the
        // right of the second.
        ensures some { IfSome result (λ found. IsNext map.now.chains found.first found.next
            × (dart_left map.now.chains found.first ≢ dart_right map.now.chains found.next)) }
    {
        for dart in 0..map.darts() {
            let next = self.next[dart as usize];
            if !map.dart_left(dart).is(map.dart_left(reverse_dart(next))) {
                return Some(Disagreement { first: dart, next });
            }
        }
        None
    }

    /// Whether dart `e` follows dart `d`.
    pub fn follows(&self, map: &Map, d: u32, e: u32) -> bool
        requires next { KeepNext map.now.chains self.now }
        requires d { d < dart_count map.now.chains }
        requires e { e < dart_count map.now.chains }
        ensures { IsTrue result ↔ Follows map.now.chains d e }
    {
        self.next[e as usize] == reverse_dart(d)
    }
}
