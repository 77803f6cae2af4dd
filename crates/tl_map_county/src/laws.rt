//! What holds of the definitions alone. Each law is a function that does nothing: its contract is the law.

ghost use Rattle.std.specs.Prelude.{◌≡◌, ℕ, ◌<◌, ◌↔◌, List, length, slice_get};
ghost use Rattle.tl_geom.specs.declared.point.Point.{Point};
ghost use Rattle.tl_map_county.specs.TheMap.{MapChain};
ghost use Rattle.tl_map_county.specs.Darts.{dart_start};
ghost use Rattle.tl_map_county.specs.Nodes.{AreNodes};

/// Chains have one list of nodes at most.
pub fn chains_have_one_list_of_nodes()
    ensures { (chains : List MapChain) (nodes others : List Point) → AreNodes chains nodes → AreNodes chains others →
        nodes ≡ others }
{}

/// Two darts have one node exactly where they start at one point.
pub fn darts_share_a_node_where_they_start_at_one_point()
    ensures { (chains : List MapChain) (nodes : List Point) (d e n m : ℕ) → AreNodes chains nodes → n < length nodes →
        slice_get nodes n ≡ dart_start chains d → slice_get nodes m ≡ dart_start chains e →
        (n ≡ m) ↔ (dart_start chains d ≡ dart_start chains e) }
{}
