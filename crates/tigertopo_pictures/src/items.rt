//! Numbered texts, group by group.

ghost use Rattle.std.specs.Prelude.{◌≡◌, ◌<◌, ◌++◌, ℕ, List, flat_map, length, slice_index};
ghost use Rattle.tigertopo_pictures.specs.Groups.{GoesThrough};
ghost use Rattle.tigertopo_pictures.specs.Items.{separated};

use crate::groups::Groups;
use tl_cert_output::Page;

/// Texts that have numbers.
pub trait Items {
    // The text of a number.
    ghost text: { Self → ℕ → List ℕ };

    // Whether the number has a text that can be printed.
    ghost has: { Self → ℕ → Type 0 };

    /// Prints the text of a number.
    fn print<P: Page>(&self, number: usize, page: &mut P)
        requires { has self.now number }
        ensures { P.adds page.old page.new (text self.now number) };
}

/// Prints the items of a group with a comma between two.
pub fn print_separated<I: Items, P: Page>(items: &I, groups: &Groups, group: u32, page: &mut P)
    requires group { group < length groups.now.first }
    requires has { (n : ℕ) → n < length groups.now.next → I.has items.now n }
    ensures { (ns : List ℕ) → GoesThrough groups.now.next (slice_index groups.now.first group) ns →
        P.adds page.old page.new (separated (I.text items.now) ns) }
{
    let first = groups.first(group);
    if first < groups.items() {
        items.print(first, page);
        print_items(items, b",", b"", groups, groups.next(first), page);
    }
}

/// Prints the items of a group from this one on, each between the same bytes.
pub fn print_items<I: Items, P: Page>(
    items: &I,
    before: &[u8],
    behind: &[u8],
    groups: &Groups,
    start: usize,
    page: &mut P,
)
    requires { (n : ℕ) → n < length groups.now.next → I.has items.now n }
    ensures { (ns : List ℕ) → GoesThrough groups.now.next start ns →
        P.adds page.old page.new
        (flat_map (λ n. before.now ++ I.text items.now n ++ behind.now) ns) }
{
    let mut at = start;
    while at < groups.items() {
        page.add(before);
        items.print(at, page);
        page.add(behind);
        at = groups.next(at);
    }
}
