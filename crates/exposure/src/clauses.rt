// The clauses by which roots, links and keys follow from the sides that were read: for what lies open by the rule, and for what can be worked out.
// What goes in and comes out are bools: each says whether a fact holds.
ghost use Rattle.std.specs.Prelude.{◌≡◌};
ghost use Rattle.exposure.specs.Links.{root_by, link_by, key_by};

// Root n, if a side was read that had drawn key n, or by link n - 1.
pub fn root_by(drawn: bool, below: bool) -> bool
    ensures { result ≡ root_by drawn below }
{
    drawn || below
}

// Link n, by root n and if a side was read that had drawn key n or n + 1.
pub fn link_by(root: bool, drawn: bool, drawn_next: bool) -> bool
    ensures { result ≡ link_by root drawn drawn_next }
{
    root && (drawn || drawn_next)
}

// A key, if a side was read that opens it by its link's chain, or one that had it put aside.
pub fn key_by(chain: bool, aside: bool) -> bool
    ensures { result ≡ key_by chain aside }
{
    chain || aside
}
