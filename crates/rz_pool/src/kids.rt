//! The kids of nodes, by how many there are.

ghost use Rattle.std.specs.Prelude.{◌≡◌, [], ◌∷◌, length};

use rz_rules::Kids;

/// The kid of a node that has one.
pub fn one_kid(kids: &Kids) -> u64
    requires { length kids.now ≡ 1 }
    ensures { kids.now ≡ result ∷ [] }
{
    kids.as_slice()[0]
}

/// The kids of a node that has two.
pub fn two_kids(kids: &Kids) -> (u64, u64)
    requires { length kids.now ≡ 2 }
    ensures { kids.now ≡ result.0 ∷ result.1 ∷ [] }
{
    let kids = kids.as_slice();
    (kids[0], kids[1])
}

/// The kids of a node that has three.
pub fn three_kids(kids: &Kids) -> (u64, u64, u64)
    requires { length kids.now ≡ 3 }
    ensures { kids.now ≡ result.0 ∷ result.1 ∷ result.2 ∷ [] }
{
    let kids = kids.as_slice();
    (kids[0], kids[1], kids[2])
}
