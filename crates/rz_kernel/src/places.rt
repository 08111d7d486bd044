//! Numbers of the file's nodes as ids of a pool.

ghost use Rattle.std.specs.Prelude.{◌≡◌, ◌<◌, ◌≤◌, length, All, map, slice_index};
ghost use Rattle.rz_rules.specs.Judgment.{ids_of, kind_of};

use rz_rules::{Judgment, Kids};

/// The ids in the pool of these nodes of the file, at most seven.
pub fn kids_at(places: &[u64], ids: &[u64]) -> Kids
    requires there { All (λ id. id < length places.now) ids.now }
    requires few { length ids.now ≤ 7 }
    ensures { result ≡ map (slice_index places.now) ids.now }
{
    let mut kids = Kids::new();
    for id in ids {
        kids.push(places[*id as usize]);
    }
    kids
}

/// A judgment of nodes of the file, over their ids in the pool.
pub fn judgment_at(places: &[u64], says: Judgment) -> Judgment
    requires { All (λ id. id < length places.now) (ids_of says) }
    ensures kind { kind_of result ≡ kind_of says }
    ensures ids { ids_of result ≡ map (slice_index places.now) (ids_of says) }
{
    match says {
        Judgment::Formed { c } => Judgment::Formed {
            c: places[c as usize],
        },
        Judgment::Holds { c, phi } => Judgment::Holds {
            c: places[c as usize],
            phi: places[phi as usize],
        },
        Judgment::Has { c, a, of } => Judgment::Has {
            c: places[c as usize],
            a: places[a as usize],
            of: places[of as usize],
        },
        Judgment::Same { c, a, b, of } => Judgment::Same {
            c: places[c as usize],
            a: places[a as usize],
            b: places[b as usize],
            of: places[of as usize],
        },
    }
}
