//! Laws of what is read, whoever reads it.

ghost use Rattle.std.specs.Prelude.{◌≡◌, ℕ, ◌≤◌, List, Ok};
ghost use Rattle.rz_rules.specs.declared.kinds.Sort.TheVariants.{Cube};
ghost use Rattle.rz_rules.specs.Cube.{leaves};
ghost use Rattle.rz_rules.specs.Tope.{IsPointOf, IsTopeOver};
ghost use Rattle.rz_rules.specs.Tree.{Tree, sort_of};
ghost use Rattle.rz_syntax.specs.declared.forms.Form.{Form};
ghost use Rattle.rz_syntax.specs.declared.forms.Raw.{Raw};
ghost use Rattle.rz_shape.specs.Reading.{Bindings, PlacedPoint, cube_reading, point_reading, tope_reading};

/// What is read as a cube is one, of at most 64 leaves.
pub fn cubes_are_narrow()
    ensures cube { (forms : List Form) (depth : ℕ) (raw : Raw) (cube : Tree)
        → cube_reading forms depth raw ≡ Ok cube → sort_of cube ≡ Cube }
    ensures narrow { (forms : List Form) (depth : ℕ) (raw : Raw) (cube : Tree)
        → cube_reading forms depth raw ≡ Ok cube → leaves cube ≤ 64 }
{}

/// What is read as a point is one of the cube that is read with it.
pub fn points_are_of_their_cubes()
    ensures { (bound : Bindings) (forms : List Form) (depth : ℕ) (raw : Raw) (s : PlacedPoint)
        → point_reading bound forms depth raw ≡ Ok s
        → IsPointOf (record { cubes = bound.cubes }) s.cube s.point }
{}

/// What is read as a tope is one over the cubes.
pub fn topes_are_over_their_cubes()
    ensures { (bound : Bindings) (forms : List Form) (depth : ℕ) (raw : Raw) (tope : Tree)
        → tope_reading bound forms depth raw ≡ Ok tope
        → IsTopeOver (record { cubes = bound.cubes }) tope }
{}
