//! What a part is. The function of this file does nothing: its clause is the law.

ghost use Rattle.std.specs.Prelude.{◌≡◌, List};
ghost use Rattle.rz_drv.specs.declared.parts.Part.{Part};
ghost use Rattle.rz_log.specs.declared.world.World.{World};
ghost use Rattle.rz_export.specs.declared.claims.Claimed.{Claimed};
ghost use Rattle.rz_export.specs.Extract.{IsPartOf};

/// A world and claims have one part. So what is exported is a function of them.
pub fn one_part()
    ensures { (w : World) (claims : List Claimed) (one other : Part) → IsPartOf w claims one
        → IsPartOf w claims other → one ≡ other }
{}
