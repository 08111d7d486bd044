//! What holds of each derived judgment, however its derivation came about, and which numbers it
//! takes to refute a tope.

ghost use Rattle.std.specs.Prelude.{◌≡◌, ◌↔◌, ℕ, IsTrue, List, All};
ghost use Rattle.rz_rules.specs.declared.coordinates.Coord.{Coord};
ghost use Rattle.rz_rules.specs.declared.kinds.Kind.TheVariants.{ExtensionApplication};
ghost use Rattle.rz_rules.specs.declared.kinds.Space.{Space};
ghost use Rattle.rz_rules.specs.declared.kinds.Space.TheVariants.{Points};
ghost use Rattle.rz_rules.specs.Context.{OfCube, OfTope, with_entry};
ghost use Rattle.rz_rules.specs.Cube.{binders_of};
ghost use Rattle.rz_rules.specs.File.{Claim, IsFile};
ghost use Rattle.rz_rules.specs.Judgment.{Statement};
ghost use Rattle.rz_rules.specs.Structural.{holds, has};
ghost use Rattle.rz_rules.specs.Substitution.{NoneFrom, none, put};
ghost use Rattle.rz_rules.specs.Tope.{IsPointOf, IsTopeOver};
ghost use Rattle.rz_rules.specs.Tree.{Tree, Trees, At};
ghost use Rattle.rz_rules.specs.Validity.{IsValid, RankList, is_valid, rank_in, Refutes};
ghost use Rattle.rz_metatheory.specs.Derivation.{Derives};
ghost use Rattle.rz_metatheory.specs.Good.{IsGoodStatement};
ghost use Rattle.rz_metatheory.specs.Place.{place_of, Entails};
ghost use Rattle.rz_metatheory.specs.Scope.{IsScopedStatement, IsWellScopedContext};
ghost use Rattle.rz_metatheory.specs.Scope.{count_in, kid, scope_of};
ghost use Rattle.rz_metatheory.specs.SmallOrders.{IsRefutedBy, IsRefutedByRanks};
ghost use Rattle.rz_metatheory.specs.SmallOrders.{IsTrueInAllNumbers, IsRefuted, IsSequent};

/// Each derived judgment is good: it is well scoped, and each tope on which a part of it rests is
/// true where the part stands.
///
/// At each application of a function on a shape the shape's tope is true of the point, at each term
/// by cases of two topes one of them is true, and a term out of bottom stands where no numbers make
/// the topes around it true.
pub fn goodness()
    ensures good { (statement : Statement) → Derives statement → IsGoodStatement statement }
{}

/// Each derived judgment is well scoped.
///
/// The topes of its context are over what stands before them. In its terms and types, and in those
/// of its context, each index points to a binder or an entry, each tope is over its place, each
/// application of a function on a shape is at a point of the shape's cube, no cube has more than 64
/// leaves, and the parts of constants and postulates are closed. So a term has no free variable
/// beyond those that its context binds.
pub fn scoping()
    ensures judgments { (statement : Statement) → Derives statement → IsScopedStatement statement }
    ensures indices { (context term type : Tree) (space : Space) → Derives (has context term type)
        → NoneFrom space (count_in (scope_of context) space) term }
{}

/// Of a typed function on a shape at a point, the point is one of the shape's cube, so that the
/// topes of the shape and of its face at the point are over the context: a point put into a tope
/// over it leaves the tope over the rest. Topes of a context bind nothing.
pub fn shapes()
    ensures point { (context type : Tree) (number : ℕ) (name : List ℕ) (kids : Trees)
        → Derives (has context (At ExtensionApplication number name kids) type)
        → IsPointOf (binders_of context) (kid kids 0) (kid kids 6) }
    ensures shape { (context type : Tree) (number : ℕ) (name : List ℕ) (kids : Trees)
        → Derives (has context (At ExtensionApplication number name kids) type)
        → IsTopeOver (binders_of context) (put Points none (kid kids 6) (kid kids 1)) }
    ensures face { (context type : Tree) (number : ℕ) (name : List ℕ) (kids : Trees)
        → Derives (has context (At ExtensionApplication number name kids) type)
        → IsTopeOver (binders_of context) (put Points none (kid kids 6) (kid kids 3)) }
    ensures put { (context cube point tope : Tree) → IsWellScopedContext context
        → IsPointOf (binders_of context) cube point
        → IsTopeOver (binders_of (with_entry context (OfCube cube))) tope
        → IsTopeOver (binders_of context) (put Points none point tope) }
    ensures topes { (context tope : Tree)
        → binders_of (with_entry context (OfTope tope)) ≡ binders_of context }
{}

/// Small orders suffice.
///
/// Where numbers of coordinates, however large, make all topes of a context true and another tope
/// false, ranks of those that occur in them do so too; and each such rank list is numbers of
/// coordinates. So a tope is valid exactly where all numbers that make the topes of the context
/// true make it true. Nothing is asked of the context and the tope.
pub fn small_orders()
    ensures smaller { (context tope : Tree) (number : Coord → ℕ)
        → IsRefutedBy context tope number → IsRefutedByRanks context tope }
    ensures larger { (context tope : Tree) (ranks : RankList)
        → Refutes context tope ranks → IsRefutedBy context tope (rank_in ranks) }
    ensures valid { (context tope : Tree)
        → (IsValid context tope ↔ IsTrueInAllNumbers context tope) }
{}

/// Numbers of coordinates are numbers of points, and the other way round where the topes are over
/// what stands before them: a point out of scope has numbers, and no coordinate.
pub fn valuations()
    ensures points { (context tope : Tree) (number : Coord → ℕ)
        → IsRefutedBy context tope number → IsRefuted context tope }
    ensures ranks { (context tope : Tree) → IsSequent context tope
        → IsRefuted context tope → IsRefutedByRanks context tope }
    ensures valid { (context tope : Tree) → IsSequent context tope
        → (IsValid context tope ↔ Entails (place_of context) tope) }
{}

/// A tope that is derived to hold in a context is valid there: each rank list that makes the topes
/// of the context true makes it true, and so do all numbers for points.
pub fn validity()
    ensures valid { (context tope : Tree)
        → Derives (holds context tope) → IsValid context tope }
    ensures numbers { (context tope : Tree)
        → Derives (holds context tope) → Entails (place_of context) tope }
    ensures test { (context tope : Tree)
        → Derives (holds context tope) → IsTrue (is_valid context tope) }
{}

/// What a derivation file claims is derived, so that the laws hold of it.
pub fn claims_are_derived()
    ensures { (bytes : List ℕ) (claims : List Claim) → IsFile bytes claims
        → All (λ claim. Derives claim.says) claims }
{}
