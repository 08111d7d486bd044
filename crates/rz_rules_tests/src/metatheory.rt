//! The laws are called. What they say of derivations by hand is computed in
//! `rz_metatheory/proofs/Instances.antt`.

use rz_metatheory::laws::{
    claims_are_derived, goodness, scoping, shapes, small_orders, validity, valuations,
};

#[test]
fn laws() {
    goodness();
    scoping();
    shapes();
    small_orders();
    valuations();
    validity();
    claims_are_derived();
}
