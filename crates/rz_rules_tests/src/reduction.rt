//! The laws are called. What the definitions say of terms is computed in `rz_reduction/proofs/WorkedSteps.antt`,
//! `WorkedRuns.antt` and `WorkedComparisons.antt`.

use rz_reduction::laws::{
    asks, coordinates, depth, one_tree, pieces, place, questions, runs, steps, views,
};

#[test]
fn laws() {
    one_tree();
    views();
    coordinates();
    questions();
    place();
    asks();
    steps();
    pieces();
    runs();
    depth();
}
