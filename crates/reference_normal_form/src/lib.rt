//! The normal form of a block by a plain slow program whose contract is the definition: the least equivalence, equality
//! by equality, the first place of each class, and the columns that stand in a condition or in the output. Beside it
//! stand the sets of its classes.
//!
//! It serves to compare. The layer `normal_form` does the same fast.
#![tactic(auto)]

mod classes;
mod needed;
mod normal;
mod places;

pub use classes::{
    class_of, classes_at, classes_in, constant_classes, has_class, output_classes, start_classes,
    with_classes,
};
pub use normal::normal_of;
pub use places::has_few_places;
