//! Maps of labels and values, of which header buckets and keys are two.

pub mod ahead;
pub mod earlier;
pub mod first;
pub mod form;
pub mod labels;
pub mod lookup;
pub mod pairs;
pub mod read;
pub mod search;
pub mod unordered;
