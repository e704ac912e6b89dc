// The call: the space that it asks for, the walks of the tree, and the words of each function met.
#![tactic(auto)]

pub mod call;
mod copied;
mod depth;
pub mod ffi;
pub mod outputs;
mod places;
mod space;
mod streams;
mod walks;
