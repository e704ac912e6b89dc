// What of the arms visits no expression: leaves of the cycle of visitors.
#![tactic(auto)]

pub mod assign;
pub mod children;
pub mod import;
pub mod item;
pub mod leaf;
pub mod loops;
pub mod member;
pub mod operator;
pub mod siblings;
