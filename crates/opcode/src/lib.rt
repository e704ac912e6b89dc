// The numberings, the opcodes and what the operators become: the leaves that every layer above stands on.
#![tactic(auto)]

pub mod index;
pub mod member;
pub mod opcode;
pub mod operator;
pub mod tables;
pub mod words;
