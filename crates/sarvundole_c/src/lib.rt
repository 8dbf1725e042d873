// The archive for C: the library's calls under the names that C has, each with the library's promise.
#![tactic(auto)]

mod chips;
mod exported;
mod together;
