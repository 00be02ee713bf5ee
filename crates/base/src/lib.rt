// What every other crate builds on: numbers in byte slices, and integers as words.
#![tactic(auto)]

pub mod bytes;
pub mod words;

// A part of a byte slice: where it begins, and how many bytes it has.
#[derive(Clone, Copy)]
pub struct Span {
    pub at: usize,
    pub len: usize,
}
