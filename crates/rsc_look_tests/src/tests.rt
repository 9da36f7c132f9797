//! The original's own tests, examples, and a slow reader over bytes of every kind.
mod any_bytes;
mod carried;
mod classes;
mod cost;
mod forms;
mod look_sets;
mod matchers;
mod shown;
