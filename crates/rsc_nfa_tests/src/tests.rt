//! What the contracts don't say, and each call once.
mod cost;
mod model;
mod requests;
mod runs;
mod sizes;
mod states;
