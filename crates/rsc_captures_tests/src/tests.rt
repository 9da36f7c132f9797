//! Group lists and captures: examples, shown texts, and running out of memory.
mod captures;
mod cost;
mod forms;
mod group_info;
mod memory;
mod repeats;
mod requests;
mod shown;
mod sizes;
