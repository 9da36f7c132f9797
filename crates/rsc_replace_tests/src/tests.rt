//! One module for templates, one for the calls that replace, and one for pairs whose outcome is Python's.
mod calls;
mod pairs;
mod templates;
