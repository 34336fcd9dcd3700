//! What is read of a script, and what its commands mean.
mod commands;
mod forms;
mod names;
mod terms;
mod text;
