//! Calls with each of their allocation requests refused in turn.

mod images;
mod queries;
mod requests;
mod rules;
mod splits;
mod trial;
mod writes;
