//! Tests of what `http_range` reads and writes.
mod answer_heads;
mod answers;
mod conditions;
mod extra_fields;
mod frames;
mod fronts;
mod names;
mod ranges;
mod requests;
mod streams;
mod tags;
