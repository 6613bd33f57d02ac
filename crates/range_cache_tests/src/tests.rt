//! Caches beside a plain model, and worked values.
mod memory;
mod model;
mod piece;
mod random_run;
mod values;
