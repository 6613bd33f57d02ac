//! Tests of command lines.
mod helps;
mod line_numbers;
mod words;
