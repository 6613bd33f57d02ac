//! Tests of the texts of reports.
mod descriptions;
mod sentences;
mod texts;
