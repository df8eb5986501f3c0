//! Worked examples as tests, by topic.

mod gates;
mod plain;
mod tables;
