//! How figures are written.

/// How figures are written.
#[derive(Clone, Copy)]
pub enum Form {
    /// As tables for people.
    Table,
    /// As comma-separated values, a line a figure.
    Csv,
    /// As JSON.
    Json,
}
