//! What contracts know of a pass's row.

use system_seats::SystemRow;

/// A seat's row, and how many entries and values are set aside for the seat. No value of it is made.
pub struct PassRow {
    pub seat: SystemRow,
    pub entries: u32,
    pub values: u32,
}
