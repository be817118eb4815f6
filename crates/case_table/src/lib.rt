//! A table of names and their codes, in the order of the names' bytes.
#![tactic(auto)]

ghost use Rattle.std.specs.Prelude.{List, ℕ, ◌≡◌, ◌<◌, ◌≤◌, ◌^◌, length, map, IfSome, IfNone, IfOk, IfErr};
ghost use Rattle.case_table.specs.Rows.{Rising, HasCode, HasNone, RisingTo, FirstFall, IsFault};

use std::cmp::Ordering;
use std::marker::Model;

/// Chooses by the code that a name was found with.
///
/// `cases!(table.find(name); 1 => a, 2 => b; c)` is `a` at the code 1, `b` at the code 2, and `c` at
/// any other code and where the name wasn't found. A code is a pattern: a number or a constant.
#[macro_export]
macro_rules! cases {
    ($found:expr; $($code:pat => $value:expr),+ $(,)?; $other:expr) => {
        match $found {
            $(Some($code) => $value,)+
            _ => $other,
        }
    };
}

/// A name and its code.
#[derive(Clone, Copy, Debug)]
pub struct Case {
    pub name: &'static [u8],
    pub code: u16,
}

/// Why rows make no table.
#[derive(Clone, Copy, Debug, PartialEq, Eq)]
pub enum CaseFault {
    /// The place of the first name that isn't greater than the one before.
    NotRising(u32),
}

/// A row of a table: its name and code.
pub trait Row {
    ghost pair: { Self → List ℕ × ℕ };

    fn name(&self) -> &[u8]
        ensures { result.now ≡ (pair self.now).0 };

    fn code(&self) -> u16
        ensures { result ≡ (pair self.now).1 };
}

impl Row for Case {
    ghost pair = { λ r. (r.name.now, r.code) };

    fn name(&self) -> &[u8] {
        self.name
    }

    fn code(&self) -> u16 {
        self.code
    }
}

/// The code of a name, by halving rows that rise. Rows that lie in a `static` are looked up in place: no table is made.
pub fn find_in<T: Row>(rows: &[T], name: &[u8]) -> Option<u16>
    requires { Rising (map T.pair rows.now) }
    ensures found { IfSome result (λ c. HasCode (map T.pair rows.now) name.now c) }
    ensures none { IfNone result (HasNone (map T.pair rows.now) name.now) }
{
    let mut low = 0usize;
    let mut high = rows.len();
    'halves: while low < high {
        let middle = low + (high - low) / 2;
        let row = &rows[middle];
        match row.name().cmp(name) {
            Ordering::Less => low = middle + 1,
            Ordering::Equal => return Some(row.code()),
            Ordering::Greater => high = middle,
        }
    }
    None
}

/// The place of the first name that isn't greater than the one before, or the number of rows.
fn first_fall<T: Row>(rows: &[T]) -> usize
    ensures within { result ≤ length rows.now }
    ensures rising { RisingTo (map T.pair rows.now) result }
    ensures fall { result < length rows.now → FirstFall (map T.pair rows.now) result }
{
    let mut n = 1usize;
    if rows.len() == 0 {
        return 0;
    }
    'rows: while n < rows.len() {
        let before = &rows[n - 1];
        let row = &rows[n];
        match before.name().cmp(row.name()) {
            Ordering::Less => n += 1,
            _ => return n,
        }
    }
    n
}

/// Rows whose names rise, looked up by name.
#[derive(Drop)]
pub struct Table<T: Row, const N: usize> {
    rows: [T; N],
}

/// Rows of [`Case`] whose names rise.
pub type CaseTable<const N: usize> = Table<Case, N>;

impl<T: Row, const N: usize> Model for Table<T, N> {
    ghost use Rattle.std.specs.Prelude.{List, ℕ, map};
    ghost use Rattle.case_table.specs.Rows.{Rising};

    ghost Value = { List (List ℕ × ℕ) };

    ghost view = { λ t. map T.pair t.rows };

    ghost invariant = { λ t. Rising (map T.pair t.rows) };
}

impl<T: Row + Drop, const N: usize> Table<T, N> {
    /// The table of these rows, where each name is greater than the one before.
    pub fn new(rows: [T; N]) -> Result<Table<T, N>, CaseFault>
        requires { N ≤ 2 ^ 32 }
        ensures rows { IfOk result (λ t. t ≡ map T.pair rows) }
        ensures rising { IfOk result (λ t. Rising (map T.pair rows)) }
        // The place told is the first whose name isn't greater than the one before.
        ensures fault { IfErr result (λ e. IsFault (map T.pair rows) e) }
    {
        let n = first_fall(&rows);
        if n < N {
            Err(CaseFault::NotRising(n as u32))
        } else {
            Ok(Table { rows })
        }
    }

    /// The code of the row with this name.
    pub fn find(&self, name: &[u8]) -> Option<u16>
        // A row has this name and that code.
        ensures found { IfSome result (λ c. HasCode self.now name.now c) }
        // No row has this name.
        ensures none { IfNone result (HasNone self.now name.now) }
    {
        find_in(&self.rows, name)
    }
}

#[cfg(test)]
mod tests;
