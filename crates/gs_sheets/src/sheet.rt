ghost use Rattle.std.specs.Prelude.{◌≡◌, IfOk};

use gs_base::Seq;
use std::alloc::{AllocError, Global};

/// The value of a row in one column.
#[derive(Debug, Drop)]
pub enum Value {
    /// A name, or another text.
    Name(Seq<u8>),
    /// A payload, which is written in lower-case hexadecimal digits. A table for a person shows its first 8 bytes.
    Payload(Seq<u8>),
    Count(u64),
    /// A whole number that may be below 0.
    Whole(i128),
    /// A score in millionths, which is shown as a number with six digits after the point.
    Score(i128),
    /// A share in hundredths of a per cent, which is shown in per cent with two digits after the point.
    Share(u64),
    /// There is no value.
    Missing,
}

/// The values of a row, by column.
pub type Row = Seq<Value>;

/// A column of a sheet.
#[derive(Debug, Drop)]
pub struct Column {
    /// Its name in CSV and JSON.
    pub name: Seq<u8>,
    /// Its header in a table for a person.
    pub header: Seq<u8>,
}

/// Figures in rows and columns.
#[derive(Debug, Drop)]
pub struct Sheet {
    /// Its name in JSON.
    pub name: Seq<u8>,
    /// The line above it in a table for a person.
    pub title: Seq<u8>,
    pub columns: Seq<Column>,
    /// How many of the columns are of names, which stand to the left in a table. They come first.
    pub names: usize,
    /// The rows, each with a value for each column.
    pub rows: Seq<Row>,
}

/// Returns a copy of a text, as bytes.
///
/// # Errors
/// `AllocError` if it runs out of memory.
pub fn bytes_of(alloc: Global, text: &[u8]) -> Result<Seq<u8>, AllocError>
    ensures { IfOk result (λ bytes. bytes ≡ text.now) }
{
    let mut bytes = Vec::new(alloc);
    bytes.extend_from_slice(text)?;
    Ok(Seq::from(bytes))
}
