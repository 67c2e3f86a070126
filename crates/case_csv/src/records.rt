//! The records of bytes, one by one.
ghost use Rattle.std.specs.Prelude.{◌≡◌, true, IfOk};
ghost use Rattle.csv.specs.Records.{fields_of};
ghost use Rattle.case_csv.specs.Records.{records_of, records_left, IsOpen, before};

use csv::{ByteRecord, Reader, ReaderBuilder};
use field_core::NoMemory;
use std::alloc::Global;

/// Returns a reader of the records of bytes. No record is set apart as a header, and records may differ in length.
pub fn open(alloc: Global, bytes: &[u8]) -> Reader<&[u8]>
    ensures stands { IsOpen result }
    ensures records { records_left result ≡ records_of bytes.now }
{
    ReaderBuilder::new()
        .has_headers(false)
        .flexible(true)
        .from_reader(alloc, bytes)
}

/// Reads the next record into `row`. Returns whether there was one.
pub fn next(records: &mut Reader<&[u8]>, row: &mut ByteRecord) -> Result<bool, NoMemory>
    requires { IsOpen records.old }
    ensures stands { IfOk result (λ found. found ≡ true → IsOpen records.new) }
    ensures next { IfOk result (λ found. records_left records.old ≡ before found (fields_of row.new) (records_left records.new)) }
{
    let Ok(found) = records.read_byte_record(row) else {
        return Err(NoMemory);
    };
    Ok(found)
}
