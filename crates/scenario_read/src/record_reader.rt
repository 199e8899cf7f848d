// The records of a text, one after another.
ghost use Rattle.std.specs.Prelude.{◌≡◌, ◌≤◌, [], IfErr, IfOk, length, true};
ghost use Rattle.csv.specs.Reading.{error_kind, stops_reader};
ghost use Rattle.csv.specs.Records.{fields_of};
ghost use Rattle.scenario_read.specs.Records.{records_of};
ghost use Rattle.scenario_read.specs.Unread.{ReadsNext};

use csv::{ByteRecord, Error, Reader, ReaderBuilder};
use fixed_vec::NoMemory;
use std::alloc::Global;
use std::marker::Model;

/// The records that `csv` gives for bytes, one after another: commas, double quotes, no header row, any
/// lengths, no trimming.
#[derive(Drop)]
pub struct RecordReader<'a> {
    reader: Reader<&'a [u8]>,
    is_over: bool,
}

impl<'a> Model for RecordReader<'a> {
    ghost use Rattle.scenario_read.specs.Records.{Rows};
    ghost use Rattle.scenario_read.specs.Unread.{IsBetweenUnlessOver, left_of};

    ghost Value = { Rows };

    ghost view = { λ r. left_of r.is_over r.reader };

    ghost invariant = { λ r. IsBetweenUnlessOver r.is_over r.reader };
}

// What a read of bytes in memory can fail by. Records of different lengths are no error.
fn out_of_memory(error: &Error) -> NoMemory
    requires { stops_reader (error_kind error.now) ≡ true }
{
    let _read = error;
    NoMemory
}

impl<'a> RecordReader<'a> {
    /// A reader of all records of these bytes.
    pub fn of(alloc: Global, bytes: &'a [u8]) -> RecordReader<'a>
        ensures value { result ≡ records_of bytes.now }
        ensures count { length result ≤ length bytes.now }
    {
        RecordReader {
            reader: ReaderBuilder::new()
                .has_headers(false)
                .flexible(true)
                .from_reader(alloc, bytes),
            is_over: false,
        }
    }

    /// The next record into `row`, and whether there was one. Where memory runs out, none is left.
    pub fn read(&mut self, row: &mut ByteRecord) -> Result<bool, NoMemory>
        ensures next { IfOk result (λ found. ReadsNext found self.old (fields_of row.new) self.new) }
        ensures none_left { IfErr result (λ _. self.new ≡ []) }
    {
        if self.is_over {
            return Ok(false);
        }
        let found = match self.reader.read_byte_record(row) {
            Ok(found) => found,
            Err(error) => {
                self.is_over = true;
                return Err(out_of_memory(&error));
            }
        };
        self.is_over = !found;
        Ok(found)
    }
}
