// The records of a text, one after another.
use csv::ByteRecord;
use fixed_vec::NoMemory;
use scenario_read::RecordReader;
use std::alloc::Global;
use std::test::Fail;

// How many fields the next record has, if there is one.
fn fields_of_next(
    reader: &mut RecordReader,
    row: &mut ByteRecord,
) -> Result<Option<usize>, NoMemory> {
    if reader.read(row)? {
        Ok(Some(row.len()))
    } else {
        Ok(None)
    }
}

// How many fields each of the first four records of a text has.
fn field_counts(alloc: Global, text: &[u8]) -> Result<[Option<usize>; 4], NoMemory> {
    let mut reader = RecordReader::of(alloc, text);
    let mut row = ByteRecord::new(alloc);
    Ok([
        fields_of_next(&mut reader, &mut row)?,
        fields_of_next(&mut reader, &mut row)?,
        fields_of_next(&mut reader, &mut row)?,
        fields_of_next(&mut reader, &mut row)?,
    ])
}

#[test]
fn reads_records_until_none_is_left(rt: HostRuntime) -> Result<(), Fail> {
    let alloc = rt.alloc();
    assert_eq!(rt;
        field_counts(alloc, b"a,\"b,\"\"c\"\n\nd")?,
        [Some(2), Some(1), None, None]
    );
    assert_eq!(rt;
        field_counts(alloc, b"\xEF\xBB\xBF,\r\n,,\n")?,
        [Some(2), Some(3), None, None]
    );
    assert_eq!(rt; field_counts(alloc, b"")?, [None, None, None, None]);
    Ok(())
}
