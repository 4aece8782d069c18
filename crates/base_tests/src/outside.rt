//! Worked cases: what each call answers, and that a call with memory answers Ok.
use fx8::{Numbers, Text8};
use std::alloc::Global;
use std::test::Fail;
use tester_io::{
    CalmFiles, CalmSink, DiskFiles, FileFault, Files, MemFiles, MemSink, OutSink, Sink, WriteError,
};

/// What a reading of three bytes answers: the length, or the fault.
fn read_length<F: Files>(files: &mut F, name: &Text8, limit: u64) -> Result<u64, FileFault> {
    let bytes = files.read_all(name, limit)?;
    Ok(bytes.len())
}

#[test]
fn files_in_memory(rt: HostRuntime) -> Result<(), Fail> {
    let alloc: Global = rt.alloc();
    let bars = Text8::from_slice(alloc, b"bars.csv")?;
    let ticks = Text8::from_slice(alloc, b"ticks.csv")?;
    let mut files = MemFiles::new(alloc, Numbers::from_slice(alloc, &[3, 6])?);
    files.set(&bars, b"old")?;
    files.set(&bars, b"123")?;
    // calls 0 to 3
    assert_eq!(rt;
        read_length(&mut files, &bars, 3),
        Ok(3),
        "a file of exactly the limit"
    );
    assert_eq!(rt;
        read_length(&mut files, &bars, 2),
        Err(FileFault::TooLarge),
        "one byte more than the limit"
    );
    assert_eq!(rt;
        read_length(&mut files, &ticks, 9),
        Err(FileFault::Absent),
        "a name that is not held"
    );
    assert_eq!(rt;
        read_length(&mut files, &bars, 3),
        Err(FileFault::Failed),
        "call 3 is to fail"
    );
    // calls 4 to 6
    assert_eq!(rt; files.write_all_to(&ticks, b"45"), Ok(()), "a writing");
    assert_eq!(rt;
        read_length(&mut files, &ticks, 9),
        Ok(2),
        "what was written"
    );
    assert_eq!(rt;
        files.write_all_to(&ticks, b"6"),
        Err(WriteError::Failed),
        "call 6 is to fail"
    );
    let kept = files.held(&ticks).ok_or("not held")?;
    assert_eq!(rt;
        kept.as_slice(),
        b"45".as_slice(),
        "a failed writing changes nothing"
    );
    assert!(rt; files.held(&bars).is_some());
    Ok(())
}

#[test]
fn sinks_in_memory(rt: HostRuntime) -> Result<(), Fail> {
    let alloc: Global = rt.alloc();
    let mut sink = MemSink::new(alloc, Numbers::from_slice(alloc, &[1])?);
    let piece = [7u8; 100];
    for (call, (from, want)) in [
        (0, Ok(64)),
        (64, Err(WriteError::Failed)),
        (64, Ok(36)),
        (100, Ok(0)),
    ]
    .into_iter()
    .enumerate()
    {
        if from <= piece.len() {
            assert_eq!(rt; sink.write(&piece[from..]), want, "call {call}");
        }
    }
    assert_eq!(rt; sink.bytes().as_slice(), piece.as_slice());
    Ok(())
}

#[test]
fn calm_ones(rt: HostRuntime) -> Result<(), Fail> {
    let alloc: Global = rt.alloc();
    let name = Text8::from_slice(alloc, b"a")?;
    let mut files = CalmFiles::new(alloc);
    assert_eq!(rt; read_length(&mut files, &name, 9), Err(FileFault::Absent));
    files.set(&name, b"123")?;
    assert_eq!(rt; read_length(&mut files, &name, 2), Err(FileFault::TooLarge));
    files.write_all_to(&name, b"12")?;
    assert_eq!(rt; read_length(&mut files, &name, 2), Ok(2));
    assert!(rt; files.held(&name).is_some());
    let mut sink = CalmSink::new(alloc);
    assert_eq!(rt; sink.write(&[7u8; 65])?, 64);
    assert_eq!(rt; sink.bytes().len(), 64);
    Ok(())
}

#[test]
fn real_files(rt: HostRuntime) -> Result<(), Fail> {
    let alloc: Global = rt.alloc();
    let name = Text8::from_slice(alloc, b"tester_io_test.txt")?;
    let missing = Text8::from_slice(alloc, b"tester_io_missing.txt")?;
    let no_text = Text8::from_slice(alloc, &[255])?;
    let mut files = DiskFiles::new(rt.clone()?, alloc);
    files.write_all_to(&name, &[9u8; 5000])?;
    assert_eq!(rt;
        read_length(&mut files, &name, 5000),
        Ok(5000),
        "a file of exactly the limit"
    );
    assert_eq!(rt;
        read_length(&mut files, &name, 4999),
        Err(FileFault::TooLarge),
        "one byte more than the limit"
    );
    assert_eq!(rt;
        read_length(&mut files, &missing, 9),
        Err(FileFault::Absent),
        "no such file"
    );
    assert_eq!(rt;
        read_length(&mut files, &no_text, 9),
        Err(FileFault::Absent),
        "a name that is no text"
    );
    assert_eq!(rt;
        files.write_all_to(&no_text, b"1"),
        Err(WriteError::Failed),
        "a name that is no text"
    );
    std::fs::remove_file(&rt, "tester_io_test.txt")?;
    Ok(())
}

#[test]
fn standard_output(rt: HostRuntime) -> Result<(), Fail> {
    let mut sink = OutSink::new(rt.clone()?);
    assert_eq!(rt; sink.write(b"written\n")?, 8);
    assert_eq!(rt; sink.write(b"")?, 0);
    Ok(())
}
