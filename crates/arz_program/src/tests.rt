use arz_real::{FolderFiles, StdoutSink};
use arz_world::{FileFault, Files, Sink};
use std::test::Fail;
use std::{env, fs, process};

#[test]
fn reads_the_start_of_a_file(rt: HostRuntime) -> Result<(), Fail> {
    let folder = env::temp_dir(&rt)?;
    let path = format!(in rt.alloc();
        "{}/arz_program_reads_{}",
        folder.as_str(),
        process::id(rt.process())
    )?;
    fs::write(&rt, path.as_str(), b"hello")?;
    let mut files = FolderFiles::new(&rt);
    let whole = files.read(path.as_str(), 5)?;
    let start = files.read(path.as_str(), 2)?;
    fs::remove_file(&rt, path.as_str())?;
    assert_eq!(rt; whole.as_slice(), b"hello".as_slice());
    assert_eq!(rt; start.as_slice(), b"hel".as_slice());
    assert!(rt; matches!(files.read(path.as_str(), 5), Err(FileFault::Failed)));
    Ok(())
}

#[test]
fn writes_to_standard_output(rt: HostRuntime) -> Result<(), Fail> {
    let mut out = StdoutSink::new(&rt);
    assert!(rt; out.put(b"written\n").is_ok());
    Ok(())
}
