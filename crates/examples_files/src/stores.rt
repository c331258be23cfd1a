use std::alloc::Global;
use std::io::ErrorKind;
use std::test::Fail;
use std::{fs, io};
use wg_outside::{Failed, FolderStore, LoadError, MemorySink, MemoryStore, Sink, StdSink, Store};

// What a store answers of a name, by the bound alone.
fn loads<S: Store>(alloc: Global, store: &mut S, name: &str) -> Result<Vec<u8>, LoadError> {
    store.load(alloc, name, 9)
}

#[test]
fn a_folder_store_saves_loads_and_misses(rt: HostRuntime) -> Result<(), Fail> {
    let mut store = FolderStore::new(&rt);
    store.save("wg_outside_store.bin", &[1, 2, 3])?;
    let whole = loads(rt.alloc(), &mut store, "wg_outside_store.bin")?;
    assert_eq!(rt; whole.as_slice(), [1, 2, 3].as_slice());
    let part = store.load(rt.alloc(), "wg_outside_store.bin", 2)?;
    assert_eq!(rt; part.as_slice(), [1, 2].as_slice());
    fs::remove_file(&rt, "wg_outside_store.bin")?;
    let absent = store.load(rt.alloc(), "wg_outside_store.bin", 2);
    assert!(rt; matches!(&absent, Err(LoadError::Absent)));
    assert!(rt; store.save("wg_outside_none/a.bin", &[1]).is_err());
    Ok(())
}

#[test]
fn a_std_sink_writes_and_tells_a_broken_writer(rt: HostRuntime) -> Result<(), Fail> {
    let mut sink = StdSink::new(fs::create(&rt, "wg_outside_sink.bin")?);
    sink.put(b"one ")?;
    sink.put(b"two")?;
    let text = fs::read_to_string(&rt, "wg_outside_sink.bin")?;
    assert_eq!(rt; text.as_str(), "one two");
    fs::remove_file(&rt, "wg_outside_sink.bin")?;
    let mut broken = StdSink::new(Broken { left: 1 });
    broken.put(b"o")?;
    assert!(rt; matches!(&broken.put(b"ne"), Err(Failed)));
    Ok(())
}

// A writer that takes so many bytes, one at a time, and then fails.
#[derive(Drop)]
struct Broken {
    left: u8,
}

impl io::Write for Broken {
    fn write(&mut self, buf: &[u8]) -> io::Result<usize> {
        if self.left == 0 || buf.is_empty() {
            return Err(io::Error::from(ErrorKind::BrokenPipe));
        }
        self.left -= 1;
        Ok(1)
    }

    fn flush(&mut self) -> io::Result<()> {
        Ok(())
    }
}

#[test]
fn a_memory_store_keeps_files_and_fails_the_listed_calls(rt: HostRuntime) -> Result<(), Fail> {
    let mut store = MemoryStore::new(rt.alloc(), &[2], 2, 8)?;
    store.save("a", &[1, 2])?;
    store.save("a", &[3])?;
    assert_eq!(rt; store.file("a"), Some([3].as_slice()));
    assert!(rt; store.save("b", &[]).is_err());
    assert!(rt; matches!(&loads(rt.alloc(), &mut store, "b"), Err(LoadError::Absent)));
    let a = loads(rt.alloc(), &mut store, "a")?;
    assert_eq!(rt; a.as_slice(), [3].as_slice());
    assert!(rt; store.save("c", &[]).is_err());
    Ok(())
}

#[test]
fn a_memory_store_takes_files_beside_its_room(rt: HostRuntime) -> Result<(), Fail> {
    let mut store = MemoryStore::new(rt.alloc(), &[], 0, 0)?;
    store.add(rt.alloc(), "k", &[7])?;
    assert_eq!(rt; store.file("k"), Some([7].as_slice()));
    assert_eq!(rt; store.file("j"), None);
    Ok(())
}

#[test]
fn a_memory_sink_keeps_bytes_within_its_room(rt: HostRuntime) -> Result<(), Fail> {
    let mut sink = MemorySink::new(rt.alloc(), &[1], 4)?;
    sink.put(b"ab")?;
    assert!(rt; sink.put(b"c").is_err());
    sink.put(b"cd")?;
    assert!(rt; sink.put(b"e").is_err());
    assert_eq!(rt; sink.bytes(), b"abcd".as_slice());
    Ok(())
}
