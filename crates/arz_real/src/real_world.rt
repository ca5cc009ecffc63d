// A file and a TCP stream of the system. What they hold isn't told.
ghost use Rattle.std.specs.Prelude.{◌≡◌, ◌≤◌, ◌^◌, length, IfOk};
ghost use Rattle.arz_world.specs.Outside.{Rose};

use arz_world::{DiskFault, LinkFault, Server, World};
use std::fs::{File, OpenFile, OpenOptions};
use std::io::{Error, ErrorKind, Read, Seek, SeekFrom, Write};
use std::net::{Net, TcpStream};
use std::{io, rt};

/// The most bytes that a file may have.
const SIZE_LIMIT: u64 = 4_611_686_018_427_387_904;

/// A file and a TCP stream of the system.
#[derive(Drop)]
pub struct RealWorld<'a, R: rt::Files + Net> {
    rt: &'a R,
    file: Option<R::File>,
    stream: Option<R::Stream>,
    disk_faults: u64,
    link_faults: u64,
}

impl<'a, R: rt::Files + Net> RealWorld<'a, R> {
    /// Opens nothing yet.
    pub fn new(rt: &'a R) -> Self {
        RealWorld {
            rt,
            file: None,
            stream: None,
            disk_faults: 0,
            link_faults: 0,
        }
    }
}

impl<'a, R: rt::Files + Net> World for RealWorld<'a, R> {
    ghost use Rattle.arz_real.specs.Untold.{untold, untold_lawful};

    ghost told = { λ w. untold w.disk_faults w.link_faults };

    fn attach(&mut self, path: &str) -> Result<(), DiskFault> {
        match opened(self.rt, path) {
            Ok(file) => {
                self.file = Some(file);
                Ok(())
            }
            Err(fault) => {
                if fault.kind() == ErrorKind::OutOfMemory {
                    return Err(DiskFault::Memory);
                }
                Err(disk_failed(&mut self.disk_faults))
            }
        }
    }

    fn size(&mut self) -> Result<u64, DiskFault> {
        match size_of(&self.file) {
            Ok(size) => Ok(size),
            Err(_) => Err(disk_failed(&mut self.disk_faults)),
        }
    }

    fn read(&mut self, at: u64, into: &mut [u8]) -> Result<usize, DiskFault> {
        match read_at(&mut self.file, at, into) {
            Ok(count) => Ok(count),
            Err(_) => Err(disk_failed(&mut self.disk_faults)),
        }
    }

    fn write(&mut self, at: u64, bytes: &[u8]) -> Result<(), DiskFault> {
        match write_at(&mut self.file, at, bytes) {
            Ok(()) => Ok(()),
            Err(_) => Err(disk_failed(&mut self.disk_faults)),
        }
    }

    fn sync(&mut self) -> Result<(), DiskFault> {
        match synced(&self.file) {
            Ok(()) => Ok(()),
            Err(_) => Err(disk_failed(&mut self.disk_faults)),
        }
    }

    fn connect(&mut self, server: &Server) -> Result<(), LinkFault> {
        match TcpStream::connect(self.rt, (server.host.as_str(), server.port)) {
            Ok(stream) => {
                self.stream = Some(stream);
                Ok(())
            }
            Err(fault) => {
                if fault.kind() == ErrorKind::OutOfMemory {
                    return Err(LinkFault::Memory);
                }
                Err(link_failed(&mut self.link_faults))
            }
        }
    }

    fn send(&mut self, bytes: &[u8]) -> Result<(), LinkFault> {
        match sent(&mut self.stream, bytes) {
            Ok(()) => Ok(()),
            Err(_) => Err(link_failed(&mut self.link_faults)),
        }
    }

    fn receive(&mut self, into: &mut [u8]) -> Result<usize, LinkFault> {
        match received(&mut self.stream, into) {
            Ok(count) => Ok(count),
            Err(_) => Err(link_failed(&mut self.link_faults)),
        }
    }

    ghost lawful = { λ w. untold_lawful w.disk_faults w.link_faults };
}

fn disk_failed(faults: &mut u64) -> DiskFault
    ensures fault { result ≡ DiskFault.Failed }
    ensures later { faults.old ≤ faults.new }
    ensures rose { Rose faults.old faults.new }
{
    *faults = faults.saturating_add(1);
    DiskFault::Failed
}

fn link_failed(faults: &mut u64) -> LinkFault
    ensures fault { result ≡ LinkFault.Failed }
    ensures later { faults.old ≤ faults.new }
    ensures rose { Rose faults.old faults.new }
{
    *faults = faults.saturating_add(1);
    LinkFault::Failed
}

fn no_file() -> Error {
    Error::from(ErrorKind::NotFound)
}

fn not_connected() -> Error {
    Error::from(ErrorKind::NotConnected)
}

// The file at the path, a new one where there is none. That a new one is there is synced too.
fn opened<R: rt::Files>(rt: &R, path: &str) -> io::Result<R::File> {
    match OpenOptions::new().read(true).write(true).open(rt, path) {
        Err(fault) if fault.kind() == ErrorKind::NotFound => {
            let file = File::create_new(rt, path)?;
            File::open(rt, folder_of(path))?.sync_all()?;
            Ok(file)
        }
        file => file,
    }
}

// The folder that the file at a path stands in.
fn folder_of(path: &str) -> &str {
    match path.rfind('/') {
        None => ".",
        Some(0) => "/",
        Some(end) => &path[..end],
    }
}

fn size_of<F: OpenFile>(file: &Option<F>) -> io::Result<u64>
    ensures { IfOk result (λ size. size ≤ 2 ^ 62) }
{
    let Some(file) = file else {
        return Err(no_file());
    };
    let size = file.metadata()?.len();
    if SIZE_LIMIT < size {
        return Err(Error::from(ErrorKind::FileTooLarge));
    }
    Ok(size)
}

fn read_at<F: Read + Seek>(file: &mut Option<F>, at: u64, into: &mut [u8]) -> io::Result<usize>
    ensures { IfOk result (λ count. count ≤ length into.new) }
{
    let Some(file) = file else {
        return Err(no_file());
    };
    file.seek(SeekFrom::Start(at))?;
    let mut count = 0;
    'bytes: while count < into.len() {
        let more = read_some(file, &mut into[count..])?;
        if more == 0 {
            break;
        }
        count += more;
    }
    Ok(count)
}

// One read, again where a signal interrupts it.
fn read_some<F: Read>(from: &mut F, into: &mut [u8]) -> io::Result<usize>
    ensures { IfOk result (λ count. count ≤ length into.new) }
{
    for _ in 0..u64::MAX {
        match from.read(into) {
            Err(fault) if fault.kind() == ErrorKind::Interrupted => {}
            done => return done,
        }
    }
    Err(Error::from(ErrorKind::Interrupted))
}

fn write_at<F: Write + Seek>(file: &mut Option<F>, at: u64, bytes: &[u8]) -> io::Result<()> {
    let Some(file) = file else {
        return Err(no_file());
    };
    file.seek(SeekFrom::Start(at))?;
    file.write_all(bytes)
}

fn synced<F: OpenFile>(file: &Option<F>) -> io::Result<()> {
    match file {
        Some(file) => file.sync_all(),
        None => Err(no_file()),
    }
}

// It loops over writes; one that takes nothing is a failure.
fn sent<S: Write>(stream: &mut Option<S>, bytes: &[u8]) -> io::Result<()> {
    match stream {
        Some(stream) => stream.write_all(bytes),
        None => Err(not_connected()),
    }
}

fn received<S: Read>(stream: &mut Option<S>, into: &mut [u8]) -> io::Result<usize>
    ensures { IfOk result (λ count. count ≤ length into.new) }
{
    match stream {
        Some(stream) => read_some(stream, into),
        None => Err(not_connected()),
    }
}
