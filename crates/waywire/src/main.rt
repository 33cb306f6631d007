//! The command `waywire`: prints and checks recorded sessions of Wayland clients.
#![tactic(auto)]

use program_jobs::{BoundSocket, ExitStatus, Writers, run, texts_among};
use std::env;
use std::fs::{self, File};
use std::io::{self, ErrorKind, Read, Stdin};
use std::os::unix::net::{SocketAddr, UnixListener, UnixStream};

/// A Unix socket that is bound at the path of its address.
struct Socket<'a> {
    rt: &'a HostRuntime,
    address: SocketAddr,
    listener: UnixListener,
}

impl BoundSocket for Socket<'_> {
    type Stream = UnixStream;

    fn connect(&self) -> io::Result<UnixStream> {
        UnixStream::connect_addr(self.rt, &self.address)
    }

    fn accept(&self) -> io::Result<UnixStream> {
        let (stream, _peer) = self.listener.accept()?;
        Ok(stream)
    }

    fn remove(self) -> io::Result<()> {
        let Socket {
            rt,
            address,
            listener: _listener,
        } = self;
        match address.as_pathname() {
            Some(path) => fs::remove_file(rt, path),
            None => Ok(()),
        }
    }
}

/// Binds a socket at a path where nothing is.
fn bind<'a>(rt: &'a HostRuntime, path: &str) -> io::Result<Socket<'a>> {
    let address = SocketAddr::from_pathname(path)?;
    let listener = UnixListener::bind_addr(rt, &address)?;
    Ok(Socket {
        rt,
        address,
        listener,
    })
}

/// The files that have the table texts of a name: those of a folder, which has at least one, or the
/// file of this name.
fn texts_of(rt: &HostRuntime, name: &str) -> io::Result<Vec<String>> {
    let mut paths = Vec::new(rt.alloc());
    if !is_folder(rt, name) {
        paths.push(String::from_str(rt.alloc(), name)?)?;
        return Ok(paths);
    }
    for entry in fs::read_dir(rt, name)? {
        paths.push(String::from_str(rt.alloc(), entry?.path().as_str())?)?;
    }
    let texts = texts_among(paths)?;
    if texts.is_empty() {
        return Err(io::Error::from(ErrorKind::NotFound));
    }
    Ok(texts)
}

fn is_folder(rt: &HostRuntime, name: &str) -> bool {
    match fs::metadata(rt, name) {
        Ok(metadata) => metadata.is_dir(),
        Err(_) => false,
    }
}

/// What a name is read from.
#[derive(Drop)]
enum Input {
    File(File),
    Standard(Stdin),
}

impl Read for Input {
    fn read(&mut self, buf: &mut [u8]) -> io::Result<usize> {
        match self {
            Input::File(file) => file.read(buf),
            Input::Standard(input) => input.read(buf),
        }
    }
}

/// Opens the file of a name.
fn open(rt: &HostRuntime, name: &str) -> io::Result<Input> {
    Ok(Input::File(File::open(rt, name)?))
}

/// Opens the recording of a stream: `-` is standard input.
fn open_stream(rt: &HostRuntime, name: &str) -> io::Result<Input> {
    if name == "-" {
        return Ok(Input::Standard(rt.stdin()));
    }
    open(rt, name)
}

/// The words of the command line, the program's name first.
fn words(rt: &HostRuntime) -> io::Result<Vec<String>> {
    Ok(env::args(rt)?.collect(rt.alloc())?)
}

fn main(rt: HostRuntime) -> ExitStatus {
    let mut writers = Writers {
        out: io::writer(&rt),
        err: rt.stderr(),
    };
    run(
        rt.alloc(),
        words(&rt),
        |name: &str| texts_of(&rt, name),
        (
            |name: &str| open(&rt, name),
            |name: &str| open_stream(&rt, name),
        ),
        |path: &str| bind(&rt, path),
        &mut writers,
    )
}
