//! What the commands take from the runtime.

use std::fs::File;
use std::net::{Net, TcpListener, TcpStream};
use std::random::RandomSource;
use std::rt::Files;

/// All that the commands take from the runtime: files, the network, random bytes and memory. Every
/// runtime that has these is one.
pub trait Runtime: Files<File = File>
    + Net<Listener = TcpListener, Stream = TcpStream>
    + RandomSource
    + AllocGlobal {}

impl<
    T: Files<File = File>
        + Net<Listener = TcpListener, Stream = TcpStream>
        + RandomSource
        + AllocGlobal,
> Runtime for T {}
