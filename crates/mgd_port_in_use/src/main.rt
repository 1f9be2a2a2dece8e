//! Serving as the editing server's program does, on a port where this program listens already.
#![tactic(auto)]

use mgs_command::WRONG_ARGUMENTS;
use mgs_disk::load_config;
use mgs_program::serve_config;
use std::io;
use std::net::{Ipv4Addr, Net, SocketAddr, TcpListener, TcpStream};
use std::process::ExitCode;

// Listens on a port that the system chooses, which is told.
fn listen<R: Net<Listener = TcpListener, Stream = TcpStream>>(
    rt: &R,
) -> io::Result<(TcpListener, u16)> {
    let listener = TcpListener::bind(rt, SocketAddr::from((Ipv4Addr::LOCALHOST, 0)))?;
    let port = listener.local_addr()?.port();
    Ok((listener, port))
}

// It ends by the status of wrong arguments where there is nothing to try.
fn main(rt: HostRuntime) -> ExitCode {
    let Ok((_listener, port)) = listen(&rt) else {
        return ExitCode::from(WRONG_ARGUMENTS);
    };
    match load_config(&rt, "sound.toml") {
        Ok(config) => ExitCode::from(serve_config(&rt, config, port)),
        Err(_) => ExitCode::from(WRONG_ARGUMENTS),
    }
}
