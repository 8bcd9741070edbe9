//! Clients over the system's sockets, in one process: the clients connect and write, the server runs turns,
//! and the clients read the replies.
ghost use Rattle.std.specs.Prelude.{IfOk};
ghost use Rattle.settings_file.specs.Settings.{MeetsLimits};

use crate::exchanges::{BOTH_FRAMINGS, CHUNKED, Exchange, LAST, NOT_POST, PLAIN, SETTINGS, TWO};
use crate::lpd_sessions::ONE_JOB;
use base_types::Moment;
use daemon::Server;
use program::read_or_refuse;
use settings_file::Settings;
use sockets::{Listening, Sockets};
use std::io;
use std::io::{Read, Write};
use std::net::{IpAddr, Ipv4Addr, Shutdown, SocketAddr, TcpStream};
use std::test::Fail;
use wires::Door;

/// The address of this machine.
fn local() -> IpAddr {
    IpAddr::V4(Ipv4Addr::new(127, 0, 0, 1))
}

/// The doors of a server. Each door listens at any free port.
const DOORS: [Door; 3] = [Door::Ipp, Door::Lpd, Door::Devices];

/// The turns that suffice for any of the exchanges.
const TURNS: usize = 30;

/// Sockets that listen at each door.
fn listening(rt: &HostRuntime) -> io::Result<Sockets> {
    let mut sockets = Sockets::new(rt.alloc(), rt)?;
    let address = SocketAddr::new(local(), 0);
    for &door in &DOORS {
        sockets.listen(rt, Listening { door, address })?;
    }
    Ok(sockets)
}

/// The settings of a server.
fn settings(rt: &HostRuntime) -> io::Result<Settings>
    ensures { IfOk result MeetsLimits }
{
    match read_or_refuse(rt.alloc(), SETTINGS.as_bytes(), &mut rt.stderr()) {
        Ok(settings) => Ok(settings),
        Err(_) => Err(io::Error::from(io::ErrorKind::InvalidData)),
    }
}

/// The address at which a server's door listens.
fn address_of(server: &Server, door: Door) -> io::Result<SocketAddr> {
    let listening = server.listening()?;
    match listening.iter().find(|one| one.door == door) {
        Some(one) => Ok(one.address),
        None => Err(io::Error::from(io::ErrorKind::NotFound)),
    }
}

/// A peer that connects at a server's door and sends these octets.
fn peer(rt: &HostRuntime, server: &Server, door: Door, sent: &[u8]) -> io::Result<TcpStream> {
    let mut stream = TcpStream::connect(rt, address_of(server, door)?)?;
    stream.write_all(sent)?;
    Ok(stream)
}

/// A client that connects at a server's IPP door.
fn connect(rt: &HostRuntime, server: &Server) -> io::Result<TcpStream> {
    peer(rt, server, Door::Ipp, b"")
}

fn turns(server: &mut Server, count: usize) -> io::Result<()> {
    for _turn in 0..count {
        server.turn(Moment::start());
        server.wait_for_work(2)?;
    }
    Ok(())
}

/// The answer to a client that sends these octets and then ends its stream.
fn answered(rt: &HostRuntime, server: &mut Server, sent: &[u8]) -> io::Result<Vec<u8>> {
    let mut client = connect(rt, server)?;
    client.write_all(sent)?;
    client.shutdown(Shutdown::Write)?;
    turns(server, TURNS)?;
    let mut bytes = Vec::new(rt.alloc());
    client.read_to_end(&mut bytes)?;
    Ok(bytes)
}

/// Returns whether a client gets exactly its answer.
fn is_answered(rt: &HostRuntime, server: &mut Server, exchange: Exchange) -> io::Result<bool> {
    let bytes = answered(rt, server, exchange.sent)?;
    Ok(bytes.as_slice() == exchange.answered)
}

/// A client connects, and leaves in the middle of a body.
fn leave_midway(rt: &HostRuntime, server: &mut Server) -> io::Result<()> {
    let mut client = connect(rt, server)?;
    if let Some(prefix) = PLAIN.sent.get(..150) {
        client.write_all(prefix)?;
    }
    turns(server, 5)?;
    drop(client);
    turns(server, 5)
}

/// Returns whether a second client gets its answer after the first client left.
fn goes_on_after_one_gone(rt: &HostRuntime, server: &mut Server) -> io::Result<bool> {
    leave_midway(rt, server)?;
    is_answered(rt, server, PLAIN)
}

/// This number of clients that send nothing.
fn crowd(rt: &HostRuntime, server: &Server, count: usize) -> io::Result<Vec<TcpStream>> {
    let mut idle = Vec::new(rt.alloc());
    for _client in 0..count {
        idle.push(connect(rt, server)?)?;
    }
    Ok(idle)
}

/// The octets that a client has got after [`TURNS`] turns.
fn got_so_far(
    rt: &HostRuntime,
    server: &mut Server,
    client: &mut TcpStream,
) -> io::Result<Vec<u8>> {
    turns(server, TURNS)?;
    client.set_nonblocking(true)?;
    let mut bytes = Vec::new(rt.alloc());
    let _waits = client.read_to_end(&mut bytes);
    Ok(bytes)
}

/// Returns whether the last of 65 clients, 64 of which send nothing, gets no octet before one of them has
/// left, and gets its answer then.
fn one_waits_for_a_place(rt: &HostRuntime, server: &mut Server) -> io::Result<bool> {
    let mut idle = crowd(rt, server, 64)?;
    turns(server, 70)?;
    let mut client = connect(rt, server)?;
    client.write_all(PLAIN.sent)?;
    let early = got_so_far(rt, server, &mut client)?;
    drop(idle.pop());
    let late = got_so_far(rt, server, &mut client)?;
    Ok(early.is_empty() && late.as_slice() == PLAIN.answered)
}

/// Runs turns at this moment, in ms since the start.
fn turns_at(server: &mut Server, millis: u64) -> io::Result<()> {
    for _turn in 0..3 {
        server.turn(Moment::new(millis).unwrap_or(Moment::start()));
        server.wait_for_work(2)?;
    }
    Ok(())
}

/// Returns whether a client has read the end of its stream.
fn has_ended(client: &mut TcpStream) -> bool {
    let mut segment = [0; 1];
    match client.read(&mut segment) {
        Ok(count) => count == 0,
        Err(_) => false,
    }
}

/// Returns whether the server closes the connection of a client that sends a part of a head, and a further
/// byte at 30 s, at 60,000 ms, and not yet at 59,999 ms.
fn head_has_a_minute(rt: &HostRuntime, server: &mut Server) -> io::Result<bool> {
    let mut client = connect(rt, server)?;
    client.write_all(b"POST / HT")?;
    turns_at(server, 0)?;
    client.write_all(b"T")?;
    turns_at(server, 30_000)?;
    client.set_nonblocking(true)?;
    turns_at(server, 59_999)?;
    let early = has_ended(&mut client);
    turns_at(server, 60_000)?;
    Ok(!early && has_ended(&mut client))
}

/// Returns whether a peer has got exactly these octets after [`TURNS`] turns.
fn gets(
    rt: &HostRuntime,
    server: &mut Server,
    peer: &mut TcpStream,
    wanted: &[u8],
) -> io::Result<bool> {
    let bytes = got_so_far(rt, server, peer)?;
    Ok(bytes.as_slice() == wanted)
}

/// Plays a running device, and a client of LPD that sends it a job. Returns whether the client gets its
/// acknowledgements, the device gets the job, and the next client gets an empty queue after the end of the
/// job.
fn lpd_job(rt: &HostRuntime, server: &mut Server) -> io::Result<bool> {
    let mut device = peer(rt, server, Door::Devices, b"HELLO A\nREADY\n")?;
    let mut client = peer(rt, server, Door::Lpd, ONE_JOB.sent)?;
    let acknowledged = gets(rt, server, &mut client, ONE_JOB.answered)?;
    let printed = gets(
        rt,
        server,
        &mut device,
        b"JOB 1 5 1 1 iso_a4_210x297mm\nhello",
    )?;
    device.write_all(b"DONE 1\n")?;
    let mut next = peer(rt, server, Door::Lpd, b"\x03lab\n")?;
    let listed = gets(rt, server, &mut next, b"lab idle\nno entries\n")?;
    Ok(acknowledged && printed && listed)
}

/// Appends the log lines of [`TURNS`] turns.
fn log_turns(server: &mut Server, log: &mut Vec<u8>) -> io::Result<()> {
    for _turn in 0..TURNS {
        let lines = server.turn_logged(Moment::start())?;
        log.extend_from_slice(&lines)?;
        server.wait_for_work(2)?;
    }
    Ok(())
}

/// Appends the log of four happenings: a running device connects, a client sends a job, the job ends, and the
/// client leaves after its five acknowledgements. Returns the ports of the device and of the client.
fn log_of_job(rt: &HostRuntime, server: &mut Server, log: &mut Vec<u8>) -> io::Result<(u16, u16)> {
    let mut device = peer(rt, server, Door::Devices, b"HELLO A\nREADY\n")?;
    log_turns(server, log)?;
    let mut client = peer(rt, server, Door::Lpd, ONE_JOB.sent)?;
    log_turns(server, log)?;
    client.read_exact(&mut [0; 5])?;
    device.write_all(b"DONE 1\n")?;
    log_turns(server, log)?;
    let places = (device.local_addr()?.port(), client.local_addr()?.port());
    drop(client);
    log_turns(server, log)?;
    Ok(places)
}

/// The expected lines of that log.
fn wanted_log(rt: &HostRuntime, ports: (u16, u16)) -> io::Result<String> {
    let (device, client) = ports;
    Ok(format!(in rt.alloc();
        "0 open 0 devices 127.0.0.1:{device}\n0 open 1 lpd 127.0.0.1:{client}\n0 job 1 lab ann 1 \"untitled\"\n0 plan 50:10\n0 start 1 A\n0 completed 1 A\n0 close 1 left\n"
    )?)
}

/// Returns whether a server logs exactly the expected lines.
fn logs_job(rt: &HostRuntime, server: &mut Server) -> io::Result<bool> {
    let mut log = Vec::new(rt.alloc());
    let ports = log_of_job(rt, server, &mut log)?;
    let wanted = wanted_log(rt, ports)?;
    Ok(log.as_slice() == wanted.as_bytes())
}

/// A scene on a server that has just started.
#[derive(Clone, Copy)]
enum Scene {
    Exchange(Exchange),
    ClientGoesAway,
    OneClientTooMany,
    UnfinishedHead,
    LpdJob,
    LoggedJob,
}

/// Plays a scene on this server, and returns whether it goes as expected.
fn goes(rt: &HostRuntime, server: &mut Server, scene: Scene) -> io::Result<bool> {
    match scene {
        Scene::Exchange(exchange) => is_answered(rt, server, exchange),
        Scene::ClientGoesAway => goes_on_after_one_gone(rt, server),
        Scene::OneClientTooMany => one_waits_for_a_place(rt, server),
        Scene::UnfinishedHead => head_has_a_minute(rt, server),
        Scene::LpdJob => lpd_job(rt, server),
        Scene::LoggedJob => logs_job(rt, server),
    }
}

/// Plays a scene as [`goes`] does, on a server that starts with these settings over these sockets.
fn goes_over(
    rt: &HostRuntime,
    sockets: Sockets,
    settings: Settings,
    scene: Scene,
) -> io::Result<bool>
    requires { MeetsLimits settings }
{
    match Server::new(rt.alloc(), sockets, settings) {
        Ok(mut server) => goes(rt, &mut server, scene),
        Err(_) => Err(io::Error::from(io::ErrorKind::OutOfMemory)),
    }
}

/// Plays a scene as [`goes`] does, on a server that has just started.
fn plays(rt: &HostRuntime, scene: Scene) -> io::Result<bool> {
    let sockets = listening(rt)?;
    goes_over(rt, sockets, settings(rt)?, scene)
}

#[test]
fn exchanges(rt: HostRuntime) -> Result<(), Fail> {
    for &exchange in &[PLAIN, CHUNKED, LAST, TWO, BOTH_FRAMINGS, NOT_POST] {
        let played = plays(&rt, Scene::Exchange(exchange))?;
        assert!(rt; played);
    }
    Ok(())
}

#[test]
fn client_goes_away(rt: HostRuntime) -> Result<(), Fail> {
    let played = plays(&rt, Scene::ClientGoesAway)?;
    assert!(rt; played);
    Ok(())
}

#[test]
fn one_client_too_many(rt: HostRuntime) -> Result<(), Fail> {
    let played = plays(&rt, Scene::OneClientTooMany)?;
    assert!(rt; played);
    Ok(())
}

#[test]
fn unfinished_head_has_a_minute(rt: HostRuntime) -> Result<(), Fail> {
    let played = plays(&rt, Scene::UnfinishedHead)?;
    assert!(rt; played);
    Ok(())
}

#[test]
fn lpd_job_printed(rt: HostRuntime) -> Result<(), Fail> {
    let played = plays(&rt, Scene::LpdJob)?;
    assert!(rt; played);
    Ok(())
}

#[test]
fn job_and_connections_logged(rt: HostRuntime) -> Result<(), Fail> {
    let played = plays(&rt, Scene::LoggedJob)?;
    assert!(rt; played);
    Ok(())
}
