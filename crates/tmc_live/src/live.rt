//! The program without its outside.

ghost use Rattle.std.specs.Prelude.{◌≡◌, ◌≢◌, ◌⊎◌, ℕ, ◌+◌, ◌≤◌, List, length, map, codes, Some, None, true, string_bytes};
ghost use Rattle.tmc_base.specs.Faults.{Rose};
ghost use Rattle.usbip_export.specs.declared.serving.ServeEnd.TheVariants as end;
ghost use Rattle.tmc_live.specs.declared.status.Status.TheVariants.{Served, Usage, SinkFault, NoMemory, NetFault as NetFaulted};
ghost use Rattle.tmc_live.specs.Command.{IsCommand};
ghost use Rattle.tmc_live.specs.Served.{IsServed};
ghost use Rattle.tmc_live.specs.Live.{code_of, Ends, EndsServing};
ghost use Rattle.tmc_live.specs.Next.{Prints, PrintsFault, Next};

use crate::client::serve_client;
use crate::command::{Serve, command_of};
use crate::line::connection_line;
use crate::net::{Net, NetFault};
use crate::status::Status;
use std::alloc::Global;
use tmc_base::{Sink, Source, write_all};
use usbip_export::ServeEnd;

/// Runs the program: `words` are the arguments behind its name, and the text goes to `sink`. The source is not read.
///
/// `serve ADDRESS N` listens at the address, and serves N connections, 1 to 1,000, one behind the other: each with a node
/// that awaits operations, in at most 1,000,000 calls on its link. As each connection ends, its link goes back to the net, and
/// then its line is written, `connection K END`. Each write offers all that is left of a line. Behind a fault of the net
/// or the sink nothing more is accepted.
///
/// | Status | Comes where | Printed |
/// |---|---|---|
/// | 0 | N connections were served, and their lines were written | the lines |
/// | 1 | the words name no command | `usage` |
/// | 4 | a write to the sink failed | a front of the text |
/// | 5 | memory is wanting | the lines of the connections before |
/// | 6 | the net could not listen, or could not accept a connection | these lines, and `net fault` |
pub fn live_main<S: Source, K: Sink, N: Net>(
    alloc: Global,
    words: &[String],
    source: &mut S,
    sink: &mut K,
    net: &mut N,
) -> u8
    ensures ends { (status : Status) × (result ≡ code_of status) × Ends (record { standing = N.standing; back = N.back; opens = N.opens; accepts = N.accepts; takes = N.takes; put = K.put; faults = K.faults; writes = K.writes; serves = IsServed N.L.told N.L.counts N.L.sends N.L.polls })
        (map string_bytes words.now) status net.old sink.old net.new sink.new }
    ensures unread { source.new ≡ source.old }
    ensures usage { (IsCommand (map string_bytes words.now) → ⊥) → (Rose (K.faults sink.old) (K.faults sink.new) → ⊥) → result ≡ code_of Usage }
    ensures served { IsCommand (map string_bytes words.now) → (Rose (N.standing net.old).faults (N.standing net.new).faults → ⊥) → (Rose (K.faults sink.old) (K.faults sink.new) → ⊥)
        → (result ≡ code_of Served) ⊎ (result ≡ code_of NoMemory) }
    ensures sink_fault { result ≡ code_of SinkFault → Rose (K.faults sink.old) (K.faults sink.new) }
    ensures net_fault { result ≡ code_of NetFaulted → Rose (N.standing net.old).faults (N.standing net.new).faults }
    ensures sink_stands { result ≢ code_of SinkFault → K.faults sink.new ≡ K.faults sink.old }
    ensures net_stands { result ≢ code_of SinkFault → result ≢ code_of NetFaulted → (N.standing net.new).faults ≡ (N.standing net.old).faults }
{
    run(alloc, words, sink, net).code()
}

fn run<K: Sink, N: Net>(alloc: Global, words: &[String], sink: &mut K, net: &mut N) -> Status
    ensures { Ends (record { standing = N.standing; back = N.back; opens = N.opens; accepts = N.accepts; takes = N.takes; put = K.put; faults = K.faults; writes = K.writes; serves = IsServed N.L.told N.L.counts N.L.sends N.L.polls })
        (map string_bytes words.now) result net.old sink.old net.new sink.new }
{
    match command_of(words) {
        Some(Serve { address, count }) => serve(alloc, address, count, sink, net),
        None => print(sink, b"usage\n", Status::Usage),
    }
}

/// Serves so many connections that come to the address.
fn serve<K: Sink, N: Net>(
    alloc: Global,
    address: &str,
    count: u32,
    sink: &mut K,
    net: &mut N,
) -> Status
    ensures { EndsServing (record { standing = N.standing; back = N.back; opens = N.opens; accepts = N.accepts; takes = N.takes; put = K.put; faults = K.faults; writes = K.writes; serves = IsServed N.L.told N.L.counts N.L.sends N.L.polls })
        address.now count result net.old sink.old net.new sink.new }
{
    if let Err(fault) = net.listen(address) {
        return print_fault(sink, fault);
    }
    let mut served = 0;
    'connections: while served < count {
        served += 1;
        if let Some(status) = serve_next(alloc, served, sink, net) {
            return status;
        }
    }
    Status::Served
}

/// Accepts a connection, serves it, and prints its line with this number. A status ends the serving.
fn serve_next<K: Sink, N: Net>(
    alloc: Global,
    number: u32,
    sink: &mut K,
    net: &mut N,
) -> Option<Status>
    requires { (N.standing net.old).listens ≡ true }
    ensures next { Next (record { standing = N.standing; back = N.back; opens = N.opens; accepts = N.accepts; takes = N.takes; put = K.put; faults = K.faults; writes = K.writes; serves = IsServed N.L.told N.L.counts N.L.sends N.L.polls })
        number result net.old sink.old net.new sink.new }
    ensures listens { (N.standing net.new).listens ≡ true }
{
    let mut link = match net.accept() {
        Ok(link) => link,
        Err(fault) => return Some(print_fault(sink, fault)),
    };
    let end = serve_client(alloc, &mut link);
    net.done(link);
    if let ServeEnd::Memory = end {
        return Some(Status::NoMemory);
    }
    let Ok(line) = connection_line(alloc, number, end) else {
        return Some(Status::NoMemory);
    };
    if write_all(sink, line.as_bytes()) {
        None
    } else {
        Some(Status::SinkFault)
    }
}

/// Prints that the net failed, and answers the status of that. Nothing is printed of want of memory.
fn print_fault<K: Sink>(sink: &mut K, fault: NetFault) -> Status
    ensures { PrintsFault K.put K.faults K.writes fault result sink.old sink.new }
{
    match fault {
        NetFault::Failed => print(sink, b"net fault\n", Status::NetFault),
        NetFault::Memory => Status::NoMemory,
    }
}

/// Writes a text, and answers the status that it goes with where it could be written whole.
fn print<K: Sink>(sink: &mut K, text: &[u8], status: Status) -> Status
    ensures { Prints K.put K.faults K.writes text.now status result sink.old sink.new }
{
    if write_all(sink, text) {
        status
    } else {
        Status::SinkFault
    }
}
