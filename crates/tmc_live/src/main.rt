//! The bench link's program with threads and sockets: `serve`.
#![tactic(auto)]

mod client;
mod command;
mod line;
mod live;
mod mem_net;
mod net;
mod shell;
mod status;
mod tcp_net;
#[cfg(test)]
mod tests;

use shell::{WordsFault, behind_name, live_exit};
use std::env;
use std::process::ExitCode;
use tcp_net::TcpNet;
use tmc_base::{StdSink, StdSource};

fn main(rt: HostRuntime) -> ExitCode {
    let mut source = StdSource::new(rt.stdin());
    let mut sink = StdSink::new(rt.stdout());
    let mut net = TcpNet::new(rt.alloc(), &rt);
    live_exit(
        rt.alloc(),
        words_given(&rt),
        &mut source,
        &mut sink,
        &mut net,
    )
}

/// The words that the shell gave behind the program's name.
fn words_given(rt: &HostRuntime) -> Result<Vec<String>, WordsFault> {
    let all = env::args(rt)?.collect::<Vec<String>>(rt.alloc())?;
    Ok(behind_name(all))
}
