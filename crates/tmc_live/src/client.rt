//! The serving of one connection.

ghost use Rattle.tmc_live.specs.Served.{IsServed};

use std::alloc::Global;
use tmc_base::{Link, Memory};
use usbip_export::{Node, ServeEnd, serve_link};

/// The most calls on the link of one connection.
const TURNS: u64 = 1_000_000;

/// Serves one client from a node that awaits operations.
pub(crate) fn serve_client<L: Link>(alloc: Global, link: &mut L) -> ServeEnd
    ensures { IsServed L.told L.counts L.sends L.polls link.old result link.new }
{
    match Node::new(alloc) {
        Ok(mut node) => serve_link(&mut node, link, TURNS),
        Err(Memory) => ServeEnd::Memory,
    }
}
