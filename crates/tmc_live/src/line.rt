//! The line that is printed of a connection.

ghost use Rattle.std.specs.Prelude.{◌≡◌, ◌++◌, IfOk, codes, string_bytes};
ghost use Rattle.std.specs.Fmt.{decimal};
ghost use Rattle.usbip_export.specs.declared.serving.ServeEnd.TheVariants as end;
ghost use Rattle.tmc_live.specs.Line.{connection_line, layer_word, name_word};

use std::alloc::Global;
use tmc_base::{Field, Layer, Memory, Name};
use usbip_export::ServeEnd;

/// The connection with this number, and how its serving ended.
pub(crate) fn connection_line(alloc: Global, number: u32, end: ServeEnd) -> Result<String, Memory>
    ensures { IfOk result (λ line. string_bytes line ≡ connection_line number end) }
{
    match end {
        ServeEnd::Closed => plain_line(alloc, number, "Closed"),
        ServeEnd::Refused(field) => refused_line(alloc, number, field),
        ServeEnd::LinkFault => plain_line(alloc, number, "LinkFault"),
        ServeEnd::Spent => plain_line(alloc, number, "Spent"),
        ServeEnd::Memory => plain_line(alloc, number, "Memory"),
    }
}

/// The line of an end that has no values.
fn plain_line(alloc: Global, number: u32, end: &str) -> Result<String, Memory>
    ensures { IfOk result (λ line. string_bytes line ≡ codes "connection " ++ (decimal number ++ (codes " " ++ (end.now ++ codes "\n")))) }
{
    Ok(format!(in alloc; "connection {number} {end}\n")?)
}

fn refused_line(alloc: Global, number: u32, field: Field) -> Result<String, Memory>
    ensures { IfOk result (λ line. string_bytes line ≡ connection_line number (end.Refused field)) }
{
    let layer = layer_word(field.layer);
    let name = name_word(field.name);
    let offset = field.offset;
    Ok(format!(in alloc; "connection {number} Refused {layer} {name} {offset}\n")?)
}

fn layer_word(layer: Layer) -> &'static str
    ensures { result.now ≡ layer_word layer }
{
    match layer {
        Layer::Op => "op",
        Layer::Urb => "urb",
        Layer::Bulk => "bulk",
        Layer::Control => "control",
        Layer::Notify => "notify",
    }
}

fn name_word(name: Name) -> &'static str
    ensures { result.now ≡ name_word name }
{
    match name {
        Name::Version => "version",
        Name::Code => "code",
        Name::Command => "command",
        Name::Seqnum => "seqnum",
        Name::Devid => "devid",
        Name::Direction => "direction",
        Name::Endpoint => "endpoint",
        Name::BufferLength => "buffer_length",
        Name::Packets => "packets",
        Name::ActualLength => "actual_length",
        Name::Pending => "pending",
        Name::MsgId => "msg_id",
        Name::Tag => "tag",
        Name::Inverse => "inverse",
        Name::Size => "size",
        Name::Length => "length",
    }
}
