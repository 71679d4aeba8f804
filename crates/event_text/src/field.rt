//! The words of a refused field.

ghost use Rattle.std.specs.Prelude.{◌≡◌, ◌++◌, OnOk, OnErr};
ghost use Rattle.event_text.specs.Printed.{layer_word, name_word, field_words};

use crate::text::{hand_over, put_number, put_space, put_word};
use tmc_base::{Field, Layer, Memory, Name};

/// Appends the words of a refused field: its layer, its name and its offset in its message. Where memory is wanting
/// `out` is as before.
pub fn put_field(field: Field, out: &mut Vec<u8>) -> Result<(), Memory>
    ensures put { OnOk result (out.new.items ≡ out.old.items ++ field_words field) }
    ensures kept { OnErr result (out.new.items ≡ out.old.items) }
{
    let mut text = Vec::new(*out.allocator());
    put_field_words(field, &mut text)?;
    hand_over(text, out)
}

pub(crate) fn put_field_words(field: Field, text: &mut Vec<u8>) -> Result<(), Memory>
    ensures { OnOk result (text.new.items ≡ text.old.items ++ field_words field) }
{
    put_word(layer_word(field.layer), text)?;
    put_space(text)?;
    put_word(name_word(field.name), text)?;
    put_space(text)?;
    put_number(u64::from(field.offset), text)
}

fn layer_word(layer: Layer) -> &'static str
    ensures { result.now ≡ layer_word layer }
{
    match layer {
        Layer::Op => "op",
        Layer::Urb => "urb",
        Layer::Bulk => "bulk",
        Layer::Control => "control",
        Layer::Notify => "notify",
    }
}

fn name_word(name: Name) -> &'static str
    ensures { result.now ≡ name_word name }
{
    match name {
        Name::Version => "version",
        Name::Code => "code",
        Name::Command => "command",
        Name::Seqnum => "seqnum",
        Name::Devid => "devid",
        Name::Direction => "direction",
        Name::Endpoint => "endpoint",
        Name::BufferLength => "buffer_length",
        Name::Packets => "packets",
        Name::ActualLength => "actual_length",
        Name::Pending => "pending",
        Name::MsgId => "msg_id",
        Name::Tag => "tag",
        Name::Inverse => "inverse",
        Name::Size => "size",
        Name::Length => "length",
    }
}
